// How the run of an application ended.

use js_crossing::ending::Ending;
use lava_base::list::List;
use lava_base::name::Name;
use lava_host::fault::Which;

/// What is put to the output.
#[derive(Clone, Copy, Debug, PartialEq, Eq)]
pub enum Mode {
    /// What `console` prints.
    Emit,
    /// The trace of the run, at its end. What `console` prints goes nowhere.
    Trace,
}

/// How a run ended.
#[derive(Drop)]
pub struct Report {
    pub ending: Ending,
    /// The thrown value as `console` prints it, where the ending is `Uncaught`.
    pub uncaught: Option<List<u8>>,
    /// The object of the outside whose call failed first, where one did.
    pub which: Option<Which>,
    /// The names of all parties, by their numbers: the host, and the packages behind it.
    pub names: List<Name>,
    /// The steps that each party has taken.
    pub steps: List<u64>,
    /// How many crossings the journal of the run has.
    pub crossings: u64,
}

// How a run of all parties ends.

use js_machine::frame::{Halt, Mode};
use js_machine::stop::Pause;

/// How a run ends.
#[derive(Clone, Copy, Debug, PartialEq, Eq)]
pub enum Ending {
    /// The host's import is answered.
    Done,
    /// It is answered by a throw.
    Uncaught,
    /// The budget is used up while this party runs.
    Budget(u32),
    /// The run ends within this party.
    Fault(u32, Halt),
}

/// What is next: the party in the machine runs on, the run is over, or the outside is asked by the
/// newest call of the party in the machine.
#[derive(Clone, Copy)]
pub enum Turn {
    Runs(Mode),
    Over(Ending),
    Asks(Pause),
}

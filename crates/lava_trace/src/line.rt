// What a trace says.

ghost use Rattle.std.specs.Prelude.{◌≡◌};
ghost use Rattle.lava_trace.specs.declared.line.TraceFault.TheVariants as fault;

use js_desc::crossing::Crossing;
use js_desc::ending::Ending;
use lava_base::ids::Ref;
use lava_base::list::List;
use lava_base::marks::Marks;
use lava_base::memory::OutOfMemory;
use lava_base::name::Name;

/// A crossing of a trace, with the marks that stand in its line. The id of an object or a made symbol is its number in the trace.
#[derive(Drop)]
pub struct TraceLine {
    pub crossing: Crossing,
    pub marks: List<(Ref, Marks)>,
}

/// What a trace says: the names of the parties of the start, its crossings, the steps of all parties, and how the run ended.
#[derive(Drop)]
pub struct Trace {
    pub parties: List<Name>,
    pub lines: List<TraceLine>,
    pub steps: List<u64>,
    pub ending: Ending,
}

/// Why a text was not read.
#[derive(Clone, Copy, Debug, PartialEq, Eq)]
pub enum TraceFault {
    /// This line, counted from 1, is the first that is not of a trace's form.
    BadTrace { line: u32 },
    /// There is no memory left, or more lines than 32 bits count.
    OutOfMemory,
}

impl From<OutOfMemory> for TraceFault {
    ghost from_gives = { λ _ e. e ≡ fault.OutOfMemory };

    fn from(_: OutOfMemory) -> TraceFault {
        TraceFault::OutOfMemory
    }
}

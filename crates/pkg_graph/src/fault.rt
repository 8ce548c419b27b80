// Why no graph is read.

ghost use Rattle.std.specs.Prelude.{◌≡◌};
ghost use Rattle.pkg_graph.specs.Faults.{graph_fault_of};
ghost use Rattle.pkg_graph.specs.declared.fault.GraphFault.TheVariants as graph;

use lava_base::memory::OutOfMemory;
use lava_base::name::Name;
use lava_streams::fault::ReadFault;
use std::fmt;
use thiserror::Error;

/// Why the packages of an application are not read.
#[derive(Drop, Error)]
pub enum GraphFault {
    /// A manifest is no JSON object, and the field is empty, or this field has not its form. The directory is `.` for the application's folder, else its path below it.
    #[error("the manifest of {} is refused: {}", .dir.as_str(), .field.as_str())]
    Manifest { dir: Name, field: Name },
    /// A call on the folder failed.
    #[error("a call on the folder failed")]
    Folder,
    /// A limit was passed: `packages`, with the count that passed it, or `file`, with the limit plus one.
    #[error("too many {}: {count}", .what.as_str())]
    TooMany { what: Name, count: u64 },
    /// There is no memory left.
    #[error("out of memory")]
    OutOfMemory,
}

impl From<OutOfMemory> for GraphFault {
    ghost from_gives = { λ _ e. e ≡ graph.OutOfMemory };

    fn from(_: OutOfMemory) -> GraphFault {
        GraphFault::OutOfMemory
    }
}

impl From<ReadFault> for GraphFault {
    ghost from_gives = { λ fault e. e ≡ graph_fault_of fault };

    fn from(fault: ReadFault) -> GraphFault {
        match fault {
            ReadFault::Failed => GraphFault::Folder,
            ReadFault::OutOfMemory => GraphFault::OutOfMemory,
        }
    }
}

impl fmt::Debug for GraphFault {
    fn fmt<W: fmt::Write>(&self, f: &mut fmt::Formatter<W>) -> fmt::Result {
        write!(f, "{self}")
    }
}

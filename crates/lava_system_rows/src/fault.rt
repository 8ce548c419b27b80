// Why nothing came of a line.

use lava_base::memory::OutOfMemory;
use lava_streams::fault::{Failed, ReadFault};
use std::alloc::{AllocError, AllocFailed};
use std::{fmt, io};

/// Why nothing came of a line.
#[derive(Clone, Copy, Debug)]
pub enum Fault {
    /// The line is of no kind, or lacks a number.
    Line,
    /// The system refused what the line needs.
    System,
    /// There is no memory left.
    OutOfMemory,
}

impl fmt::Display for Fault {
    fn fmt<W: fmt::Write>(&self, f: &mut fmt::Formatter<W>) -> fmt::Result {
        let text = match self {
            Fault::Line => "no such line",
            Fault::System => "refused by the system",
            Fault::OutOfMemory => "out of memory",
        };
        write!(f, "{text}")
    }
}

impl From<OutOfMemory> for Fault {
    fn from(_: OutOfMemory) -> Fault {
        Fault::OutOfMemory
    }
}

impl From<AllocError> for Fault {
    fn from(_: AllocError) -> Fault {
        Fault::OutOfMemory
    }
}

impl<T: Drop> From<AllocFailed<T>> for Fault {
    fn from(_: AllocFailed<T>) -> Fault {
        Fault::OutOfMemory
    }
}

impl From<io::Error> for Fault {
    fn from(_: io::Error) -> Fault {
        Fault::System
    }
}

impl From<Failed> for Fault {
    fn from(_: Failed) -> Fault {
        Fault::System
    }
}

impl From<ReadFault> for Fault {
    fn from(_: ReadFault) -> Fault {
        Fault::System
    }
}

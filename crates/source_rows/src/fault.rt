// Why a line has no answer.

use js_text::fault::TextFault;
use lava_base::memory::OutOfMemory;
use std::alloc::{AllocError, AllocFailed};
use std::fmt;

/// Why a line has no answer, or that a literal is refused.
#[derive(Drop)]
pub enum Fault {
    /// The line is no case.
    Line,
    /// A text got too long.
    TooLong,
    /// Bytes are not UTF-8.
    NotUtf8 { at: u32 },
    /// There is no memory left.
    OutOfMemory,
}

impl fmt::Display for Fault {
    fn fmt<W: fmt::Write>(&self, f: &mut fmt::Formatter<W>) -> fmt::Result {
        match self {
            Fault::Line => write!(f, "no case"),
            Fault::TooLong => write!(f, "too long"),
            Fault::NotUtf8 { at } => write!(f, "not UTF-8 at {at}"),
            Fault::OutOfMemory => write!(f, "out of memory"),
        }
    }
}

impl From<TextFault> for Fault {
    fn from(fault: TextFault) -> Fault {
        match fault {
            TextFault::TooLong => Fault::TooLong,
            TextFault::NotUtf8 { at } => Fault::NotUtf8 { at },
            TextFault::OutOfMemory => Fault::OutOfMemory,
        }
    }
}

impl From<OutOfMemory> for Fault {
    fn from(_: OutOfMemory) -> Fault {
        Fault::OutOfMemory
    }
}

impl From<AllocError> for Fault {
    fn from(_: AllocError) -> Fault {
        Fault::OutOfMemory
    }
}

impl<T: Drop> From<AllocFailed<T>> for Fault {
    fn from(_: AllocFailed<T>) -> Fault {
        Fault::OutOfMemory
    }
}

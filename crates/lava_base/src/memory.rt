// Want of memory, the one answer that is always free to come.

use std::alloc::{AllocError, AllocFailed};

/// There is no memory left, or a count would pass what its type holds.
#[derive(Clone, Copy, Debug, PartialEq, Eq)]
pub struct OutOfMemory;

impl From<AllocError> for OutOfMemory {
    fn from(_: AllocError) -> OutOfMemory {
        OutOfMemory
    }
}

impl<T: Drop> From<AllocFailed<T>> for OutOfMemory {
    fn from(_: AllocFailed<T>) -> OutOfMemory {
        OutOfMemory
    }
}

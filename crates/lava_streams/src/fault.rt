// The faults of the outside.

ghost use Rattle.std.specs.Prelude.{◌≡◌};
ghost use Rattle.lava_streams.specs.declared.fault.ReadFault.TheVariants.{Failed as ItFailed, OutOfMemory as NoMemory};

use lava_base::memory::OutOfMemory;
use std::alloc::{AllocError, AllocFailed};

/// The outside failed in this call. The object's count of faults says so too.
#[derive(Clone, Copy, Debug, PartialEq, Eq)]
pub struct Failed;

/// Why a reading call gave nothing.
#[derive(Clone, Copy, Debug, PartialEq, Eq)]
pub enum ReadFault {
    /// The outside failed in this call.
    Failed,
    /// There was no memory for the answer.
    OutOfMemory,
}

impl From<Failed> for ReadFault {
    ghost from_gives = { λ _ fault. fault ≡ ItFailed };

    fn from(_: Failed) -> ReadFault {
        ReadFault::Failed
    }
}

impl From<OutOfMemory> for ReadFault {
    ghost from_gives = { λ _ fault. fault ≡ NoMemory };

    fn from(_: OutOfMemory) -> ReadFault {
        ReadFault::OutOfMemory
    }
}

impl From<AllocError> for ReadFault {
    ghost from_gives = { λ _ fault. fault ≡ NoMemory };

    fn from(_: AllocError) -> ReadFault {
        ReadFault::OutOfMemory
    }
}

impl<T: Drop> From<AllocFailed<T>> for ReadFault {
    ghost from_gives = { λ _ fault. fault ≡ NoMemory };

    fn from(_: AllocFailed<T>) -> ReadFault {
        ReadFault::OutOfMemory
    }
}

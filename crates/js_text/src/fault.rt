// Why a text cannot be made.

ghost use Rattle.std.specs.Prelude.{◌≡◌};
ghost use Rattle.js_text.specs.declared.fault.TextFault.TheVariants as fault;

use lava_base::memory::OutOfMemory;
use std::alloc::{AllocError, AllocFailed};

/// Why a text cannot be made.
#[derive(Clone, Copy, Debug, PartialEq, Eq)]
pub enum TextFault {
    /// It would have more than `MAX_UNITS` units.
    TooLong,
    /// The bytes are not UTF-8. `at` is the first byte with which no UTF-8 text goes on, or the length where the bytes end inside a character.
    NotUtf8 { at: u32 },
    /// There is no memory left.
    OutOfMemory,
}

impl From<OutOfMemory> for TextFault {
    ghost from_gives = { λ _ e. e ≡ fault.OutOfMemory };

    fn from(_: OutOfMemory) -> TextFault {
        TextFault::OutOfMemory
    }
}

impl From<AllocError> for TextFault {
    ghost from_gives = { λ _ e. e ≡ fault.OutOfMemory };

    fn from(_: AllocError) -> TextFault {
        TextFault::OutOfMemory
    }
}

impl<T: Drop> From<AllocFailed<T>> for TextFault {
    ghost from_gives = { λ _ e. e ≡ fault.OutOfMemory };

    fn from(_: AllocFailed<T>) -> TextFault {
        TextFault::OutOfMemory
    }
}

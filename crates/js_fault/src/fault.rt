// Why a source is refused.

ghost use Rattle.std.specs.Prelude.{◌≡◌};
ghost use Rattle.js_fault.specs.declared.fault.SyntaxFault.TheVariants as fault;

use lava_base::memory::OutOfMemory;
use lava_base::name::Name;
use lava_base::place::Place;
use std::alloc::{AllocError, AllocFailed};

/// What is wrong with a source.
#[derive(Drop)]
pub enum SyntaxWhat {
    /// Its bytes are not UTF-8.
    NotUtf8,
    /// No token of the language stands there.
    BadToken,
    /// A form of ECMA-262 that the profile leaves out, by its name.
    Unsupported(Name),
    /// A token that no program goes on with.
    Unexpected,
    /// The tree would be more than 256 levels deep.
    TooDeep,
    /// An early error of ECMA-262, by its name.
    Early(Name),
}

/// Why a source is refused.
#[derive(Drop)]
pub enum SyntaxFault {
    /// What is wrong, and at which place of the source.
    At { place: Place, what: SyntaxWhat },
    /// There is no memory left.
    OutOfMemory,
}

impl From<OutOfMemory> for SyntaxFault {
    ghost from_gives = { λ _ e. e ≡ fault.OutOfMemory };

    fn from(_: OutOfMemory) -> SyntaxFault {
        SyntaxFault::OutOfMemory
    }
}

impl From<AllocError> for SyntaxFault {
    ghost from_gives = { λ _ e. e ≡ fault.OutOfMemory };

    fn from(_: AllocError) -> SyntaxFault {
        SyntaxFault::OutOfMemory
    }
}

impl<T: Drop> From<AllocFailed<T>> for SyntaxFault {
    ghost from_gives = { λ _ e. e ≡ fault.OutOfMemory };

    fn from(_: AllocFailed<T>) -> SyntaxFault {
        SyntaxFault::OutOfMemory
    }
}

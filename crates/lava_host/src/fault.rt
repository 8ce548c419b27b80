// Why the host has no answer.

use lava_base::memory::OutOfMemory;

/// An object of the outside.
#[derive(Clone, Copy, Debug, PartialEq, Eq)]
pub enum Which {
    Folder,
    Input,
    Output,
    Errors,
    Clock,
}

/// Why the host has no answer.
#[derive(Clone, Copy, Debug, PartialEq, Eq)]
pub enum HostFault {
    /// A call on this object failed, and its count of faults rose.
    Outside(Which),
    /// There was no memory.
    OutOfMemory,
}

impl From<OutOfMemory> for HostFault {
    ghost use Rattle.std.specs.Prelude.{◌≡◌};
    ghost use Rattle.lava_host.specs.declared.fault.HostFault.TheVariants as fault;

    ghost from_gives = { λ _ f. f ≡ fault.OutOfMemory };

    fn from(_: OutOfMemory) -> HostFault {
        HostFault::OutOfMemory
    }
}

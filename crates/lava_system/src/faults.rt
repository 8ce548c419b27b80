// The count of an adapter's faults, which stays at 2^64 - 1.

ghost use Rattle.std.specs.Prelude.{◌≡◌, ◌↔◌, OnErr};
ghost use Rattle.std.specs.IoError.{error_kind};
ghost use Rattle.std.specs.declared.io.ErrorKind.TheVariants.{OutOfMemory as NoMemory};
ghost use Rattle.lava_streams.specs.Counts.{Counts, CountsFailed};

use lava_streams::fault::{Failed, ReadFault};
use std::io;
use std::io::ErrorKind;

/// Counts a call that reads, if it failed, and hands its answer on.
pub fn counted<T>(faults: &mut u64, answer: Result<T, ReadFault>) -> Result<T, ReadFault>
    ensures same { result ≡ answer }
    ensures counts { Counts faults.old faults.new result }
{
    if let Err(ReadFault::Failed) = &answer {
        *faults = faults.saturating_add(1);
    }
    answer
}

/// Counts a call, if it failed, and hands its answer on.
pub fn counted_failed<T>(faults: &mut u64, answer: Result<T, Failed>) -> Result<T, Failed>
    ensures same { result ≡ answer }
    ensures counts { CountsFailed faults.old faults.new result }
{
    if answer.is_err() {
        *faults = faults.saturating_add(1);
    }
    answer
}

/// What an error of the system is to a call that reads.
pub fn fault_of(error: io::Error) -> ReadFault
    ensures { result ≡ ReadFault.OutOfMemory ↔ error_kind error ≡ NoMemory }
{
    if error.kind() == ErrorKind::OutOfMemory {
        ReadFault::OutOfMemory
    } else {
        ReadFault::Failed
    }
}

// The line behind the run of the application.

ghost use Rattle.std.specs.Prelude.{◌≡◌, IfOk};
ghost use Rattle.lava_big.specs.Summaries as spec;

use itoa::Buffer;
use lava_base::list::List;
use lava_base::memory::OutOfMemory;
use std::alloc::Global;

/// How the line begins; the number of packages follows.
pub const SUMMARY_PACKAGES: &str = "packages ";

/// What follows in the line; the number of crossings follows.
pub const SUMMARY_CROSSINGS: &str = " crossings ";

/// What follows in the line; the exit status of the ending follows.
pub const SUMMARY_STATUS: &str = " status ";

/// The line behind a run: how many packages the application has, how many crossings the run had, and the exit status of its ending.
pub fn summary_line(
    alloc: Global,
    count: u32,
    crossings: u64,
    status: u8,
) -> Result<List<u8>, OutOfMemory>
    ensures { IfOk result (λ line. line ≡ spec.summary_line count crossings status) }
{
    let mut digits = Buffer::new();
    let mut line = List::new(alloc);
    line.extend_from_slice(SUMMARY_PACKAGES.as_bytes())?;
    line.extend_from_slice(digits.format(count).as_bytes())?;
    line.extend_from_slice(SUMMARY_CROSSINGS.as_bytes())?;
    line.extend_from_slice(digits.format(crossings).as_bytes())?;
    line.extend_from_slice(SUMMARY_STATUS.as_bytes())?;
    line.extend_from_slice(digits.format(status).as_bytes())?;
    line.push(b'\n')?;
    Ok(line)
}

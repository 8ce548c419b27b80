// Writing a line.

ghost use Rattle.std.specs.Prelude.{◌≡◌, ℕ, List, IfErr, IfOk};
ghost use Rattle.lava_lines.specs.Puts.{Lacks, Puts, PutsLine};

use crate::status::{MEMORY_LINE, MEMORY_STATUS, OUTSIDE_STATUS};
use lava_base::list::List;
use lava_base::memory::OutOfMemory;
use lava_streams::fault::Failed;
use lava_streams::sink::Sink;

/// Writes a line, and gives the status, or that of a fault of the outside where the writing fails.
pub fn put_line<E: Sink>(line: &[u8], status: u8, err: &mut E) -> u8
    ensures { Puts line.now status (E.stand err.old) (E.stand err.new) result }
{
    match err.put(line) {
        Ok(()) => status,
        Err(Failed) => OUTSIDE_STATUS,
    }
}

/// Writes a line that was made, or that there was no memory for it.
pub fn put_made<E: Sink>(made: Result<List<u8>, OutOfMemory>, status: u8, err: &mut E) -> u8
    ensures line { (line : List ℕ) → IfOk made (λ l. l ≡ line) →
        PutsLine line status (E.stand err.old) (E.stand err.new) result }
    ensures lacks { IfErr made (λ _. Lacks (E.stand err.old) (E.stand err.new) result) }
{
    match made {
        Ok(line) => put_line(line.as_slice(), status, err),
        Err(OutOfMemory) => put_line(MEMORY_LINE.as_bytes(), MEMORY_STATUS, err),
    }
}

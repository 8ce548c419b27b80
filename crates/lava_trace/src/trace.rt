// Whole traces.

ghost use Rattle.std.specs.Prelude.{◌≡◌, ◌==◌, ◌<◌, ◌^◌, length, position, IfSome, MatchResult};
ghost use Rattle.lava_trace.specs.Traces as spec;
ghost use Rattle.lava_trace.specs.Traces.{A_trace, Tells};

use crate::course::TraceReader;
use crate::line::{Trace, TraceFault};
use std::alloc::Global;

/// The place of the first LF.
fn line_end(bytes: &[u8]) -> Option<usize>
    ensures place { result ≡ position (λ b. b == 10) bytes.now }
    ensures bound { IfSome result (λ end. end < length bytes.now) }
    ensures small { length bytes.now < 2 ^ 64 }
{
    bytes.iter().position(|byte| *byte == 10)
}

/// What is read of a text at its end.
fn at_the_end(reader: TraceReader, is_whole: bool, line: u32) -> Result<Trace, TraceFault>
    ensures { MatchResult result (λ t. spec.end_reading reader line is_whole ≡ A_trace t)
        (λ e. Tells (spec.end_reading reader line is_whole) e) }
{
    if !is_whole {
        return Err(TraceFault::BadTrace { line });
    }
    match reader.into_trace() {
        None => Err(TraceFault::BadTrace { line }),
        Some(trace) => Ok(trace),
    }
}

/// Reads the text of a trace.
///
/// `BadTrace` comes exactly where the text is not of a trace's form, with its first line that is not. A text that ends before its `end` line is refused at the line behind its last whole one.
#[tactic(auto, using(crate::proofs::Trace_laws::line_taken, crate::proofs::Trace_laws::line_refused, crate::proofs::Trace_laws::no_line))]
pub fn read_trace(alloc: Global, bytes: &[u8]) -> Result<Trace, TraceFault>
    ensures { MatchResult result (λ t. spec.reading_of bytes.now ≡ A_trace t)
        (λ e. Tells (spec.reading_of bytes.now) e) }
{
    let mut reader = TraceReader::new(alloc);
    let mut left = bytes;
    let mut line: u32 = 1;
    while let Some(end) = line_end(left) {
        let (first, rest) = left.split_at(end + 1);
        let Ok(is_taken) = reader.take(first) else {
            return Err(TraceFault::OutOfMemory);
        };
        if !is_taken {
            return Err(TraceFault::BadTrace { line });
        }
        left = rest;
        let Some(next) = line.checked_add(1) else {
            return Err(TraceFault::OutOfMemory);
        };
        line = next;
    }
    at_the_end(reader, left.is_empty(), line)
}

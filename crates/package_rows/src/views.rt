// Views of traces.

use crate::bytes::{bytes_of, shown_bytes};
use crate::fault::Fault;
use crate::numbers::number_of;
use crate::policies::start_in;
use lava_base::ids::PartyId;
use lava_trace::line::TraceFault;
use lava_trace::trace::read_trace;
use lava_view::view::view;
use lava_view::view_line::ViewLine;
use std::alloc::Global;

/// `view PARTY|POLICY|TRACE`: what a party sees of a trace that has what the row `a` of a policy grants, or the trace's first bad line.
pub fn row(alloc: Global, line: &str) -> Result<String, Fault> {
    let (party, rest) = line.split_once('|').unwrap_or((line, ""));
    let (policy, text) = rest.split_once('|').unwrap_or((rest, ""));
    let party = PartyId(number_of(party)?);
    let start = start_in(alloc, policy)?;
    let bytes = bytes_of(alloc, text)?;
    match read_trace(alloc, bytes.as_slice()) {
        Ok(trace) => {
            let lines = view(alloc, &trace, &start, party)?;
            shown(alloc, lines.as_slice())
        }
        Err(fault) => refused(alloc, fault),
    }
}

fn refused(alloc: Global, fault: TraceFault) -> Result<String, Fault> {
    match fault {
        TraceFault::BadTrace { line } => Ok(format!(in alloc; "bad line {line}")?),
        TraceFault::OutOfMemory => Err(Fault::OutOfMemory),
    }
}

fn shown(alloc: Global, lines: &[ViewLine]) -> Result<String, Fault> {
    let mut shown = String::new(alloc);
    for line in lines {
        if !shown.is_empty() {
            shown.push_str("; ")?;
        }
        add_line(alloc, &mut shown, line)?;
    }
    Ok(shown)
}

fn add_line(alloc: Global, shown: &mut String, line: &ViewLine) -> Result<(), Fault> {
    let word = if line.sent { "sent " } else { "came " };
    shown.push_str(word)?;
    let body = shown_bytes(alloc, line.body.as_slice())?;
    shown.push_str(body.as_str())?;
    Ok(())
}

// Packages, policies and views: for each line of the input, `KIND REST`, what comes of a folder of packages, of an application of the
// language, of a policy, of calls of the host or of a trace is printed.
#![tactic(auto)]

mod bytes;
mod fault;
mod files;
mod numbers;
mod packages;
mod policies;
mod refusals;
mod sources;
mod views;

use crate::fault::Fault;
use std::alloc::Global;
use std::io;

fn main(rt: HostRuntime) -> io::Result<()> {
    for line in rt.lines(rt.alloc()) {
        let line = line?;
        match row(rt.alloc(), line.as_str()) {
            Ok(shown) => println!(rt; "{shown}")?,
            Err(fault) => println!(rt; "{fault}")?,
        }
    }
    Ok(())
}

/// What came of a line.
fn row(alloc: Global, line: &str) -> Result<String, Fault> {
    let (kind, rest) = line.split_once(' ').unwrap_or((line, ""));
    match kind {
        "package" => packages::row(alloc, rest),
        "source" => sources::row(alloc, rest),
        "policy" => policies::row(alloc, rest),
        "view" => views::row(alloc, rest),
        _ => Err(Fault::Line),
    }
}

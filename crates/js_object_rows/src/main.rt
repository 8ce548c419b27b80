// Cases of texts, properties and objects: for each line `KIND WORDS` the line is printed once more, with ` = ` and what comes of it.
// bench/validate_table.py makes the lines, and says what has to come of each.
#![tactic(auto)]

mod asks;
mod commons;
mod decisions;
mod fault;
mod foreigners;
mod kinds;
mod methods;
mod names;
mod outcomes;
mod sameness;
mod shown;
mod stores;
mod texts;
mod words;
mod world;

use crate::fault::Fault;
use js_store::flat::FlatStore;
use std::alloc::Global;
use std::io;

fn main(rt: HostRuntime) -> io::Result<()> {
    for line in rt.lines(rt.alloc()) {
        let line = line?;
        match answer(rt.alloc(), line.as_str()) {
            Ok(answer) => println!(rt; "{} ={}", line.as_str(), answer.as_str())?,
            Err(fault) => println!(rt; "{} = {fault}", line.as_str())?,
        }
    }
    Ok(())
}

/// What comes of a line: words with a space before each.
fn answer(alloc: Global, line: &str) -> Result<String, Fault> {
    let mut out = String::new(alloc);
    let (kind, rest) = line.split_once(' ').unwrap_or((line, ""));
    push_answer(alloc, &mut out, kind, rest)?;
    Ok(out)
}

/// Appends what comes of a line of a kind.
fn push_answer(alloc: Global, out: &mut String, kind: &str, rest: &str) -> Result<(), Fault> {
    match kind {
        "utf8" => texts::utf8(alloc, out, rest),
        "units" => texts::units(alloc, out, rest),
        "find" => texts::find(alloc, out, rest),
        "native" => names::native(out, rest),
        "common" => names::common(out, rest),
        "path" => names::path(out, rest),
        "values" => sameness::values(alloc, out, rest),
        "keys" => sameness::keys(alloc, out, rest),
        "ask" => asks::ask(alloc, out, rest),
        "reply" => asks::reply(alloc, out, rest),
        "cross" => asks::cross(alloc, out, rest),
        "fault" => names::fault(alloc, out, rest),
        "store" => stores::steps::<FlatStore>(alloc, out, rest),
        "bare" => commons::bare(alloc, out, rest),
        "freeze" => commons::freeze(alloc, out),
        "decide" => decisions::steps(alloc, out, rest),
        "foreign" => foreigners::steps(alloc, out, rest),
        _ => Err(Fault::Line),
    }
}

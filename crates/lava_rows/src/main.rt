// The worked rows: for each line of the input, `KIND REST`, it does what the line says, and prints what came of it. In a line `|` is a line feed and `~` a NUL.
#![tactic(auto)]

mod memory;

use lava_system_rows::fault::Fault;
use lava_system_rows::kind::{Kind, kind_of};
use lava_system_rows::{files, halting, streams};
use std::io;

fn main(rt: HostRuntime) -> io::Result<()> {
    for line in rt.lines(rt.alloc()) {
        let line = line?;
        match row(&rt, line.as_str()) {
            Ok(shown) => println!(rt; "{shown}")?,
            Err(fault) => println!(rt; "{fault}")?,
        }
    }
    Ok(())
}

/// What came of a line.
fn row(rt: &HostRuntime, line: &str) -> Result<String, Fault> {
    let (kind, rest) = line.split_once(' ').unwrap_or((line, ""));
    match kind_of(kind) {
        Some(kind) => row_of(rt, kind, rest),
        None => Err(Fault::Line),
    }
}

/// What came of a line of this kind.
fn row_of(rt: &HostRuntime, kind: Kind, rest: &str) -> Result<String, Fault> {
    let alloc = rt.alloc();
    match kind {
        Kind::Run => memory::source(alloc, "run app", rest),
        Kind::Trace => memory::source(alloc, "trace app", rest),
        Kind::App => memory::app(alloc, rest),
        Kind::Tree => memory::source(alloc, "tree app/index.js", rest),
        Kind::Words => memory::words(alloc, rest),
        Kind::Missing => memory::missing(alloc),
        Kind::Bytes => memory::bytes(alloc, rest),
        Kind::Policy => memory::policy(alloc, rest),
        Kind::PolicyBytes => memory::policy_bytes(alloc, rest),
        Kind::FolderFails => memory::folder_fails(alloc, rest),
        Kind::OutputFails => memory::output_fails(alloc, rest),
        Kind::OutputFailsOfApp => memory::output_fails_of_app(alloc, rest),
        Kind::ErrorsFail => memory::errors_fail(alloc, rest),
        Kind::Read => files::read(rt, rest),
        Kind::List => files::list(rt, rest),
        Kind::ListEmpty => files::list_empty(rt),
        Kind::Lines => streams::lines(rt, rest),
        Kind::LongLines => streams::long_lines(alloc),
        Kind::HaltingSource => halting::source(alloc),
        Kind::HaltingSink => halting::sink(alloc),
        Kind::Put => streams::put(rt, rest),
        Kind::Full => streams::full(rt),
        Kind::Clock => streams::clock(rt),
    }
}

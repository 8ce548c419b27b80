// Sources and what they are: for each line of the input, `KIND REST`, what comes of it by the lexer, the grammar, the parser, the scopes or
// the reader of the prelude is printed. A `¶` in a source stands for a line terminator.
#![tactic(auto)]

mod bytes;
mod cursors;
mod fault;
mod grammar;
mod literals;
mod names;
mod preludes;
mod readings;
mod refusals;
mod scopes;
mod token_lists;
mod trees;

use crate::fault::Fault;
use std::alloc::Global;
use std::io;

fn main(rt: HostRuntime) -> io::Result<()> {
    for line in rt.lines(rt.alloc()) {
        let line = line?;
        match answer(rt.alloc(), line.as_str()) {
            Ok(answer) => println!(rt; "{}", answer.as_str())?,
            Err(fault) => println!(rt; "{fault}")?,
        }
    }
    Ok(())
}

/// What comes of a line.
fn answer(alloc: Global, line: &str) -> Result<String, Fault> {
    let mut out = String::new(alloc);
    let (kind, rest) = line.split_once(' ').unwrap_or((line, ""));
    push_answer(alloc, &mut out, kind, rest)?;
    Ok(out)
}

/// Appends what comes of a line of a kind.
fn push_answer(alloc: Global, out: &mut String, kind: &str, rest: &str) -> Result<(), Fault> {
    match kind {
        "grammar" => grammar::push_row(alloc, out, rest),
        "cursor" => cursors::push_row(alloc, out, rest),
        "reader" => readings::push_row(alloc, out, rest),
        "literal" => literals::push_row(alloc, out, rest),
        "tree" => trees::push_row(alloc, out, rest),
        "scope" => scopes::push_row(alloc, out, rest),
        "prelude" => preludes::push_row(alloc, out, rest),
        "tokens" => token_lists::push_tokens(alloc, out, rest),
        "places" => token_lists::push_places(alloc, out, rest),
        "keyword" => token_lists::push_keyword(out, rest),
        "punctuator" => token_lists::push_punctuator(alloc, out, rest),
        _ => Err(Fault::Line),
    }
}

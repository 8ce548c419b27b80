// Sources and what they are by the grammar.

use crate::fault::Fault;
use crate::refusals::push_refusal;
use js_fault::fault::SyntaxFault;
use js_grammar::event::Event;
use js_grammar::symbols::Terminal;
use js_lexer::lexer::tokens;
use js_reader::reading::module_reading;
use lava_base::place::Place;
use std::alloc::{AllocError, Global};

/// `reader SOURCE`: `ok` with a `;` for each semicolon that is inserted, or the refusal.
pub fn push_row(alloc: Global, out: &mut String, line: &str) -> Result<(), Fault> {
    write!(out, "{line} = ")?;
    let source = line.replace(alloc, '¶', "\n")?;
    match inserted(alloc, source.as_str()) {
        Ok(count) => push_accepted(out, count)?,
        Err(fault) => push_refusal(out, &fault)?,
    }
    Ok(())
}

/// How many semicolons are inserted into a source.
fn inserted(alloc: Global, source: &str) -> Result<usize, SyntaxFault> {
    let tokens = tokens(alloc, source.as_bytes())?;
    let reading = module_reading(alloc, source.as_bytes(), tokens.as_slice(), end_of(source))?;
    let events = reading.events();
    Ok(events.iter().filter(|event| is_inserted(**event)).count())
}

/// Whether an event is an inserted semicolon.
fn is_inserted(event: Event) -> bool {
    match event {
        Event::Leaf(lexeme) => matches!(
            lexeme.terminal,
            Terminal::Inserted | Terminal::InsertedAfterDoWhile
        ),
        _ => false,
    }
}

/// The place behind a source of ASCII with LF alone as line terminator.
fn end_of(source: &str) -> Place {
    let mut place = Place { line: 1, unit: 1 };
    for byte in source.bytes() {
        place = if byte == b'\n' {
            Place {
                line: place.line.wrapping_add(1),
                unit: 1,
            }
        } else {
            Place {
                line: place.line,
                unit: place.unit.wrapping_add(1),
            }
        };
    }
    place
}

fn push_accepted(out: &mut String, count: usize) -> Result<(), AllocError> {
    out.push_str("ok")?;
    for _ in 0..count {
        out.push_str(" ;")?;
    }
    Ok(())
}

// What literals and names are worth.

mod words;

use self::words::{bytes_of, push_text};
use crate::fault::Fault;
use js_literals::names::identifier_text;
use js_literals::numbers::numeric_value;
use js_literals::strings::{is_string_value, string_value, template_value};
use std::alloc::Global;

/// `literal KIND WORD`: the line once more, and what the literal is worth, or why it is worth nothing.
pub fn push_row(alloc: Global, out: &mut String, line: &str) -> Result<(), Fault> {
    write!(out, "{line} =")?;
    let (kind, word) = line.split_once(' ').unwrap_or((line, ""));
    if let Err(fault) = push_value(alloc, out, kind, word) {
        write!(out, " {fault}")?;
    }
    Ok(())
}

fn push_value(alloc: Global, out: &mut String, kind: &str, word: &str) -> Result<(), Fault> {
    match kind {
        "string" => string(alloc, out, word),
        "template" => template(alloc, out, word),
        "name" => name(alloc, out, word),
        "number" => number(alloc, out, word),
        "is" => is(alloc, out, word),
        _ => Err(Fault::Line),
    }
}

/// `string LITERAL`: its units.
fn string(alloc: Global, out: &mut String, word: &str) -> Result<(), Fault> {
    let text = string_value(alloc, &bytes_of(alloc, word)?)?;
    push_text(alloc, out, &text)
}

/// `template PART`: its units.
fn template(alloc: Global, out: &mut String, word: &str) -> Result<(), Fault> {
    let text = template_value(alloc, &bytes_of(alloc, word)?)?;
    push_text(alloc, out, &text)
}

/// `name NAME`: its units.
fn name(alloc: Global, out: &mut String, word: &str) -> Result<(), Fault> {
    let text = identifier_text(alloc, &bytes_of(alloc, word)?)?;
    push_text(alloc, out, &text)
}

/// `number LITERAL`: the integer in decimal, or `none`.
fn number(alloc: Global, out: &mut String, word: &str) -> Result<(), Fault> {
    match numeric_value(alloc, &bytes_of(alloc, word)?)? {
        Some(number) => write!(out, " {}", number.get())?,
        None => write!(out, " none")?,
    }
    Ok(())
}

/// `is LITERAL TEXT`: whether the string literal has this text.
fn is(alloc: Global, out: &mut String, words: &str) -> Result<(), Fault> {
    let (literal, text) = words.split_once(' ').ok_or(Fault::Line)?;
    let (literal, text) = (bytes_of(alloc, literal)?, bytes_of(alloc, text)?);
    let same = is_string_value(&literal, &text);
    write!(out, " {same}")?;
    Ok(())
}

// How answers are written. Each word of an answer has a space before it.

use crate::fault::Fault;
use js_text::text::Text;
use js_text::value::{Key, Symbol};
use lava_base::ids::Ref;
use lava_base::list::List;
use std::alloc::Global;

/// Appends a word.
pub fn push_word(out: &mut String, word: &str) -> Result<(), Fault> {
    write!(out, " {word}")?;
    Ok(())
}

/// Appends a number in decimal.
pub fn push_number(out: &mut String, number: i64) -> Result<(), Fault> {
    write!(out, " {number}")?;
    Ok(())
}

/// Appends a number in decimal, or `none`.
pub fn push_count(out: &mut String, number: Option<u32>) -> Result<(), Fault> {
    match number {
        Some(number) => push_number(out, i64::from(number)),
        None => push_word(out, "none"),
    }
}

/// Appends a truth value.
pub fn push_truth(out: &mut String, truth: bool) -> Result<(), Fault> {
    push_word(out, if truth { "true" } else { "false" })
}

/// Appends a number in hexadecimal, with a count where that is not 1.
fn push_run(out: &mut String, number: u16, count: u32) -> Result<(), Fault> {
    if count == 1 {
        write!(out, " {number:X}")?;
    } else {
        write!(out, " {number:X}*{count}")?;
    }
    Ok(())
}

/// Appends numbers in hexadecimal, those that are equal and stand beside one another as one with a count.
pub fn push_runs(out: &mut String, numbers: &[u16]) -> Result<(), Fault> {
    let mut last = 0;
    let mut count = 0u32;
    for number in numbers {
        if count > 0 && *number != last {
            push_run(out, last, count)?;
            count = 0;
        }
        last = *number;
        count = count.wrapping_add(1);
    }
    if count > 0 {
        push_run(out, last, count)?;
    }
    Ok(())
}

/// Appends the units of a text.
pub fn push_units(alloc: Global, out: &mut String, text: &Text) -> Result<(), Fault> {
    let units = text.to_units(alloc)?;
    push_runs(out, units.as_slice())
}

/// Appends a reference.
pub fn push_reference(out: &mut String, reference: Ref) -> Result<(), Fault> {
    match reference {
        Ref::Common(place) => {
            let place = place.0;
            write!(out, " c{place}")?;
        }
        Ref::Own { party, id } => {
            let (party, id) = (party.0, id.0);
            write!(out, " {party}:{id}")?;
        }
    }
    Ok(())
}

/// Appends the letters of a text.
fn push_letters(alloc: Global, out: &mut String, text: &Text) -> Result<(), Fault> {
    let mut bytes = List::new(alloc);
    text.write_utf8(&mut bytes)?;
    match str::from_utf8(bytes.as_slice()) {
        Ok(letters) => write!(out, " '{letters}")?,
        Err(_) => push_word(out, "not UTF-8")?,
    }
    Ok(())
}

/// Appends a key: an index as a number, a text behind a `'`, the well-known symbol as `@iterator`, and others as `@`.
pub fn push_key(alloc: Global, out: &mut String, key: &Key) -> Result<(), Fault> {
    match key {
        Key::Index(index) => push_number(out, i64::from(*index)),
        Key::Text(text) => push_letters(alloc, out, text),
        Key::Symbol(Symbol::Iterator) => push_word(out, "@iterator"),
        Key::Symbol(_) => push_word(out, "@"),
    }
}

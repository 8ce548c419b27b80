// How the lines write bytes, and the answers units.

use crate::fault::Fault;
use js_text::text::Text;
use std::alloc::Global;

/// Appends a run: letters behind a `'`, or a byte in hexadecimal.
fn push_run(bytes: &mut Vec<u8>, run: &str) -> Result<(), Fault> {
    if let Some(letters) = run.strip_prefix('\'') {
        bytes.extend_from_slice(letters.as_bytes())?;
        return Ok(());
    }
    let Ok(byte) = u8::from_str_radix(run, 16) else {
        return Err(Fault::Line);
    };
    bytes.push(byte)?;
    Ok(())
}

/// Appends a run with a count behind a `*`, or one that stands once.
fn push_counted(bytes: &mut Vec<u8>, run: &str) -> Result<(), Fault> {
    let (run, count) = run.split_once('*').unwrap_or((run, "1"));
    let Ok(count) = count.parse::<u32>() else {
        return Err(Fault::Line);
    };
    for _ in 0..count {
        push_run(bytes, run)?;
    }
    Ok(())
}

/// Runs with a `+` between them, as bytes.
pub fn bytes_of(alloc: Global, word: &str) -> Result<Vec<u8>, Fault> {
    let mut bytes = Vec::new(alloc);
    for run in word.split('+') {
        push_counted(&mut bytes, run)?;
    }
    Ok(bytes)
}

/// Appends a number in hexadecimal, with a count where that is not 1.
fn push_unit(out: &mut String, unit: u16, count: u32) -> Result<(), Fault> {
    if count == 1 {
        write!(out, " {unit:X}")?;
    } else {
        write!(out, " {unit:X}*{count}")?;
    }
    Ok(())
}

/// Appends units in hexadecimal, those that are equal and stand beside one another as one with a count.
fn push_units(out: &mut String, units: &[u16]) -> Result<(), Fault> {
    let mut last = 0;
    let mut count = 0u32;
    for unit in units {
        if count > 0 && *unit != last {
            push_unit(out, last, count)?;
            count = 0;
        }
        last = *unit;
        count = count.wrapping_add(1);
    }
    if count > 0 {
        push_unit(out, last, count)?;
    }
    Ok(())
}

/// Appends the units of a text.
pub fn push_text(alloc: Global, out: &mut String, text: &Text) -> Result<(), Fault> {
    let units = text.to_units(alloc)?;
    push_units(out, units.as_slice())
}

// Bytes as rows write them: printable ASCII characters stand for themselves, and `%` with two hex digits for a byte.

use crate::fault::Fault;
use lava_base::list::List;
use std::alloc::Global;

/// The bytes that a row writes.
pub fn bytes_of(alloc: Global, text: &str) -> Result<List<u8>, Fault> {
    let mut bytes = List::new(alloc);
    let (first, rest) = text.split_once('%').unwrap_or((text, ""));
    bytes.extend_from_slice(first.as_bytes())?;
    if rest.is_empty() {
        return Ok(bytes);
    }
    for part in rest.split('%') {
        add_part(&mut bytes, part.as_bytes())?;
    }
    Ok(bytes)
}

// Adds the byte that two hex digits write, and what stands behind them.
fn add_part(bytes: &mut List<u8>, part: &[u8]) -> Result<(), Fault> {
    match part {
        [high, low, rest @ ..] => {
            let high = digit_value(*high)?;
            let low = digit_value(*low)?;
            bytes.push(high.min(15) * 16 + low.min(15))?;
            bytes.extend_from_slice(rest)?;
            Ok(())
        }
        _ => Err(Fault::Line),
    }
}

fn digit_value(digit: u8) -> Result<u8, Fault> {
    match digit {
        b'0'..=b'9' => Ok(digit - b'0'),
        b'A'..=b'F' => Ok(digit - b'A' + 10),
        _ => Err(Fault::Line),
    }
}

/// Bytes as a row writes them.
pub fn shown_bytes(alloc: Global, bytes: &[u8]) -> Result<String, Fault> {
    let mut shown = String::new(alloc);
    for byte in bytes {
        if (b' '..=b'~').contains(byte) && *byte != b'%' {
            shown.push(char::from(*byte))?;
        } else {
            shown.push('%')?;
            shown.push(digit_of(*byte / 16))?;
            shown.push(digit_of(*byte % 16))?;
        }
    }
    Ok(shown)
}

fn digit_of(value: u8) -> char {
    if value < 10 {
        char::from(b'0' + value)
    } else {
        char::from(b'A' + value.min(15) - 10)
    }
}

// Bytes as rows write them: printable ASCII characters stand for themselves, and `%` with two hex digits for a byte.

use crate::fault::Fault;
use std::alloc::Global;

/// The bytes that a row writes.
pub fn escaped_bytes(alloc: Global, text: &str) -> Result<Vec<u8>, Fault> {
    let mut bytes = Vec::new(alloc);
    let (first, rest) = text.split_once('%').unwrap_or((text, ""));
    bytes.extend_from_slice(first.as_bytes())?;
    if rest.is_empty() {
        return Ok(bytes);
    }
    for part in rest.split('%') {
        push_part(&mut bytes, part.as_bytes())?;
    }
    Ok(bytes)
}

// Appends the byte that two hex digits write, and what stands behind them.
fn push_part(bytes: &mut Vec<u8>, part: &[u8]) -> Result<(), Fault> {
    match part {
        [high, low, rest @ ..] => {
            let high = digit_value(*high)?;
            let low = digit_value(*low)?;
            bytes.push(high.min(15) * 16 + low.min(15))?;
            bytes.extend_from_slice(rest)?;
            Ok(())
        }
        _ => Err(Fault::Line),
    }
}

fn digit_value(digit: u8) -> Result<u8, Fault> {
    match digit {
        b'0'..=b'9' => Ok(digit - b'0'),
        b'A'..=b'F' => Ok(digit - b'A' + 10),
        _ => Err(Fault::Line),
    }
}

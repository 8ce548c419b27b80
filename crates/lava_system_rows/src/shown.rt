// Bytes as a line shows them.

use crate::fault::Fault;
use std::alloc::Global;

/// Appends bytes between `<` and `>`: a line feed as `|`, and each other byte as the character with its number.
pub fn show(shown: &mut String, bytes: &[u8]) -> Result<(), Fault> {
    shown.push('<')?;
    for byte in bytes {
        if *byte == b'\n' {
            shown.push('|')?;
        } else {
            shown.push(char::from(*byte))?;
        }
    }
    shown.push('>')?;
    Ok(())
}

/// The text that a line means: a `|` is a line feed, and a `~` a NUL.
pub fn meant(alloc: Global, text: &str) -> Result<String, Fault> {
    let mut meant = String::new(alloc);
    for character in text.chars() {
        match character {
            '|' => meant.push('\n')?,
            '~' => meant.push('\0')?,
            _ => meant.push(character)?,
        }
    }
    Ok(meant)
}

/// The number that a text is.
pub fn number(text: &str) -> Result<u32, Fault> {
    match text.parse::<u32>() {
        Ok(number) => Ok(number),
        Err(_) => Err(Fault::Line),
    }
}

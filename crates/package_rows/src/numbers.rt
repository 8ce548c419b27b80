// Numbers of rows.

use crate::fault::Fault;

/// The number that a text is.
pub fn number_of(text: &str) -> Result<u32, Fault> {
    match text.parse::<u32>() {
        Ok(number) => Ok(number),
        Err(_) => Err(Fault::Line),
    }
}

// Names as rows print them.

use js_text::text::Text;
use std::alloc::AllocError;

/// Appends a name, with `?` for half of a pair of surrogates.
pub fn push_name(out: &mut String, name: &Text) -> Result<(), AllocError> {
    for at in 0..name.len() {
        push_unit(out, name.unit(at))?;
    }
    Ok(())
}

fn push_unit(out: &mut String, unit: u16) -> Result<(), AllocError> {
    match char::from_u32(u32::from(unit)) {
        Some(character) => out.push(character),
        None => out.push('?'),
    }
}

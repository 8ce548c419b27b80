// Texts of terms that the lowering itself writes.

ghost use Rattle.std.specs.Prelude.{◌≡◌, ◌+◌, IfOk};
ghost use Rattle.std.specs.Fmt.{signed_decimal};
ghost use Rattle.js_text.specs.Texts.{same_units};

use itoa::Buffer;
use js_text::text::{Text, from_units};
use lava_base::memory::OutOfMemory;
use std::alloc::Global;

/// The number as a slot, a scope or a count of a term has it.
pub fn count(n: usize) -> Result<u32, OutOfMemory>
    ensures { IfOk result (λ m. m ≡ n) }
{
    match u32::try_from(n) {
        Ok(m) => Ok(m),
        Err(_) => Err(OutOfMemory),
    }
}

/// The number after this one.
pub fn after(n: usize) -> Result<usize, OutOfMemory>
    ensures { IfOk result (λ m. m ≡ n + 1) }
{
    match n.checked_add(1) {
        Some(m) => Ok(m),
        None => Err(OutOfMemory),
    }
}

fn units_of(alloc: Global, word: &[u8]) -> Result<Vec<u16>, OutOfMemory>
    ensures { IfOk result (λ units. units.items ≡ word.now) }
{
    let mut units = Vec::with_capacity(alloc, word.len())?;
    for unit in word {
        units.push(u16::from(*unit))?;
    }
    Ok(units)
}

/// The text of an ASCII word.
pub fn word(alloc: Global, word: &[u8]) -> Result<Text, OutOfMemory>
    ensures { IfOk result (λ text. text ≡ word.now) }
{
    let units = units_of(alloc, word)?;
    match from_units(alloc, &units) {
        Ok(text) => Ok(text),
        Err(_) => Err(OutOfMemory),
    }
}

/// Whether a text is an ASCII word.
pub fn is_word(alloc: Global, text: &Text, known: &[u8]) -> Result<bool, OutOfMemory>
    ensures { IfOk result (λ same. same ≡ same_units text.now known.now) }
{
    if text.len() as usize != known.len() {
        return Ok(false);
    }
    let other = word(alloc, known)?;
    Ok(text.is_same(&other))
}

/// The decimal digits of an integer, after a `-` where it is negative.
pub fn decimal(alloc: Global, n: i64) -> Result<Text, OutOfMemory>
    ensures { IfOk result (λ text. text ≡ signed_decimal n) }
{
    let mut buffer = Buffer::new();
    word(alloc, buffer.format(n).as_bytes())
}

// Keys and texts of the table.

ghost use Rattle.std.specs.Prelude.{◌≡◌, IfOk};
ghost use Rattle.ses_lockdown.specs.Permits.{key_of};

use crate::table::KeySort;
use js_text::text::{Text, from_units};
use js_text::value::{Key, Symbol};
use lava_base::memory::OutOfMemory;
use std::alloc::Global;

/// The units of an ASCII word.
fn units_of(alloc: Global, word: &[u8]) -> Result<Vec<u16>, OutOfMemory>
    ensures { IfOk result (λ units. units.items ≡ word.now) }
{
    let mut units = Vec::with_capacity(alloc, word.len())?;
    for unit in word {
        units.push(u16::from(*unit))?;
    }
    Ok(units)
}

/// The text of an ASCII word.
pub(crate) fn text_of(alloc: Global, word: &str) -> Result<Text, OutOfMemory>
    ensures { IfOk result (λ text. text ≡ word.now) }
{
    let units = units_of(alloc, word.as_bytes())?;
    match from_units(alloc, &units) {
        Ok(text) => Ok(text),
        Err(_) => Err(OutOfMemory),
    }
}

/// A permitted key.
pub(crate) fn key_of(alloc: Global, sort: KeySort, word: &str) -> Result<Key, OutOfMemory>
    ensures { IfOk result (λ made. made ≡ key_of sort word.now) }
{
    match sort {
        KeySort::Named => Ok(Key::Text(text_of(alloc, word)?)),
        KeySort::Iterator => Ok(Key::Symbol(Symbol::Iterator)),
    }
}

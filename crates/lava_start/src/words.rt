// Texts of ASCII words, and keys of names.

ghost use Rattle.std.specs.Prelude.{◌≡◌, IfOk};
ghost use Rattle.js_text.specs.Utf8.{units_of};
ghost use Rattle.lava_start.specs.Grants.{key_of_name};

use js_text::index::key_of_text;
use js_text::text::{Text, from_units};
use js_text::utf8::from_utf8;
use js_text::value::Key;
use lava_base::memory::OutOfMemory;
use lava_base::name::Name;
use std::alloc::Global;

/// The units of an ASCII word.
fn word_units(alloc: Global, word: &[u8]) -> Result<Vec<u16>, OutOfMemory>
    ensures { IfOk result (λ units. units.items ≡ word.now) }
{
    let mut units = Vec::with_capacity(alloc, word.len())?;
    for unit in word {
        units.push(u16::from(*unit))?;
    }
    Ok(units)
}

/// The text of an ASCII word.
pub(crate) fn word_text(alloc: Global, word: &str) -> Result<Text, OutOfMemory>
    ensures { IfOk result (λ text. text ≡ word.now) }
{
    let units = word_units(alloc, word.as_bytes())?;
    match from_units(alloc, &units) {
        Ok(text) => Ok(text),
        Err(_) => Err(OutOfMemory),
    }
}

/// The text of UTF-8. Want of memory is answered too where the bytes are not UTF-8, or are too many.
fn utf8_text(alloc: Global, bytes: &[u8]) -> Result<Text, OutOfMemory>
    ensures { IfOk result (λ text. text ≡ units_of bytes.now) }
{
    match from_utf8(alloc, bytes) {
        Ok(text) => Ok(text),
        Err(_) => Err(OutOfMemory),
    }
}

/// The key of a name.
pub(crate) fn name_key(alloc: Global, name: &Name) -> Result<Key, OutOfMemory>
    ensures { IfOk result (λ key. key ≡ key_of_name name.now) }
{
    let text = utf8_text(alloc, name.as_str().as_bytes())?;
    Ok(key_of_text(text))
}

// Names as keys, and keys as values.

ghost use Rattle.std.specs.Prelude.{◌≡◌, pos, IfOk};
ghost use Rattle.std.specs.Fmt.{signed_decimal};
ghost use Rattle.js_text.specs.declared.value.Key.TheVariants as key;
ghost use Rattle.js_operations.specs.Names.{index_key, key_of_value, key_value, proto_value};

use js_num::safe::Safe;
use js_text::copy::copy_symbol;
use js_text::index::{MAX_INDEX, key_of_text};
use js_text::text::{Text, from_units};
use js_text::value::{Key, Value};
use lava_base::ids::Ref;
use lava_base::limits::MAX_SAFE_INTEGER;
use lava_base::memory::OutOfMemory;
use std::alloc::Global;

/// A name in ASCII as a text.
pub fn ascii_text(alloc: Global, name: &str) -> Result<Text, OutOfMemory>
    ensures { IfOk result (λ text. text ≡ name.now) }
{
    let units = units_of_ascii(alloc, name.as_bytes())?;
    match from_units(alloc, &units) {
        Ok(text) => Ok(text),
        Err(_) => Err(OutOfMemory),
    }
}

/// The key with a name in ASCII, which writes no array index.
pub fn name_key(alloc: Global, name: &str) -> Result<Key, OutOfMemory>
    ensures { IfOk result (λ named. named ≡ key.Text name.now) }
{
    Ok(Key::Text(ascii_text(alloc, name)?))
}

/// The bytes as units.
fn units_of_ascii(alloc: Global, bytes: &[u8]) -> Result<Vec<u16>, OutOfMemory>
    ensures { IfOk result (λ units. units.items ≡ bytes.now) }
{
    let mut units = Vec::with_capacity(alloc, bytes.len())?;
    for byte in bytes {
        units.push(u16::from(*byte))?;
    }
    Ok(units)
}

/// A property key as a value, which is a text or a symbol.
pub fn key_value(alloc: Global, key: &Key) -> Result<Value, OutOfMemory>
    ensures { IfOk result (λ value. value ≡ key_value key.now) }
{
    match key {
        Key::Index(index) => Ok(Value::Text(number_text(alloc, *index as i64)?)),
        Key::Text(text) => Ok(Value::Text(text.copy()?)),
        Key::Symbol(symbol) => Ok(Value::Symbol(copy_symbol(symbol)?)),
    }
}

/// The property key that a value is, which is a text or a symbol.
pub fn key_of_value(value: Value) -> Option<Key>
    ensures { result ≡ key_of_value value }
{
    match value {
        Value::Text(text) => Some(key_of_text(text)),
        Value::Symbol(symbol) => Some(Key::Symbol(symbol)),
        _ => None,
    }
}

/// The property key of the number of an element. Want of memory is answered too where the number is no safe integer.
pub fn index_key(alloc: Global, at: usize) -> Result<Key, OutOfMemory>
    ensures { IfOk result (λ key. key ≡ index_key at) }
{
    if at <= MAX_INDEX as usize {
        return Ok(Key::Index(at as u32));
    }
    if at as u64 > MAX_SAFE_INTEGER {
        return Err(OutOfMemory);
    }
    Ok(Key::Text(number_text(alloc, at as i64)?))
}

/// The decimal text of a number (ECMA-262, Number::toString). Want of memory is answered too where it is no safe integer.
pub fn number_text(alloc: Global, number: i64) -> Result<Text, OutOfMemory>
    ensures { IfOk result (λ text. text ≡ signed_decimal number) }
{
    match Safe::new(number) {
        Ok(number) => text_of(alloc, number),
        Err(_) => Err(OutOfMemory),
    }
}

/// The decimal text of a number.
fn text_of(alloc: Global, number: Safe) -> Result<Text, OutOfMemory>
    ensures { IfOk result (λ text. text ≡ signed_decimal number) }
{
    let units = number.to_text(alloc)?;
    match from_units(alloc, units.as_slice()) {
        Ok(text) => Ok(text),
        Err(_) => Err(OutOfMemory),
    }
}

/// An object or null as a value.
pub fn proto_value(proto: Option<Ref>) -> Value
    ensures { result ≡ proto_value proto }
{
    match proto {
        None => Value::Null,
        Some(proto) => Value::Ref(proto),
    }
}

// Which values, and which keys, are the same.

use crate::fault::Fault;
use crate::texts::hash_of;
use crate::words::{key_of, two_of, value_of};
use js_desc::descriptor::{Change, Descriptor, PartialDescriptor};
use js_desc::validate::validate_apply;
use js_text::copy::{copy_key, copy_value};
use js_text::same::{is_same_key, is_same_value};
use js_text::value::{Key, Value};
use lava_base::memory::OutOfMemory;
use std::alloc::Global;

/// A property that may not change.
fn fixed(value: Value) -> Descriptor {
    Descriptor::Data {
        value,
        writable: false,
        enumerable: false,
        configurable: false,
    }
}

/// A definition of the value alone.
fn definition(value: Value) -> PartialDescriptor {
    PartialDescriptor {
        value: Some(value),
        writable: None,
        get: None,
        set: None,
        enumerable: None,
        configurable: None,
    }
}

/// Whether a definition leaves a property as it is, or `?` where it changes it.
fn sign_of(property: &Descriptor, definition: &PartialDescriptor) -> Result<char, OutOfMemory> {
    match validate_apply(Some(property), true, definition)? {
        None => Ok('-'),
        Some(Change::Nothing) => Ok('='),
        Some(Change::Write(_)) => Ok('?'),
    }
}

/// The sign of what a definition with one value makes of a fixed property with another, or `?` where the test of values says otherwise.
fn value_sign(property: &Descriptor, value: Value) -> Result<char, OutOfMemory> {
    let same = is_value_of(property, &value);
    let sign = sign_of(property, &definition(value))?;
    Ok(if same == (sign == '=') { sign } else { '?' })
}

/// Whether a property has a value.
fn is_value_of(property: &Descriptor, given: &Value) -> bool {
    match property {
        Descriptor::Data { value, .. } => is_same_value(value, given),
        Descriptor::Accessor { .. } => false,
    }
}

/// A value, copied.
fn value_again(alloc: Global, word: &str) -> Result<Value, Fault> {
    Ok(copy_value(&value_of(alloc, word)?)?)
}

/// `values THERE GIVEN..`: a sign for what a definition with each given value makes of a property that may not change: `=` where it stays, `-` where it is refused.
pub fn values(alloc: Global, out: &mut String, words: &str) -> Result<(), Fault> {
    let (there, given) = two_of(words)?;
    let property = fixed(value_of(alloc, there)?);
    out.push(' ')?;
    for word in given.split(' ') {
        out.push(value_sign(&property, value_again(alloc, word)?)?)?;
    }
    Ok(())
}

/// `=` where two keys are equal, as the test, the operator and the hash say, `-` where they are not, and `?` where these differ.
fn key_sign(there: &Key, given: &Key) -> char {
    match (
        is_same_key(there, given),
        *there == *given,
        hash_of(there) == hash_of(given),
    ) {
        (true, true, true) => '=',
        (false, false, false) => '-',
        _ => '?',
    }
}

/// A key, copied.
fn key_again(alloc: Global, word: &str) -> Result<Key, Fault> {
    Ok(copy_key(&key_of(alloc, word)?)?)
}

/// `keys THERE GIVEN..`: a sign for whether each given key is the one that is there.
pub fn keys(alloc: Global, out: &mut String, words: &str) -> Result<(), Fault> {
    let (there, given) = two_of(words)?;
    let there = key_of(alloc, there)?;
    out.push(' ')?;
    for word in given.split(' ') {
        out.push(key_sign(&there, &key_again(alloc, word)?))?;
    }
    Ok(())
}

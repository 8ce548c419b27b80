// What objects are asked: one of the thirteen methods, with its items.

use crate::fault::Fault;
use crate::kinds::one;
use crate::words::{key_of, reference_of, two_of, value_of};
use js_desc::ask::Ask;
use js_desc::complete::fields;
use js_desc::descriptor::Descriptor;
use js_text::value::{Key, Value};
use lava_base::ids::Ref;
use lava_base::list::List;
use std::alloc::Global;

/// An ask: its method's name, and its items.
pub fn ask_of(alloc: Global, words: &str) -> Result<Ask, Fault> {
    match words.split_once(' ') {
        None => ask_alone(words),
        Some((name, items)) => ask_with(alloc, name, items),
    }
}

/// An ask without items.
fn ask_alone(name: &str) -> Result<Ask, Fault> {
    match name {
        "GetPrototypeOf" => Ok(Ask::GetPrototypeOf),
        "IsExtensible" => Ok(Ask::IsExtensible),
        "PreventExtensions" => Ok(Ask::PreventExtensions),
        "OwnPropertyKeys" => Ok(Ask::OwnPropertyKeys),
        "Turn" => Ok(Ask::Turn),
        _ => Err(Fault::Line),
    }
}

/// An ask with items.
fn ask_with(alloc: Global, name: &str, items: &str) -> Result<Ask, Fault> {
    match name {
        "SetPrototypeOf" => set_prototype_of(items),
        "Call" => call_of(alloc, items),
        "Construct" => construct_of(alloc, items),
        _ => keyed(alloc, name, items),
    }
}

/// A SetPrototypeOf.
fn set_prototype_of(word: &str) -> Result<Ask, Fault> {
    let proto = match word {
        "null" => None,
        _ => Some(reference_of(word)?),
    };
    Ok(Ask::SetPrototypeOf { proto })
}

/// A Call with `this` and one argument.
fn call_of(alloc: Global, words: &str) -> Result<Ask, Fault> {
    let (this, argument) = two_of(words)?;
    call_on(alloc, value_of(alloc, this)?, argument)
}

/// A Call with one argument.
fn call_on(alloc: Global, this: Value, argument: &str) -> Result<Ask, Fault> {
    let args = arguments(alloc, argument)?;
    Ok(Ask::Call { this, args })
}

/// A Construct with a new target and one argument.
fn construct_of(alloc: Global, words: &str) -> Result<Ask, Fault> {
    let (target, argument) = two_of(words)?;
    construct_on(alloc, reference_of(target)?, argument)
}

/// A Construct with one argument.
fn construct_on(alloc: Global, new_target: Ref, argument: &str) -> Result<Ask, Fault> {
    let args = arguments(alloc, argument)?;
    Ok(Ask::Construct { new_target, args })
}

/// One argument.
fn arguments(alloc: Global, word: &str) -> Result<List<Value>, Fault> {
    one(alloc, value_of(alloc, word)?)
}

/// An ask of a key.
fn keyed(alloc: Global, name: &str, words: &str) -> Result<Ask, Fault> {
    let (word, items) = words.split_once(' ').unwrap_or((words, ""));
    ask_at(alloc, name, key_of(alloc, word)?, items)
}

/// An ask of a key, with what stands behind it.
fn ask_at(alloc: Global, name: &str, key: Key, items: &str) -> Result<Ask, Fault> {
    match name {
        "GetOwnProperty" => Ok(Ask::GetOwnProperty { key }),
        "HasProperty" => Ok(Ask::HasProperty { key }),
        "Delete" => Ok(Ask::Delete { key }),
        "DefineOwnProperty" => define_of(key, items),
        "Get" => get_of(alloc, key, items),
        "Set" => set_of(alloc, key, items),
        _ => Err(Fault::Line),
    }
}

/// A definition with all fields of a property with the value 1, whose attributes are all true (`V7`) or all false (`V0`).
fn define_of(key: Key, word: &str) -> Result<Ask, Fault> {
    let is_free = word == "V7";
    let property = Descriptor::Data {
        value: Value::Int(1),
        writable: is_free,
        enumerable: is_free,
        configurable: is_free,
    };
    define_as(key, &property)
}

/// A definition with all fields of a property.
fn define_as(key: Key, property: &Descriptor) -> Result<Ask, Fault> {
    let descriptor = fields(property)?;
    Ok(Ask::DefineOwnProperty { key, descriptor })
}

/// A Get with a receiver.
fn get_of(alloc: Global, key: Key, word: &str) -> Result<Ask, Fault> {
    let receiver = value_of(alloc, word)?;
    Ok(Ask::Get { key, receiver })
}

/// A Set with a value and a receiver.
fn set_of(alloc: Global, key: Key, words: &str) -> Result<Ask, Fault> {
    let (value, receiver) = two_of(words)?;
    set_to(alloc, key, value_of(alloc, value)?, receiver)
}

/// A Set with a receiver.
fn set_to(alloc: Global, key: Key, value: Value, word: &str) -> Result<Ask, Fault> {
    let receiver = value_of(alloc, word)?;
    Ok(Ask::Set {
        key,
        value,
        receiver,
    })
}

// What Get and Set do at a value that may be no object.

ghost use Rattle.std.specs.Prelude.{◌≡◌, codes, IfOk, Some, slice_get};
ghost use Rattle.js_text.specs.CommonPaths.{common_paths};
ghost use Rattle.js_store.specs.Frozen.{common_ref};
ghost use Rattle.js_ordinary.specs.Primitives.{base_of, get_from, get_v, set_at, set_v, text_property};

use crate::next::Next;
use js_desc::ask::Ask;
use js_desc::decision::Decision;
use js_desc::fault::FaultText;
use js_desc::reply::Reply;
use js_text::copy::copy_value;
use js_text::length::spells_length;
use js_text::text::Text;
use js_text::value::{Key, Value};
use lava_base::ids::{CommonId, Ref};
use lava_base::memory::OutOfMemory;
use std::alloc::Global;

/// The place of `Boolean.prototype` in the common part.
pub const BOOLEAN_PROTOTYPE: u32 = 30;

/// The place of `Number.prototype` in the common part.
pub const NUMBER_PROTOTYPE: u32 = 67;

/// The place of `String.prototype` in the common part.
pub const STRING_PROTOTYPE: u32 = 117;

/// The place of `Symbol.prototype` in the common part.
pub const SYMBOL_PROTOTYPE: u32 = 137;

/// These are the places of their paths.
#[tactic(auto, unfolding(js_text::specs::CommonPaths::common_paths))]
pub fn primitive_prototypes_have_their_places()
    ensures boolean { slice_get common_paths BOOLEAN_PROTOTYPE ≡ Some (codes "Boolean.prototype") }
    ensures number { slice_get common_paths NUMBER_PROTOTYPE ≡ Some (codes "Number.prototype") }
    ensures string { slice_get common_paths STRING_PROTOTYPE ≡ Some (codes "String.prototype") }
    ensures symbol { slice_get common_paths SYMBOL_PROTOTYPE ≡ Some (codes "Symbol.prototype") }
{}

/// The value of a property of a value: a text has its units and its length, and else what the value is, or inherits from, is asked (ECMA-262, GetV).
pub fn get_v(alloc: Global, value: Value, key: Key) -> Result<Decision<Next>, OutOfMemory>
    ensures { IfOk result (λ d. d ≡ get_v common_ref value key) }
{
    if let Value::Text(text) = &value {
        if let Some(own) = text_property(alloc, text, &key)? {
            return Ok(Decision::Done(Reply::Value(own)));
        }
    }
    let base = base_of(&value);
    Ok(get_from(key, value, base))
}

/// The value of an own property of a text (ECMA-262, "String Exotic Objects", [[GetOwnProperty]]).
fn text_property(alloc: Global, text: &Text, key: &Key) -> Result<Option<Value>, OutOfMemory>
    ensures { IfOk result (λ found. found ≡ text_property text.now key.now) }
{
    match key {
        Key::Index(at) if *at < text.len() => {
            let unit = text.slice(alloc, *at, *at + 1)?;
            Ok(Some(Value::Text(unit)))
        }
        Key::Text(name) if spells_length(name) => Ok(Some(Value::Int(text.len() as i64))),
        _ => Ok(None),
    }
}

/// The object that a value is, or inherits from; undefined and null have none (ECMA-262, ToObject).
fn base_of(value: &Value) -> Option<Ref>
    ensures { result ≡ base_of common_ref value.now }
{
    match value {
        Value::Undefined | Value::Null => None,
        Value::Bool(_) => Some(Ref::Common(CommonId(BOOLEAN_PROTOTYPE))),
        Value::Int(_) => Some(Ref::Common(CommonId(NUMBER_PROTOTYPE))),
        Value::Text(_) => Some(Ref::Common(CommonId(STRING_PROTOTYPE))),
        Value::Symbol(_) => Some(Ref::Common(CommonId(SYMBOL_PROTOTYPE))),
        Value::Ref(reference) => Some(*reference),
    }
}

/// Asks an object for a property of a value.
fn get_from(key: Key, value: Value, base: Option<Ref>) -> Decision<Next>
    ensures { result ≡ get_from key value base }
{
    match base {
        None => Decision::Fault(FaultText::CannotConvert),
        Some(base) => Decision::Ask {
            target: Some(base),
            ask: Ask::Get {
                key,
                receiver: value,
            },
            next: Next::Answer,
        },
    }
}

/// Sets a property of a value: what the value is, or inherits from, is asked (ECMA-262, PutValue, step 3).
pub fn set_v(receiver: Value, key: Key, value: Value) -> Decision<Next>
    ensures { result ≡ set_v common_ref receiver key value }
{
    let base = base_of(&receiver);
    set_at(key, value, receiver, base)
}

/// Asks an object to set a property of a value.
fn set_at(key: Key, value: Value, receiver: Value, base: Option<Ref>) -> Decision<Next>
    ensures { result ≡ set_at key value receiver base }
{
    match base {
        None => Decision::Fault(FaultText::CannotConvert),
        Some(base) => Decision::Ask {
            target: Some(base),
            ask: Ask::Set {
                key,
                value,
                receiver,
            },
            next: Next::SetResult,
        },
    }
}

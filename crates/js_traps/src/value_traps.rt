// The traps `get`, `set` and `construct`.

ghost use Rattle.std.specs.Prelude.{◌≡◌};
ghost use Rattle.lava_base.specs.Ids.{same_ref, same_made_symbol};
ghost use Rattle.js_traps.specs.ValueTraps.{constructed, is_undefined, may_be_got, may_be_set, proxy_construct, proxy_get, proxy_set, proxy_set_found, proxy_value_found, set_found, value_found, value_set};

use crate::come::{property_come, value_come};
use crate::next::Next;
use js_desc::ask::Ask;
use js_desc::decision::Decision;
use js_desc::descriptor::Descriptor;
use js_desc::fault::FaultText;
use js_desc::reply::Reply;
use js_operations::looks::to_boolean;
use js_text::same::is_same_value;
use js_text::value::{Key, Value};
use lava_base::ids::Ref;

/// Whether a value is undefined.
fn is_undefined(value: &Value) -> bool
    ensures { result ≡ is_undefined value.now }
{
    match value {
        Value::Undefined => true,
        _ => false,
    }
}

/// Goes on with what the trap `get` gave.
pub(crate) fn proxy_get(target: Ref, key: Key, reply: Reply) -> Decision<Next>
    ensures { result ≡ proxy_get target key reply }
{
    match value_come(reply) {
        Ok(value) => Decision::Ask {
            target: Some(target),
            ask: Ask::GetOwnProperty { key },
            next: Next::ValueFound { value },
        },
        Err(decision) => decision,
    }
}

/// Whether a trap may give a value for a property of the target (ECMA-262, "Proxy Object Internal Methods and Internal Slots", [[Get]]).
fn may_be_got(value: &Value, there: &Option<Descriptor>) -> bool
    ensures { result ≡ may_be_got same_ref same_made_symbol value.now there.now }
{
    match there {
        None => true,
        Some(
            Descriptor::Data {
                value: fixed,
                writable,
                configurable,
                ..
            },
        ) => *configurable || *writable || is_same_value(value, fixed),
        Some(
            Descriptor::Accessor {
                get,
                configurable,
                ..
            },
        ) => *configurable || get.is_some() || is_undefined(value),
    }
}

/// Gives the value that the trap gave, where it may.
fn value_found(value: Value, there: &Option<Descriptor>) -> Decision<Next>
    ensures { result ≡ value_found same_ref same_made_symbol value there.now }
{
    if may_be_got(&value, there) {
        Decision::Done(Reply::Value(value))
    } else {
        Decision::Fault(FaultText::ProxyInvariant)
    }
}

/// Goes on with the property of the target, of which the trap gave a value.
pub(crate) fn proxy_value_found(value: Value, reply: Reply) -> Decision<Next>
    ensures { result ≡ proxy_value_found same_ref same_made_symbol value reply }
{
    match property_come(reply) {
        Ok(there) => value_found(value, &there),
        Err(decision) => decision,
    }
}

/// The trap `set` said that a property is set, or that it is not.
fn value_set(target: Ref, key: Key, value: Value, set: bool) -> Decision<Next>
    ensures { result ≡ value_set target key value set }
{
    if set {
        Decision::Ask {
            target: Some(target),
            ask: Ask::GetOwnProperty { key },
            next: Next::SetFound { value },
        }
    } else {
        Decision::Done(Reply::Flag(false))
    }
}

/// Goes on with what the trap `set` gave.
pub(crate) fn proxy_set(target: Ref, key: Key, value: Value, reply: Reply) -> Decision<Next>
    ensures { result ≡ proxy_set target key value reply }
{
    match value_come(reply) {
        Ok(told) => value_set(target, key, value, to_boolean(&told)),
        Err(decision) => decision,
    }
}

/// Whether a trap may say that a property of the target was set to a value (ECMA-262, "Proxy Object Internal Methods and Internal Slots", [[Set]]).
fn may_be_set(value: &Value, there: &Option<Descriptor>) -> bool
    ensures { result ≡ may_be_set same_ref same_made_symbol value.now there.now }
{
    match there {
        None => true,
        Some(
            Descriptor::Data {
                value: fixed,
                writable,
                configurable,
                ..
            },
        ) => *configurable || *writable || is_same_value(value, fixed),
        Some(
            Descriptor::Accessor {
                set,
                configurable,
                ..
            },
        ) => *configurable || set.is_some(),
    }
}

/// Says that the property is set, where the trap may say so.
fn set_found(value: &Value, there: &Option<Descriptor>) -> Decision<Next>
    ensures { result ≡ set_found same_ref same_made_symbol value.now there.now }
{
    if may_be_set(value, there) {
        Decision::Done(Reply::Flag(true))
    } else {
        Decision::Fault(FaultText::ProxyInvariant)
    }
}

/// Goes on with the property of the target, which the trap said to be set.
pub(crate) fn proxy_set_found(value: Value, reply: Reply) -> Decision<Next>
    ensures { result ≡ proxy_set_found same_ref same_made_symbol value reply }
{
    match property_come(reply) {
        Ok(there) => set_found(&value, &there),
        Err(decision) => decision,
    }
}

/// What the trap `construct` gave has to be an object.
fn constructed(value: &Value) -> Decision<Next>
    ensures { result ≡ constructed value.now }
{
    match value {
        Value::Ref(made) => Decision::Done(Reply::Value(Value::Ref(*made))),
        _ => Decision::Fault(FaultText::ProxyInvariant),
    }
}

/// Goes on with what the trap `construct` gave.
pub(crate) fn proxy_construct(reply: Reply) -> Decision<Next>
    ensures { result ≡ proxy_construct reply }
{
    match value_come(reply) {
        Ok(value) => constructed(&value),
        Err(decision) => decision,
    }
}

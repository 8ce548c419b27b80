// What a value that is no object decides of an ask.

ghost use Rattle.std.specs.Prelude.{◌≡◌, IfOk};
ghost use Rattle.lava_base.specs.declared.ids.Ref.{Ref};
ghost use Rattle.js_text.specs.Naming.{naming_of};
ghost use Rattle.js_text.specs.declared.value.Value.TheVariants as text_value;
ghost use Rattle.js_ordinary.specs.Primitives.{base_of};
ghost use Rattle.js_machine.specs.js_run.Decisions.{deletes, primitive_decided, primitive_set};
ghost use Rattle.js_store.specs.Frozen.{common_ref};

use js_desc::ask::Ask;
use js_desc::decision::Decision;
use js_desc::fault::FaultText;
use js_desc::reply::Reply;
use js_machine::machine::Machine;
use js_ordinary::next::Next;
use js_ordinary::primitives::{
    BOOLEAN_PROTOTYPE, NUMBER_PROTOTYPE, STRING_PROTOTYPE, SYMBOL_PROTOTYPE, get_v,
};
use js_store::store::Store;
use js_text::copy::{copy_key, copy_value};
use js_text::length::spells_length;
use js_text::text::Text;
use js_text::value::{Key, Value};
use lava_base::ids::{CommonId, Ref};
use lava_base::memory::OutOfMemory;

/// What a value inherits from; undefined and null inherit from nothing (ECMA-262, ToObject).
fn base_of(value: &Value) -> Option<Ref>
    ensures { result ≡ base_of common_ref value.now }
{
    match value {
        Value::Undefined | Value::Null => None,
        Value::Bool(_) => Some(Ref::Common(CommonId(BOOLEAN_PROTOTYPE))),
        Value::Int(_) => Some(Ref::Common(CommonId(NUMBER_PROTOTYPE))),
        Value::Text(_) => Some(Ref::Common(CommonId(STRING_PROTOTYPE))),
        Value::Symbol(_) => Some(Ref::Common(CommonId(SYMBOL_PROTOTYPE))),
        Value::Ref(reference) => Some(*reference),
    }
}

/// The prototype is asked, with the value as the receiver (ECMA-262, PutValue, step 3.d).
fn primitive_set(key: Key, value: Value, receiver: Value, base: Option<Ref>) -> Decision<Next>
    ensures { result ≡ primitive_set key value receiver base }
{
    match base {
        None => Decision::Fault(FaultText::CannotConvert),
        Some(base) => Decision::Ask {
            target: Some(base),
            ask: Ask::Set {
                key,
                value,
                receiver,
            },
            next: Next::Answer,
        },
    }
}

/// Whether a key names nothing that a text has itself.
fn deletes_of_text(text: &Text, key: &Key) -> bool
    ensures { result ≡ deletes {R = Ref} (text_value.Text text.now) key.now }
{
    match key {
        Key::Index(at) => *at >= text.len(),
        Key::Text(name) => !spells_length(name),
        Key::Symbol(_) => true,
    }
}

/// Whether a property of a value is deleted: what a text has itself is not (ECMA-262, "String Exotic Objects", [[Delete]]).
fn deletes(value: &Value, key: &Key) -> bool
    ensures { result ≡ deletes value.now key.now }
{
    match value {
        Value::Text(text) => deletes_of_text(text, key),
        _ => true,
    }
}

/// A property of a value is set.
fn decided_set(
    key: &Key,
    value: &Value,
    receiver: &Value,
    base: Option<Ref>,
) -> Result<Decision<Next>, OutOfMemory>
    ensures { IfOk result (λ d. d ≡ primitive_set key.now value.now receiver.now base) }
{
    let key = copy_key(key)?;
    let value = copy_value(value)?;
    let receiver = copy_value(receiver)?;
    Ok(primitive_set(key, value, receiver, base))
}

/// What a value that is no object decides of the ask of the machine: of a Get, a Set and a Delete. It is asked for nothing else (ECMA-262, ToObject).
pub fn primitive_decided<S: Store>(machine: &Machine<S>) -> Result<Decision<Next>, OutOfMemory>
    ensures { let names = naming_of machine.now.me in
        IfOk result (λ d. d ≡ primitive_decided names machine.now.asked.target
        machine.now.asked.ask) }
{
    let target = &machine.asked.target;
    match &machine.asked.ask {
        Ask::Get { key, .. } => get_v(machine.alloc, copy_value(target)?, copy_key(key)?),
        Ask::Set {
            key,
            value,
            receiver,
        } => decided_set(key, value, receiver, base_of(target)),
        Ask::Delete { key } => Ok(Decision::Done(Reply::Flag(deletes(target, key)))),
        _ => Ok(Decision::Fault(FaultText::CannotConvert)),
    }
}

// What is done to a store, and what it answers.

ghost use Rattle.std.specs.Prelude.{◌<◌, length};

use crate::fault::Fault;
use crate::shown::{push_key, push_number, push_reference, push_truth, push_word};
use crate::words::{key_of, number_of, reference_of, two_of};
use js_desc::descriptor::{Change, Descriptor};
use js_store::slot::Slot;
use js_store::store::{PLAIN_MARKS, Store};
use js_text::value::{Key, Value};
use lava_base::ids::{CommonId, ObjId, PartyId, Ref};
use lava_base::list::List;
use lava_base::marks::{Class, Marks};
use std::alloc::Global;

/// The marks of a function that can construct.
pub const FUNCTION: Marks = Marks {
    class: Class::Function,
    callable: true,
    constructor: true,
};

/// `store STEP; STEP; ..`: what the steps answer that are done to a new store of party 7.
pub fn steps<S: Store + Drop>(alloc: Global, out: &mut String, words: &str) -> Result<(), Fault> {
    let mut store = S::empty(alloc, PartyId(7));
    for step in words.split("; ") {
        push_step(alloc, out, &mut store, step)?;
    }
    Ok(())
}

/// Does a step, and appends what it answers.
fn push_step<S: Store>(
    alloc: Global,
    out: &mut String,
    store: &mut S,
    step: &str,
) -> Result<(), Fault> {
    match step {
        "party" => push_number(out, i64::from(store.party().0)),
        "count" => push_number(out, i64::from(store.count())),
        "make" => make(out, store, None, PLAIN_MARKS),
        "make function" => make(out, store, Some(Ref::Common(CommonId(3))), FUNCTION),
        _ => push_step_at(alloc, out, store, step),
    }
}

/// Makes an object, and appends its id.
fn make<S: Store>(
    out: &mut String,
    store: &mut S,
    proto: Option<Ref>,
    marks: Marks,
) -> Result<(), Fault> {
    let id = store.make(proto, marks, Slot::Plain)?;
    push_number(out, i64::from(id.0))
}

/// Does a step to the object whose id stands first.
fn push_step_at<S: Store>(
    alloc: Global,
    out: &mut String,
    store: &mut S,
    step: &str,
) -> Result<(), Fault> {
    let (id, step) = two_of(step)?;
    let id = ObjId(number_of(id)?);
    if id.0 >= store.count() {
        return Err(Fault::Line);
    }
    match step.split_once(' ') {
        None => push_of(alloc, out, store, id, step),
        Some((name, word)) => change(alloc, out, store, id, name, word),
    }
}

/// Does a step of one word.
fn push_of<S: Store>(
    alloc: Global,
    out: &mut String,
    store: &mut S,
    id: ObjId,
    name: &str,
) -> Result<(), Fault>
    requires { id.0 < length (S.objects store.old) }
{
    match name {
        "marks" => push_marks(out, store.marks(id)),
        "proto" => push_proto(out, store.proto(id)),
        "extensible" => push_truth(out, store.extensible(id)),
        "slot" => push_word(out, slot_name(store.slot(id))),
        "keys" => push_keys(alloc, out, &store.keys(alloc, id)?),
        "prevent" => {
            store.prevent(id);
            Ok(())
        }
        _ => Err(Fault::Line),
    }
}

/// Does a step with something behind its name.
fn change<S: Store>(
    alloc: Global,
    out: &mut String,
    store: &mut S,
    id: ObjId,
    name: &str,
    word: &str,
) -> Result<(), Fault>
    requires { id.0 < length (S.objects store.old) }
{
    match name {
        "set_proto" => {
            store.set_proto(id, Some(reference_of(word)?));
            Ok(())
        }
        "swap" => push_word(out, slot_name(&swap(store, id, reference_of(word)?))),
        "write" => write(alloc, store, id, word),
        _ => at_key(out, store, id, name, key_of(alloc, word)?),
    }
}

/// Puts a compartment's slot in place, and gives the old one.
fn swap<S: Store>(store: &mut S, id: ObjId, global: Ref) -> Slot
    requires { id.0 < length (S.objects store.old) }
{
    store.swap_slot(id, Slot::Chamber { global })
}

/// Writes a property with a number.
fn write<S: Store>(alloc: Global, store: &mut S, id: ObjId, words: &str) -> Result<(), Fault>
    requires { id.0 < length (S.objects store.old) }
{
    let (key, number) = two_of(words)?;
    let number = number_of(number)?;
    Ok(store.apply(id, key_of(alloc, key)?, Change::Write(property(number)))?)
}

/// A property with a number, which may change.
fn property(number: u32) -> Descriptor {
    Descriptor::Data {
        value: Value::Int(i64::from(number)),
        writable: true,
        enumerable: true,
        configurable: true,
    }
}

/// Does a step to the property of a key.
fn at_key<S: Store>(
    out: &mut String,
    store: &mut S,
    id: ObjId,
    name: &str,
    key: Key,
) -> Result<(), Fault>
    requires { id.0 < length (S.objects store.old) }
{
    match name {
        "own" => push_value(out, store.own(id, &key)),
        "keep" => Ok(store.apply(id, key, Change::Nothing)?),
        "remove" => {
            store.remove(id, &key);
            Ok(())
        }
        _ => Err(Fault::Line),
    }
}

/// Appends the number of a property.
pub fn push_value(out: &mut String, property: Option<&Descriptor>) -> Result<(), Fault> {
    match property {
        Some(
            Descriptor::Data {
                value: Value::Int(number),
                ..
            },
        ) => push_number(out, *number),
        Some(_) => push_word(out, "other"),
        None => push_word(out, "none"),
    }
}

/// Appends marks.
pub fn push_marks(out: &mut String, marks: Marks) -> Result<(), Fault> {
    let Marks {
        class,
        callable,
        constructor,
    } = marks;
    write!(out, " {class:?}")?;
    push_truth(out, callable)?;
    push_truth(out, constructor)
}

/// Appends a prototype.
pub fn push_proto(out: &mut String, proto: Option<Ref>) -> Result<(), Fault> {
    match proto {
        Some(reference) => push_reference(out, reference),
        None => push_word(out, "null"),
    }
}

/// Appends keys.
pub fn push_keys(alloc: Global, out: &mut String, keys: &List<Key>) -> Result<(), Fault> {
    for key in keys.as_slice() {
        push_key(alloc, out, key)?;
    }
    Ok(())
}

/// The name of what a slot is.
pub fn slot_name(slot: &Slot) -> &'static str {
    match slot {
        Slot::Plain => "plain",
        Slot::Chamber { .. } => "chamber",
        _ => "other",
    }
}

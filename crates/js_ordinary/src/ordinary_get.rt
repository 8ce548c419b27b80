// The value of a property, own or inherited.

ghost use Rattle.std.specs.Prelude.{◌≡◌, IfOk};
ghost use Rattle.js_text.specs.Naming.{naming_of};
ghost use Rattle.js_ordinary.specs.OrdinaryGet.{get_by, get_by_getter, get_inherited, ordinary_get};
ghost use Rattle.js_ordinary.specs.Targets.{IsSeen, object_seen};

use crate::next::Next;
use crate::target::{Target, own_property, prototype};
use js_desc::ask::Ask;
use js_desc::decision::Decision;
use js_desc::descriptor::Descriptor;
use js_desc::reply::Reply;
use js_store::frozen::FrozenStore;
use js_store::store::Store;
use js_text::copy::{copy_key, copy_value};
use js_text::value::{Key, Value};
use lava_base::ids::Ref;
use lava_base::list::List;
use lava_base::memory::OutOfMemory;
use std::alloc::Global;

/// The value of a property of an object, for a receiver (ECMA-262, OrdinaryGet).
pub(crate) fn ordinary_get<S: Store>(
    alloc: Global,
    store: &S,
    common: &FrozenStore,
    target: Target,
    key: &Key,
    receiver: &Value,
) -> Result<Decision<Next>, OutOfMemory>
    requires { IsSeen (S.objects store.now) common.now target }
    ensures { let names = naming_of (S.owner store.now).0 in
        let o = object_seen (S.objects store.now) common.now target in
        IfOk result (λ d. d ≡ ordinary_get names o key.now receiver.now) }
{
    match own_property(store, common, target, key) {
        Some(property) => get_by(alloc, receiver, property),
        None => get_inherited(key, receiver, prototype(store, common, target)),
    }
}

/// The value that a property has (ECMA-262, OrdinaryGet, steps 3 to 7).
fn get_by(
    alloc: Global,
    receiver: &Value,
    property: &Descriptor,
) -> Result<Decision<Next>, OutOfMemory>
    ensures { IfOk result (λ d. d ≡ get_by receiver.now property.now) }
{
    match property {
        Descriptor::Data { value, .. } => {
            let value = copy_value(value)?;
            Ok(Decision::Done(Reply::Value(value)))
        }
        Descriptor::Accessor { get, .. } => get_by_getter(alloc, receiver, *get),
    }
}

/// The value that a getter gives to a receiver: undefined where there is none (ECMA-262, OrdinaryGet, steps 5 to 7).
fn get_by_getter(
    alloc: Global,
    receiver: &Value,
    getter: Option<Ref>,
) -> Result<Decision<Next>, OutOfMemory>
    ensures { IfOk result (λ d. d ≡ get_by_getter receiver.now getter) }
{
    match getter {
        None => Ok(Decision::Done(Reply::Value(Value::Undefined))),
        Some(getter) => {
            let this = copy_value(receiver)?;
            Ok(Decision::Ask {
                target: Some(getter),
                ask: Ask::Call {
                    this,
                    args: List::new(alloc),
                },
                next: Next::Answer,
            })
        }
    }
}

/// The value that an object inherits: its prototype is asked with the same receiver, if there is one (ECMA-262, OrdinaryGet, step 2).
fn get_inherited(
    key: &Key,
    receiver: &Value,
    prototype: Option<Ref>,
) -> Result<Decision<Next>, OutOfMemory>
    ensures { IfOk result (λ d. d ≡ get_inherited key.now receiver.now prototype) }
{
    match prototype {
        None => Ok(Decision::Done(Reply::Value(Value::Undefined))),
        Some(prototype) => {
            let key = copy_key(key)?;
            let receiver = copy_value(receiver)?;
            Ok(Decision::Ask {
                target: Some(prototype),
                ask: Ask::Get { key, receiver },
                next: Next::Answer,
            })
        }
    }
}

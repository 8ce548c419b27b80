// How a property is set: on the object that was asked, on what inherits from it, or by a setter.

ghost use Rattle.std.specs.Prelude.{◌≡◌, IfOk, option_map};
ghost use Rattle.js_text.specs.Naming.{naming_of};
ghost use Rattle.js_ordinary.specs.OrdinarySet.{after_receiver, after_setter, create_data_property, open_data, ordinary_set, set_by_setter, set_data, set_inherited, set_on, set_on_receiver, value_alone};
ghost use Rattle.js_ordinary.specs.Targets.{IsSeen, object_seen};

use crate::next::Next;
use crate::target::{Target, own_property, prototype};
use js_desc::ask::Ask;
use js_desc::decision::Decision;
use js_desc::descriptor::{Descriptor, PartialDescriptor};
use js_desc::fault::FaultText;
use js_desc::reply::Reply;
use js_store::frozen::FrozenStore;
use js_store::store::Store;
use js_text::copy::{copy_key, copy_value};
use js_text::value::{Key, Value};
use lava_base::ids::Ref;
use lava_base::list::List;
use lava_base::memory::OutOfMemory;
use std::alloc::Global;

/// Sets a property of a receiver, where the object that is asked decides how (ECMA-262, OrdinarySet).
pub(crate) fn ordinary_set<S: Store>(
    alloc: Global,
    store: &S,
    common: &FrozenStore,
    target: Target,
    key: &Key,
    value: &Value,
    receiver: &Value,
) -> Result<Decision<Next>, OutOfMemory>
    requires { IsSeen (S.objects store.now) common.now target }
    ensures { let names = naming_of (S.owner store.now).0 in
        let o = object_seen (S.objects store.now) common.now target in
        IfOk result (λ d. d ≡ ordinary_set names o key.now value.now receiver.now) }
{
    match own_property(store, common, target, key) {
        None => set_inherited(key, value, receiver, prototype(store, common, target)),
        Some(Descriptor::Data { writable, .. }) => set_data(key, value, receiver, *writable),
        Some(Descriptor::Accessor { set, .. }) => set_by_setter(alloc, value, receiver, *set),
    }
}

/// Sets a property that the object has not: its prototype is asked with the same receiver, if there is one (ECMA-262, OrdinarySetWithOwnDescriptor, step 1).
fn set_inherited(
    key: &Key,
    value: &Value,
    receiver: &Value,
    prototype: Option<Ref>,
) -> Result<Decision<Next>, OutOfMemory>
    ensures { IfOk result (λ d. d ≡ set_inherited key.now value.now receiver.now prototype) }
{
    match prototype {
        None => set_data(key, value, receiver, true),
        Some(prototype) => {
            let key = copy_key(key)?;
            let value = copy_value(value)?;
            let receiver = copy_value(receiver)?;
            Ok(Decision::Ask {
                target: Some(prototype),
                ask: Ask::Set {
                    key,
                    value,
                    receiver,
                },
                next: Next::Answer,
            })
        }
    }
}

/// Sets a data property on the receiver, if it is writable (ECMA-262, OrdinarySetWithOwnDescriptor, step 2).
fn set_data(
    key: &Key,
    value: &Value,
    receiver: &Value,
    writable: bool,
) -> Result<Decision<Next>, OutOfMemory>
    ensures { IfOk result (λ d. d ≡ set_data key.now value.now receiver.now writable) }
{
    if writable {
        set_on(key, value, receiver)
    } else {
        Ok(Decision::Done(Reply::Flag(false)))
    }
}

/// Sets a property on the receiver, if it is an object: it is asked for its own property first (ECMA-262, OrdinarySetWithOwnDescriptor, steps 2.b and 2.c).
fn set_on(key: &Key, value: &Value, receiver: &Value) -> Result<Decision<Next>, OutOfMemory>
    ensures { IfOk result (λ d. d ≡ set_on key.now value.now receiver.now) }
{
    match receiver {
        Value::Ref(receiver) => {
            let asked = copy_key(key)?;
            let kept = copy_key(key)?;
            let value = copy_value(value)?;
            Ok(Decision::Ask {
                target: Some(*receiver),
                ask: Ask::GetOwnProperty { key: asked },
                next: Next::Receiver {
                    key: kept,
                    value,
                    receiver: *receiver,
                },
            })
        }
        _ => Ok(Decision::Done(Reply::Flag(false))),
    }
}

/// Sets a property by its setter, if there is one (ECMA-262, OrdinarySetWithOwnDescriptor, steps 3 to 7).
fn set_by_setter(
    alloc: Global,
    value: &Value,
    receiver: &Value,
    setter: Option<Ref>,
) -> Result<Decision<Next>, OutOfMemory>
    ensures { IfOk result (λ d. d ≡ set_by_setter value.now receiver.now setter) }
{
    match setter {
        None => Ok(Decision::Done(Reply::Flag(false))),
        Some(setter) => {
            let mut args = List::new(alloc);
            args.push(copy_value(value)?)?;
            let this = copy_value(receiver)?;
            Ok(Decision::Ask {
                target: Some(setter),
                ask: Ask::Call { this, args },
                next: Next::Setter,
            })
        }
    }
}

/// Goes on once the setter was called: the property is set (ECMA-262, OrdinarySetWithOwnDescriptor, step 7).
pub(crate) fn after_setter(reply: Reply) -> Decision<Next>
    ensures { result ≡ after_setter reply }
{
    match reply {
        Reply::Value(_) => Decision::Done(Reply::Flag(true)),
        Reply::Throw(value) => Decision::Done(Reply::Throw(value)),
        _ => Decision::Fault(FaultText::WrongKind),
    }
}

/// Goes on once the receiver has told its own property (ECMA-262, OrdinarySetWithOwnDescriptor, steps 2.c to 2.e).
pub(crate) fn after_receiver(key: Key, value: Value, receiver: Ref, reply: Reply) -> Decision<Next>
    ensures { result ≡ after_receiver key value receiver reply }
{
    match reply {
        Reply::Desc(own) => set_on_receiver(key, value, receiver, &own),
        Reply::Throw(thrown) => Decision::Done(Reply::Throw(thrown)),
        _ => Decision::Fault(FaultText::WrongKind),
    }
}

/// What is asked of the receiver, by its own property (ECMA-262, OrdinarySetWithOwnDescriptor, steps 2.d and 2.e).
fn set_on_receiver(
    key: Key,
    value: Value,
    receiver: Ref,
    own: &Option<Descriptor>,
) -> Decision<Next>
    ensures { result ≡ set_on_receiver key value receiver own.now }
{
    match own {
        None => create_data_property(key, value, receiver),
        Some(Descriptor::Data { writable: true, .. }) => Decision::Ask {
            target: Some(receiver),
            ask: Ask::DefineOwnProperty {
                key,
                descriptor: value_alone(value),
            },
            next: Next::Answer,
        },
        Some(_) => Decision::Done(Reply::Flag(false)),
    }
}

/// Makes a data property with all attributes true (ECMA-262, CreateDataProperty).
pub(crate) fn create_data_property(key: Key, value: Value, receiver: Ref) -> Decision<Next>
    ensures { result ≡ create_data_property key value receiver }
{
    Decision::Ask {
        target: Some(receiver),
        ask: Ask::DefineOwnProperty {
            key,
            descriptor: open_data(value),
        },
        next: Next::Answer,
    }
}

/// A definition that gives a value and nothing else.
fn value_alone(value: Value) -> PartialDescriptor
    ensures { result ≡ value_alone value }
{
    PartialDescriptor {
        value: Some(value),
        writable: None,
        get: None,
        set: None,
        enumerable: None,
        configurable: None,
    }
}

/// A definition of a data property with this value and all attributes true.
pub(crate) fn open_data(value: Value) -> PartialDescriptor
    ensures { result ≡ open_data value }
{
    PartialDescriptor {
        value: Some(value),
        writable: Some(true),
        get: None,
        set: None,
        enumerable: Some(true),
        configurable: Some(true),
    }
}

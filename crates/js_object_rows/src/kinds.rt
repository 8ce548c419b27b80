// The objects that are asked: one of each kind.

use crate::fault::Fault;
use crate::stores::FUNCTION;
use crate::words::key_of;
use crate::world::PARTY;
use js_desc::decision::BodyId;
use js_store::flat::FlatStore;
use js_store::slot::{Held, Live, Slot};
use js_store::store::{PLAIN_MARKS, Store};
use js_text::value::Value;
use lava_base::ids::{ObjId, Ref};
use lava_base::list::List;
use lava_base::marks::{Class, Marks};
use std::alloc::Global;

/// The party's first object: the global of a live accessor, and the prototype of a repair setter.
const FIRST: Ref = Ref::Own {
    party: PARTY,
    id: ObjId(0),
};

/// Makes an object of a kind, without a prototype.
pub fn make(alloc: Global, store: &mut FlatStore, kind: &str) -> Result<(), Fault> {
    make_with(store, marks_of(kind), slot_of(alloc, kind)?)
}

/// Makes an object with a slot.
fn make_with(store: &mut FlatStore, marks: Marks, slot: Slot) -> Result<(), Fault> {
    store.make(None, marks, slot)?;
    Ok(())
}

/// The marks of a kind. Closures alone are constructors.
fn marks_of(kind: &str) -> Marks {
    match kind {
        "plain" => PLAIN_MARKS,
        "closure" => FUNCTION,
        _ => Marks {
            class: Class::Function,
            callable: true,
            constructor: false,
        },
    }
}

/// What an object of a kind keeps.
fn slot_of(alloc: Global, kind: &str) -> Result<Slot, Fault> {
    match kind {
        "plain" => Ok(Slot::Plain),
        "closure" => Ok(closure()),
        _ => Ok(Slot::Held(held_of(alloc, kind)?)),
    }
}

/// A function of a source.
fn closure() -> Slot {
    Slot::Closure {
        body: BodyId {
            template: 3,
            scope: 4,
        },
        home: None,
        lexical: None,
    }
}

/// A list of one value.
pub fn one(alloc: Global, value: Value) -> Result<List<Value>, Fault> {
    let mut values = List::new(alloc);
    values.push(value)?;
    Ok(values)
}

/// A function of the machine: a `require`; one that reads or writes the global `g` of the first object, or its member `m`; one that gives 9 for a property of a locked prototype, or sets `x` over that of the first object.
fn held_of(alloc: Global, kind: &str) -> Result<Held, Fault> {
    match kind {
        "require" => Ok(Held::Require { module: 0 }),
        "getter" => Ok(Held::LiveGetter(global(alloc)?)),
        "setter" => Ok(Held::LiveSetter(global(alloc)?)),
        "member_getter" => Ok(Held::LiveGetter(member(alloc)?)),
        "member_setter" => Ok(Held::LiveSetter(member(alloc)?)),
        "repair_getter" => Ok(Held::RepairGetter {
            value: Value::Int(9),
        }),
        "repair" => repair_setter(alloc),
        _ => Err(Fault::Line),
    }
}

/// The global `g`.
fn global(alloc: Global) -> Result<Live, Fault> {
    let name = key_of(alloc, "'g")?;
    Ok(Live {
        global: FIRST,
        name,
        member: None,
    })
}

/// Its member `m`.
fn member(alloc: Global) -> Result<Live, Fault> {
    let name = key_of(alloc, "'g")?;
    let member = key_of(alloc, "'m")?;
    Ok(Live {
        global: FIRST,
        name,
        member: Some(member),
    })
}

/// A setter of `x`.
fn repair_setter(alloc: Global) -> Result<Held, Fault> {
    let key = key_of(alloc, "'x")?;
    Ok(Held::RepairSetter {
        prototype: FIRST,
        key,
    })
}

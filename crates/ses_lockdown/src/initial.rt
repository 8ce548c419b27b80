// The common objects before lockdown.

ghost use Rattle.std.specs.Prelude.{◌≡◌, ◌<◌, ◌++◌, ◌∷◌, [], length, IfOk, OnOk};
ghost use Rattle.std.specs.Option.{option_map};
ghost use Rattle.js_store.specs.Frozen.{common_ref};
ghost use Rattle.js_store.specs.Objects.{at_place};
ghost use Rattle.ses_lockdown.specs.Permits.{permits, row_of};
ghost use Rattle.ses_lockdown.specs.Lockdown.{more, one_more};
ghost use Rattle.ses_lockdown.specs.Intrinsics.{holding, initial_property, own_length, marks_of, initial_at, initial_object, initial_objects};

use crate::making::{common, define, is_for};
use crate::rows::{name_at, permit, place, role};
use crate::table::{COUNT, Kind, PERMIT_COUNT, Permit, Role, Stands};
use crate::words::text_of;
use js_desc::descriptor::Descriptor;
use js_store::flat::FlatStore;
use js_store::slot::Slot;
use js_store::store::{PLAIN_MARKS, Store};
use js_text::value::{Symbol, Value};
use lava_base::ids::{ObjId, PartyId, Ref};
use lava_base::marks::{Class, Marks};
use lava_base::memory::OutOfMemory;
use std::alloc::Global;

/// A property that holds a value.
pub(crate) fn holding(value: Value) -> Descriptor
    ensures { result ≡ holding value }
{
    Descriptor::Data {
        value,
        writable: true,
        enumerable: false,
        configurable: true,
    }
}

/// How many parameters a function has before it has its body.
fn own_length(role: Role) -> i64
    ensures { result ≡ own_length role }
{
    match role {
        Role::Setter(_) => 1,
        _ => 0,
    }
}

/// What stands at the key of a permit, of the object of a place.
fn initial_property(alloc: Global, place: u32, stands: Stands) -> Result<Descriptor, OutOfMemory>
    ensures { IfOk result (λ d. d ≡ initial_property place stands) }
{
    match stands {
        Stands::OwnName => Ok(holding(Value::Text(text_of(alloc, name_at(place))?))),
        Stands::OwnLength => Ok(holding(Value::Int(own_length(role(place))))),
        Stands::Object(at) => Ok(holding(Value::Ref(common(at)))),
        Stands::Tamed(at) => Ok(holding(Value::Ref(common(at)))),
        Stands::NameOf(at) => Ok(holding(Value::Text(text_of(alloc, name_at(at))?))),
        Stands::Empty => Ok(holding(Value::Text(text_of(alloc, "")?))),
        Stands::Integer(integer) => Ok(holding(Value::Int(integer))),
        Stands::IteratorSymbol => Ok(holding(Value::Symbol(Symbol::Iterator))),
        Stands::Read(at) => Ok(Descriptor::Accessor {
            get: Some(common(at)),
            set: None,
            enumerable: false,
            configurable: true,
        }),
    }
}

/// The marks of an object of a kind.
fn marks_of(kind: Kind) -> Marks
    ensures { result ≡ marks_of kind }
{
    match kind {
        Kind::Ordinary => PLAIN_MARKS,
        Kind::Function => Marks {
            class: Class::Function,
            callable: true,
            constructor: false,
        },
        Kind::Constructor => Marks {
            class: Class::Function,
            callable: true,
            constructor: true,
        },
    }
}

/// Defines the property of a permit on the object of a place.
fn put_property(
    alloc: Global,
    place: u32,
    callable: bool,
    row: Permit,
    objects: &mut FlatStore,
    made: ObjId,
) -> Result<(), OutOfMemory>
    requires { made.0 < length objects.old.objects }
    ensures { let step = one_more (initial_at place) place callable (row_of row.entry) in
        OnOk result (objects.new.objects ≡ at_place objects.old.objects made.0 step) }
{
    if !is_for(row.0, place, callable) {
        return Ok(());
    }
    let property = initial_property(alloc, place, row.3)?;
    define(alloc, objects, made, row, Some(property))
}

/// Defines the properties of the permits on the object of a place.
fn put_properties(
    alloc: Global,
    place: u32,
    callable: bool,
    objects: &mut FlatStore,
    made: ObjId,
) -> Result<(), OutOfMemory>
    requires { made.0 < length objects.old.objects }
    ensures { let all = more (initial_at place) place callable permits in
        OnOk result (objects.new.objects ≡ at_place objects.old.objects made.0 all) }
{
    for at in 0..PERMIT_COUNT {
        put_property(alloc, place, callable, permit(at), objects, made)?;
    }
    Ok(())
}

/// The reference to the prototype of a place, if there is one.
fn parent(at: Option<u32>) -> Option<Ref>
    ensures { result ≡ option_map common_ref at }
{
    match at {
        None => None,
        Some(at) => Some(common(at)),
    }
}

/// Makes the common object of a place at the end of a store.
fn put_object(alloc: Global, at: u32, objects: &mut FlatStore) -> Result<(), OutOfMemory>
    ensures { let made = initial_object at in
        OnOk result (objects.new.objects ≡ objects.old.objects ++ made ∷ []) }
{
    let (kind, prototype, _) = place(at);
    let marks = marks_of(kind);
    let made = objects.make(parent(prototype), marks, Slot::Plain)?;
    put_properties(alloc, at, marks.callable, objects, made)?;
    Ok(())
}

/// Makes all common objects, each at its place.
pub(crate) fn put_objects(alloc: Global) -> Result<FlatStore, OutOfMemory>
    ensures { IfOk result (λ store. store.objects ≡ initial_objects) }
{
    let mut objects = FlatStore::empty(alloc, PartyId(0));
    for at in 0..COUNT {
        put_object(alloc, at, &mut objects)?;
    }
    Ok(objects)
}

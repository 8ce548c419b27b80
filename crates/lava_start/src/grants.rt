// What a package is given by its row: its objects before anything has happened.

ghost use Rattle.std.specs.Prelude.{◌≡◌, ◌<◌, ◌++◌, ◌∷◌, [], length, IfOk, OnOk};
ghost use Rattle.js_store.specs.Objects.{at_place};
ghost use Rattle.js_text.specs.Naming.{naming_of};
ghost use Rattle.lava_start.specs.Grants.{builtin_grant_objects, builtin_grant_value, builtin_objects, builtin_value, global_supply, grant_objects, grant_property, granted_global, open_reference, package_builtin, package_objects, part_member, part_object, supplied_objects, with_all_properties, with_part_members, with_supplies, with_supply};

use crate::accessors::{put_live, put_live_part};
use crate::global::bare_store;
use crate::objects::{host, own, put_object};
use crate::words::name_key;
use js_desc::descriptor::{Change, Descriptor};
use js_desc::start::Grant;
use js_store::flat::FlatStore;
use js_store::store::{PLAIN_MARKS, Store};
use js_text::value::Value;
use js_world::js_run::intrinsics::OBJECT_PROTOTYPE;
use lava_base::ids::{ObjId, PartyId, Ref};
use lava_base::list::List;
use lava_base::memory::OutOfMemory;
use lava_base::name::Name;
use std::alloc::Global;

/// The objects of a package, and what its `require` of a part of the host gives.
#[derive(Drop)]
pub struct Endowed {
    pub objects: FlatStore,
    pub builtin: Option<Value>,
}

/// An object as a property that may be written, listed and configured.
fn open_reference(reference: Ref) -> Descriptor
    ensures { result ≡ open_reference reference }
{
    Descriptor::Data {
        value: Value::Ref(reference),
        writable: true,
        enumerable: true,
        configurable: true,
    }
}

/// Gives an object a member of an object of the host.
fn put_part_member(
    alloc: Global,
    objects: &mut FlatStore,
    at: ObjId,
    name: &Name,
    number: u32,
) -> Result<(), OutOfMemory>
    requires { at.0 < length objects.old.objects }
    ensures objects { let step = with_all_properties (part_member (name.now, number) ∷ []) in
        OnOk result (objects.new.objects ≡ at_place objects.old.objects at.0 step) }
    ensures party { objects.new.party ≡ objects.old.party }
{
    let key = name_key(alloc, name)?;
    let property = Descriptor::Data {
        value: Value::Ref(host(number)),
        writable: false,
        enumerable: true,
        configurable: false,
    };
    objects.apply(at, key, Change::Write(property))
}

/// Gives an object members of an object of the host.
fn put_part_members(
    alloc: Global,
    objects: &mut FlatStore,
    at: ObjId,
    mut members: &[(Name, u32)],
) -> Result<(), OutOfMemory>
    requires { at.0 < length objects.old.objects }
    ensures objects { let after = with_part_members at.0 members.entry.now objects.old.objects in
        OnOk result (objects.new.objects ≡ after) }
    ensures party { objects.new.party ≡ objects.old.party }
{
    while let [first, rest @ ..] = members {
        put_part_member(alloc, objects, at, &first.0, first.1)?;
        members = rest;
    }
    Ok(())
}

/// Makes a frozen object that has members of an object of the host.
fn put_part(
    alloc: Global,
    objects: &mut FlatStore,
    members: &[(Name, u32)],
) -> Result<ObjId, OutOfMemory>
    ensures id { IfOk result (λ id. id.0 ≡ length objects.old.objects) }
    ensures objects { let made = part_object members.now in
        OnOk result (objects.new.objects ≡ objects.old.objects ++ made ∷ []) }
    ensures party { objects.new.party ≡ objects.old.party }
{
    let at = put_object(objects, OBJECT_PROTOTYPE, PLAIN_MARKS)?;
    put_part_members(alloc, objects, at, members)?;
    objects.prevent(at);
    Ok(at)
}

/// Makes a frozen object that has members of an object of the host, and gives it.
fn put_part_given(
    alloc: Global,
    objects: &mut FlatStore,
    members: &[(Name, u32)],
) -> Result<Ref, OutOfMemory>
    ensures reference { let next = length objects.old.objects in
        let made = (naming_of objects.old.party.0).own next in
        IfOk result (λ reference. reference ≡ made) }
    ensures objects { let made = part_object members.now in
        OnOk result (objects.new.objects ≡ objects.old.objects ++ made ∷ []) }
    ensures party { objects.new.party ≡ objects.old.party }
{
    let at = put_part(alloc, objects, members)?;
    Ok(own(objects, at))
}

/// Makes what a grant of a global makes, and gives its property.
fn put_grant(
    alloc: Global,
    objects: &mut FlatStore,
    name: &Name,
    grant: &Grant,
) -> Result<Descriptor, OutOfMemory>
    ensures objects { let next = length objects.old.objects in
        let made = grant_objects objects.old.party.0 next name.now grant.now in
        OnOk result (objects.new.objects ≡ objects.old.objects ++ made) }
    ensures property { let next = length objects.old.objects in
        let made = grant_property objects.old.party.0 next grant.now in
        IfOk result (λ property. property ≡ made) }
    ensures party { objects.new.party ≡ objects.old.party }
{
    match grant {
        Grant::Whole(number) => Ok(open_reference(host(*number))),
        Grant::Part(members) => {
            let made = put_part_given(alloc, objects, members.as_slice())?;
            Ok(open_reference(made))
        }
        Grant::Live { write } => put_live(alloc, objects, name, *write),
        Grant::LivePart(members) => {
            let at = put_live_part(alloc, objects, name, members.as_slice())?;
            Ok(open_reference(own(objects, at)))
        }
    }
}

/// Gives the global what a grant grants.
fn put_granted(
    alloc: Global,
    objects: &mut FlatStore,
    at: ObjId,
    name: &Name,
    grant: &Grant,
) -> Result<(), OutOfMemory>
    requires { at.0 < length objects.old.objects }
    ensures objects { let supply = global_supply objects.old.party.0 in
        let after = with_supply supply at.0 (name.now, grant.now) objects.old.objects in
        OnOk result (objects.new.objects ≡ after) }
    ensures party { objects.new.party ≡ objects.old.party }
{
    let property = put_grant(alloc, objects, name, grant)?;
    let key = name_key(alloc, name)?;
    objects.apply(at, key, Change::Write(property))
}

/// Gives the global what grants grant, in their order.
fn put_globals(
    alloc: Global,
    objects: &mut FlatStore,
    at: ObjId,
    mut globals: &[(Name, Grant)],
) -> Result<(), OutOfMemory>
    requires { at.0 < length objects.old.objects }
    ensures objects { let supply = global_supply objects.old.party.0 in
        let after = with_supplies supply at.0 globals.entry.now objects.old.objects in
        OnOk result (objects.new.objects ≡ after) }
    ensures party { objects.new.party ≡ objects.old.party }
{
    while let [first, rest @ ..] = globals {
        put_granted(alloc, objects, at, &first.0, &first.1)?;
        globals = rest;
    }
    Ok(())
}

/// Makes what a grant of a part of the host makes, and gives what `require` gives.
fn put_builtin_grant(
    alloc: Global,
    objects: &mut FlatStore,
    grant: &Grant,
) -> Result<Option<Value>, OutOfMemory>
    ensures objects { let made = builtin_grant_objects grant.now in
        OnOk result (objects.new.objects ≡ objects.old.objects ++ made) }
    ensures value { let next = length objects.old.objects in
        let given = builtin_grant_value objects.old.party.0 next grant.now in
        IfOk result (λ value. value ≡ given) }
    ensures party { objects.new.party ≡ objects.old.party }
{
    match grant {
        Grant::Whole(number) => Ok(Some(Value::Ref(host(*number)))),
        Grant::Part(members) => {
            let made = put_part_given(alloc, objects, members.as_slice())?;
            Ok(Some(Value::Ref(made)))
        }
        Grant::Live { .. } => Ok(None),
        Grant::LivePart(_) => Ok(None),
    }
}

/// Makes what `require` of a part of the host wants, and gives what it gives.
fn put_builtin(
    alloc: Global,
    objects: &mut FlatStore,
    builtins: &[(Name, Grant)],
) -> Result<Option<Value>, OutOfMemory>
    ensures objects { let made = builtin_objects builtins.now in
        OnOk result (objects.new.objects ≡ objects.old.objects ++ made) }
    ensures value { let next = length objects.old.objects in
        let given = builtin_value objects.old.party.0 next builtins.now in
        IfOk result (λ value. value ≡ given) }
    ensures party { objects.new.party ≡ objects.old.party }
{
    match builtins {
        [first, ..] => put_builtin_grant(alloc, objects, &first.1),
        [] => Ok(None),
    }
}

/// The global of a package, and what is made for it.
fn global_store(
    alloc: Global,
    party: PartyId,
    globals: &[(Name, Grant)],
) -> Result<FlatStore, OutOfMemory>
    ensures objects { let made = supplied_objects (global_supply party.0) 1 globals.now in
        let all = granted_global party.0 globals.now ∷ made in
        IfOk result (λ s. s.objects ≡ all) }
    ensures party { IfOk result (λ s. s.party ≡ party) }
{
    let mut objects = bare_store(alloc, party)?;
    put_globals(alloc, &mut objects, ObjId(0), globals)?;
    Ok(objects)
}

/// The objects of a package before anything has happened, by what its row grants: its global, what its globals make, and what its `require` of a part of the host gives.
///
/// A name that is not UTF-8, or too long for a text, is answered as want of memory.
pub fn package_store(
    alloc: Global,
    party: PartyId,
    globals: &List<(Name, Grant)>,
    builtins: &List<(Name, Grant)>,
) -> Result<Endowed, OutOfMemory>
    ensures objects { let all = package_objects party.0 globals.now builtins.now in
        IfOk result (λ e. e.objects.objects ≡ all) }
    ensures party { IfOk result (λ e. e.objects.party ≡ party) }
    ensures builtin { let given = package_builtin party.0 globals.now builtins.now in
        IfOk result (λ e. e.builtin ≡ given) }
{
    let mut objects = global_store(alloc, party, globals.as_slice())?;
    let builtin = put_builtin(alloc, &mut objects, builtins.as_slice())?;
    Ok(Endowed { objects, builtin })
}

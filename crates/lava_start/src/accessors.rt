// Live accessors: functions that read and write globals of the application's own package.

ghost use Rattle.std.specs.Prelude.{◌≡◌, ◌<◌, ◌++◌, ◌∷◌, [], None, true, false, length, IfOk, OnOk};
ghost use Rattle.js_text.specs.Naming.{naming_of};
ghost use Rattle.js_desc.specs.declared.descriptor.Descriptor.TheVariants as descriptor;
ghost use Rattle.lava_start.specs.Grants.{live_accessor, live_function, live_functions, live_part_objects, member_supply, target_of, with_supplies, with_supply};

use crate::host::FUNCTION_MARKS;
use crate::objects::{common, own, put_object, put_property};
use crate::words::{name_key, word_text};
use js_desc::descriptor::{Change, Descriptor};
use js_store::flat::FlatStore;
use js_store::slot::{Held, Live, Slot};
use js_store::store::{PLAIN_MARKS, Store};
use js_text::copy::copy_key;
use js_text::value::{Key, Value};
use js_world::js_run::intrinsics::{FUNCTION_PROTOTYPE, OBJECT_PROTOTYPE};
use lava_base::ids::{ObjId, PartyId, Ref};
use lava_base::memory::OutOfMemory;
use lava_base::name::Name;
use std::alloc::Global;

/// A property of a function, which may be configured alone.
fn function_data(value: Value) -> Descriptor
    ensures { result ≡ descriptor.Data value false false true }
{
    Descriptor::Data {
        value,
        writable: false,
        enumerable: false,
        configurable: true,
    }
}

/// A global of the application's own package, or a member of it.
fn target_of(alloc: Global, name: &Name, member: Option<Key>) -> Result<Live, OutOfMemory>
    ensures { IfOk result (λ target. target ≡ target_of name.now member) }
{
    Ok(Live {
        global: Ref::Own {
            party: PartyId(1),
            id: ObjId(0),
        },
        name: name_key(alloc, name)?,
        member,
    })
}

/// The key of a member once more.
fn copy_member(member: &Option<Key>) -> Result<Option<Key>, OutOfMemory>
    ensures { IfOk result (λ copy. copy ≡ member.now) }
{
    match member {
        Some(key) => Ok(Some(copy_key(key)?)),
        None => Ok(None),
    }
}

/// The same global once more.
fn copy_target(target: &Live) -> Result<Live, OutOfMemory>
    ensures { IfOk result (λ copy. copy ≡ target.now) }
{
    Ok(Live {
        global: target.global,
        name: copy_key(&target.name)?,
        member: copy_member(&target.member)?,
    })
}

/// Makes a live getter or setter.
fn put_function(alloc: Global, objects: &mut FlatStore, kept: Held) -> Result<ObjId, OutOfMemory>
    ensures id { IfOk result (λ id. id.0 ≡ length objects.old.objects) }
    ensures objects { let made = live_function kept in
        OnOk result (objects.new.objects ≡ objects.old.objects ++ made ∷ []) }
    ensures party { objects.new.party ≡ objects.old.party }
{
    let kept = Slot::Held(kept);
    let at = objects.make(Some(common(FUNCTION_PROTOTYPE)), FUNCTION_MARKS, kept)?;
    put_property(alloc, objects, at, "length", function_data(Value::Int(0)))?;
    let name = Value::Text(word_text(alloc, "")?);
    put_property(alloc, objects, at, "name", function_data(name))?;
    Ok(at)
}

/// Makes a live getter or setter, and gives it.
fn put_half(alloc: Global, objects: &mut FlatStore, kept: Held) -> Result<Ref, OutOfMemory>
    ensures reference { let next = length objects.old.objects in
        let made = (naming_of objects.old.party.0).own next in
        IfOk result (λ reference. reference ≡ made) }
    ensures objects { let made = live_function kept in
        OnOk result (objects.new.objects ≡ objects.old.objects ++ made ∷ []) }
    ensures party { objects.new.party ≡ objects.old.party }
{
    let at = put_function(alloc, objects, kept)?;
    Ok(own(objects, at))
}

/// Makes a live getter, and gives the accessor that has it alone.
fn put_getter(
    alloc: Global,
    objects: &mut FlatStore,
    target: Live,
    configurable: bool,
) -> Result<Descriptor, OutOfMemory>
    ensures objects { let made = live_functions target false in
        OnOk result (objects.new.objects ≡ objects.old.objects ++ made) }
    ensures property { let next = length objects.old.objects in
        let made = live_accessor objects.old.party.0 next false configurable in
        IfOk result (λ property. property ≡ made) }
    ensures party { objects.new.party ≡ objects.old.party }
{
    let get = put_half(alloc, objects, Held::LiveGetter(target))?;
    Ok(Descriptor::Accessor {
        get: Some(get),
        set: None,
        enumerable: true,
        configurable,
    })
}

/// Makes a live getter and a live setter, and gives the accessor that has both.
fn put_both(
    alloc: Global,
    objects: &mut FlatStore,
    target: Live,
    configurable: bool,
) -> Result<Descriptor, OutOfMemory>
    ensures objects { let made = live_functions target true in
        OnOk result (objects.new.objects ≡ objects.old.objects ++ made) }
    ensures property { let next = length objects.old.objects in
        let made = live_accessor objects.old.party.0 next true configurable in
        IfOk result (λ property. property ≡ made) }
    ensures party { objects.new.party ≡ objects.old.party }
{
    let getter = Held::LiveGetter(copy_target(&target)?);
    let get = put_half(alloc, objects, getter)?;
    let set = put_half(alloc, objects, Held::LiveSetter(target))?;
    Ok(Descriptor::Accessor {
        get: Some(get),
        set: Some(set),
        enumerable: true,
        configurable,
    })
}

/// Makes a live accessor's functions, and gives the accessor.
fn put_accessor(
    alloc: Global,
    objects: &mut FlatStore,
    target: Live,
    write: bool,
    configurable: bool,
) -> Result<Descriptor, OutOfMemory>
    ensures objects { let made = live_functions target write in
        OnOk result (objects.new.objects ≡ objects.old.objects ++ made) }
    ensures property { let next = length objects.old.objects in
        let made = live_accessor objects.old.party.0 next write configurable in
        IfOk result (λ property. property ≡ made) }
    ensures party { objects.new.party ≡ objects.old.party }
{
    if write {
        put_both(alloc, objects, target, configurable)
    } else {
        put_getter(alloc, objects, target, configurable)
    }
}

/// Makes the functions of a live global, and gives its accessor.
pub(crate) fn put_live(
    alloc: Global,
    objects: &mut FlatStore,
    name: &Name,
    write: bool,
) -> Result<Descriptor, OutOfMemory>
    ensures objects { let made = live_functions (target_of name.now None) write in
        OnOk result (objects.new.objects ≡ objects.old.objects ++ made) }
    ensures property { let next = length objects.old.objects in
        let made = live_accessor objects.old.party.0 next write true in
        IfOk result (λ property. property ≡ made) }
    ensures party { objects.new.party ≡ objects.old.party }
{
    let target = target_of(alloc, name, None)?;
    put_accessor(alloc, objects, target, write, true)
}

/// Makes the functions of a member of a live global, and gives its accessor.
fn put_member(
    alloc: Global,
    objects: &mut FlatStore,
    name: &Name,
    member: &Name,
    write: bool,
) -> Result<Descriptor, OutOfMemory>
    ensures objects { let made = (member_supply objects.old.party.0 name.now).objects in
        let more = made (length objects.old.objects) (member.now, write) in
        OnOk result (objects.new.objects ≡ objects.old.objects ++ more) }
    ensures property { let next = length objects.old.objects in
        let made = live_accessor objects.old.party.0 next write false in
        IfOk result (λ property. property ≡ made) }
    ensures party { objects.new.party ≡ objects.old.party }
{
    let key = name_key(alloc, member)?;
    let target = target_of(alloc, name, Some(key))?;
    put_accessor(alloc, objects, target, write, false)
}

/// Gives an object a member of a live global.
fn put_live_member(
    alloc: Global,
    objects: &mut FlatStore,
    at: ObjId,
    name: &Name,
    member: &Name,
    write: bool,
) -> Result<(), OutOfMemory>
    requires { at.0 < length objects.old.objects }
    ensures objects { let supply = member_supply objects.old.party.0 name.now in
        let after = with_supply supply at.0 (member.now, write) objects.old.objects in
        OnOk result (objects.new.objects ≡ after) }
    ensures party { objects.new.party ≡ objects.old.party }
{
    let property = put_member(alloc, objects, name, member, write)?;
    let key = name_key(alloc, member)?;
    objects.apply(at, key, Change::Write(property))
}

/// Gives an object members of a live global.
fn put_live_members(
    alloc: Global,
    objects: &mut FlatStore,
    at: ObjId,
    name: &Name,
    mut members: &[(Name, bool)],
) -> Result<(), OutOfMemory>
    requires { at.0 < length objects.old.objects }
    ensures objects { let supply = member_supply objects.old.party.0 name.now in
        let after = with_supplies supply at.0 members.entry.now objects.old.objects in
        OnOk result (objects.new.objects ≡ after) }
    ensures party { objects.new.party ≡ objects.old.party }
{
    while let [first, rest @ ..] = members {
        put_live_member(alloc, objects, at, name, &first.0, first.1)?;
        members = rest;
    }
    Ok(())
}

/// Makes a frozen object that has members of a live global.
pub(crate) fn put_live_part(
    alloc: Global,
    objects: &mut FlatStore,
    name: &Name,
    members: &[(Name, bool)],
) -> Result<ObjId, OutOfMemory>
    ensures id { IfOk result (λ id. id.0 ≡ length objects.old.objects) }
    ensures objects { let next = length objects.old.objects in
        let made = live_part_objects objects.old.party.0 next name.now members.now in
        OnOk result (objects.new.objects ≡ objects.old.objects ++ made) }
    ensures party { objects.new.party ≡ objects.old.party }
{
    let at = put_object(objects, OBJECT_PROTOTYPE, PLAIN_MARKS)?;
    put_live_members(alloc, objects, at, name, members)?;
    objects.prevent(at);
    Ok(at)
}

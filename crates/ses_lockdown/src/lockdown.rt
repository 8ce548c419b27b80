// Lockdown: the common objects with the properties of the permits alone, so that nothing of them can be changed.

ghost use Rattle.std.specs.Prelude.{◌≡◌, ◌≤◌, ◌<◌, ◌++◌, ◌∷◌, [], length, map, IfOk, OnOk};
ghost use Rattle.std.specs.Option.{option_map};
ghost use Rattle.lava_base.specs.Ids.{same_made_symbol};
ghost use Rattle.js_store.specs.Frozen.{as_read, common_part, common_ref};
ghost use Rattle.js_store.specs.Objects.{object_at, at_place, ordinary_get_own_property};
ghost use Rattle.js_store.specs.declared.slot.Slot.TheVariants as slot;
ghost use Rattle.ses_lockdown.specs.Entries.{HasTableMarks, StandsInOrder};
ghost use Rattle.ses_lockdown.specs.Intrinsics.{copied};
ghost use Rattle.ses_lockdown.specs.Laws.{StandsLocked};
ghost use Rattle.ses_lockdown.specs.Permits.{row_of, permits, count, is_common, is_common_if_any, is_shared_symbol, is_common_value, is_common_property, is_shared_key, is_for};
ghost use Rattle.ses_lockdown.specs.Repairs.{Repairs};
ghost use Rattle.ses_lockdown.specs.Lockdown.{tamed, repaired, fixed, common_only, locked_at, holder_place, property_of, kept_value, kept_of, kept_place, kept_by, held_or, role_at, common_slot, common_prototype, one_more, more, locked_object, locked};

use crate::intrinsics::{Intrinsics, Unlocked};
use crate::laws::{lockdown_once, lockdown_orders, lockdown_repairs};
use crate::locked_property::{
    is_common, is_common_if_any, is_common_value, is_shared_key, locked_at, own_at, tamed,
};
use crate::making::{common, define, is_for};
use crate::rows::{permit, role};
use crate::table::{COUNT, Holder, PERMIT_COUNT, Permit, Role};
use crate::words::key_of;
use js_desc::copy::copy_descriptor;
use js_desc::descriptor::Descriptor;
use js_store::flat::FlatStore;
use js_store::frozen::FrozenStore;
use js_store::slot::{Held, Slot};
use js_store::store::Store;
use js_text::copy::{copy_key, copy_value};
use lava_base::ids::{ObjId, PartyId, Ref};
use lava_base::memory::OutOfMemory;
use std::alloc::Global;

// THE SLOT

/// The place of the object that a permit is for.
fn holder_place(holder: Holder) -> u32
    ensures { result ≡ holder_place holder }
{
    match holder {
        Holder::EachFunction => 0,
        Holder::At(place) => place,
    }
}

/// What a getter keeps of its property.
fn kept_value(property: Descriptor) -> Option<Held>
    ensures { result ≡ kept_value property }
{
    match property {
        Descriptor::Data { value, .. } => Some(Held::RepairGetter { value }),
        Descriptor::Accessor { .. } => None,
    }
}

/// What the getter of a permit's property keeps.
fn kept_by_getter(
    alloc: Global,
    objects: &FlatStore,
    row: Permit,
) -> Result<Option<Held>, OutOfMemory>
    ensures { let r = row_of row.entry in
        IfOk result (λ h. h ≡ kept_of r.stands (property_of objects.now.objects r)) }
{
    let (holder, sort, word, stands, _) = row;
    let key = key_of(alloc, sort, word)?;
    match own_at(objects, holder_place(holder), &key) {
        None => Ok(None),
        Some(property) => Ok(kept_value(tamed(stands, copy_descriptor(property)?))),
    }
}

/// What the setter of a permit's property keeps.
fn kept_by_setter(
    alloc: Global,
    objects: &FlatStore,
    row: Permit,
) -> Result<Option<Held>, OutOfMemory>
    ensures { let r = row_of row.entry in
        IfOk result (λ h. h ≡ kept_place r (property_of objects.now.objects r)) }
{
    let (holder, sort, word, _, _) = row;
    let place = holder_place(holder);
    let key = key_of(alloc, sort, word)?;
    match own_at(objects, place, &key) {
        None => Ok(None),
        Some(Descriptor::Data { .. }) => Ok(Some(Held::RepairSetter {
            prototype: common(place),
            key,
        })),
        Some(Descriptor::Accessor { .. }) => Ok(None),
    }
}

/// What the function of a role keeps, if lockdown makes it.
fn kept_by(alloc: Global, objects: &FlatStore, role: Role) -> Result<Option<Held>, OutOfMemory>
    ensures { IfOk result (λ h. h ≡ kept_by objects.now.objects role) }
{
    match role {
        Role::Given => Ok(None),
        Role::Getter(at) => kept_by_getter(alloc, objects, permit(at)),
        Role::Setter(at) => kept_by_setter(alloc, objects, permit(at)),
    }
}

/// What lockdown's functions keep, once more, if it names common objects alone.
fn copy_held(held: &Held) -> Result<Slot, OutOfMemory>
    ensures { IfOk result (λ copy. copy ≡ common_slot (slot.Held held.now)) }
{
    match held {
        Held::RepairGetter { value } => {
            if !is_common_value(value) {
                return Ok(Slot::Plain);
            }
            let value = copy_value(value)?;
            Ok(Slot::Held(Held::RepairGetter { value }))
        }
        Held::RepairSetter { prototype, key } => {
            if !(is_common(*prototype) && is_shared_key(key)) {
                return Ok(Slot::Plain);
            }
            let key = copy_key(key)?;
            Ok(Slot::Held(Held::RepairSetter {
                prototype: *prototype,
                key,
            }))
        }
        _ => Ok(Slot::Plain),
    }
}

/// The slot once more, if it names common objects alone.
pub(crate) fn copy_slot(slot: &Slot) -> Result<Slot, OutOfMemory>
    ensures { IfOk result (λ copy. copy ≡ common_slot slot.now) }
{
    match slot {
        Slot::Closure {
            body,
            home: None,
            lexical: None,
        } => Ok(Slot::Closure {
            body: *body,
            home: None,
            lexical: None,
        }),
        Slot::Held(held) => copy_held(held),
        _ => Ok(Slot::Plain),
    }
}

/// What the common object of a place keeps, once it is locked.
fn locked_slot(alloc: Global, objects: &FlatStore, place: u32) -> Result<Slot, OutOfMemory>
    requires { place < length objects.now.objects }
    ensures { let old = (object_at objects.now.objects place).slot in
        IfOk result (λ slot. slot ≡ held_or (kept_by objects.now.objects (role_at place)) old) }
{
    match kept_by(alloc, objects, role(place))? {
        None => copy_slot(objects.slot(ObjId(place))),
        Some(held) => copy_held(&held),
    }
}

// AN OBJECT

/// The prototype, if it is a common object.
fn common_prototype(prototype: Option<Ref>) -> Option<Ref>
    ensures { result ≡ common_prototype prototype }
{
    if is_common_if_any(prototype) {
        prototype
    } else {
        None
    }
}

/// Defines the property of a permit on a locked object, if there is one.
fn lock_property(
    alloc: Global,
    objects: &FlatStore,
    place: u32,
    row: Permit,
    locked: &mut FlatStore,
    made: ObjId,
) -> Result<(), OutOfMemory>
    requires place { place < length objects.now.objects }
    requires made { made.0 < length locked.old.objects }
    ensures { let o = object_at objects.now.objects place in
        let step = one_more (λ r. locked_at r o) place o.marks.callable (row_of row.entry) in
        OnOk result (locked.new.objects ≡ at_place locked.old.objects made.0 step) }
{
    if !is_for(row.0, place, objects.marks(ObjId(place)).callable) {
        return Ok(());
    }
    let property = locked_at(alloc, objects, place, row)?;
    define(alloc, locked, made, row, property)
}

/// Defines the properties of the permits on a locked object.
fn lock_properties(
    alloc: Global,
    objects: &FlatStore,
    place: u32,
    locked: &mut FlatStore,
    made: ObjId,
) -> Result<(), OutOfMemory>
    requires place { place < length objects.now.objects }
    requires made { made.0 < length locked.old.objects }
    ensures { let o = object_at objects.now.objects place in
        let all = more (λ r. locked_at r o) place o.marks.callable permits in
        OnOk result (locked.new.objects ≡ at_place locked.old.objects made.0 all) }
{
    for at in 0..PERMIT_COUNT {
        lock_property(alloc, objects, place, permit(at), locked, made)?;
    }
    Ok(())
}

/// Makes the common object of a place, locked, at the end of a store.
fn lock_object(
    alloc: Global,
    objects: &FlatStore,
    place: u32,
    locked: &mut FlatStore,
) -> Result<(), OutOfMemory>
    requires { place < length objects.now.objects }
    ensures { let made = locked_object objects.now.objects place in
        OnOk result (locked.new.objects ≡ locked.old.objects ++ made ∷ []) }
{
    let id = ObjId(place);
    let slot = locked_slot(alloc, objects, place)?;
    let prototype = common_prototype(objects.proto(id));
    let made = locked.make(prototype, objects.marks(id), slot)?;
    lock_properties(alloc, objects, place, locked, made)?;
    locked.prevent(made);
    Ok(())
}

/// Makes all common objects, locked.
fn lock_objects(alloc: Global, objects: &FlatStore) -> Result<FlatStore, OutOfMemory>
    requires { count ≤ length objects.now.objects }
    ensures { IfOk result (λ store. store.objects ≡ locked objects.now.objects) }
{
    let mut locked = FlatStore::empty(alloc, PartyId(0));
    for place in 0..COUNT {
        lock_object(alloc, objects, place, &mut locked)?;
    }
    Ok(locked)
}

/// The common objects, locked (SES, lockdown).
fn locked_objects(alloc: Global, objects: &FlatStore) -> Result<FrozenStore, OutOfMemory>
    requires { count ≤ length objects.now.objects }
    ensures list { let after = locked objects.now.objects in
        IfOk result (λ store. store ≡ common_part after) }
    ensures exact { let after = locked objects.now.objects in
        IfOk result (λ store. map (as_read common_ref) store ≡ after) }
{
    Ok(FrozenStore::freeze(lock_objects(alloc, objects)?))
}

/// Locks the common objects.
fn lock_unlocked(alloc: Global, objects: &Unlocked) -> Result<FrozenStore, OutOfMemory>
    ensures list { IfOk result (λ store. store ≡ common_part (locked objects.now)) }
    ensures exact { IfOk result
        (λ store. map (as_read common_ref) store ≡ locked objects.now) }
    ensures stands { IfOk result
        (λ store. StandsLocked objects.now (map (as_read common_ref) store)) }
    ensures order { HasTableMarks objects.now → IfOk result
        (λ store. StandsInOrder objects.now (map (as_read common_ref) store)) }
    ensures repairs { HasTableMarks objects.now → IfOk result
        (λ store. Repairs objects.now (map (as_read common_ref) store)) }
    ensures again { HasTableMarks objects.now → IfOk result
        (λ store. common_part (locked (copied store)) ≡ store) }
{
    lockdown_orders();
    lockdown_repairs();
    lockdown_once();
    Ok(locked_objects(alloc, objects.store())?)
}

/// Locks the intrinsics: the common objects with the properties of the permits alone, none of which can be changed (SES, lockdown). Nothing stays of the functions of other paths.
/// Where the marks are those of the table, as they are of all that `new` and `add` give, the intrinsics of the list are locked to the list again.
pub fn lockdown(alloc: Global, intrinsics: Intrinsics) -> Result<FrozenStore, OutOfMemory>
    ensures list { IfOk result (λ store. store ≡ common_part (locked intrinsics.objects)) }
    ensures exact { IfOk result
        (λ store. map (as_read common_ref) store ≡ locked intrinsics.objects) }
    ensures stands { IfOk result
        (λ store. StandsLocked intrinsics.objects (map (as_read common_ref) store)) }
    ensures order { HasTableMarks intrinsics.objects → IfOk result
        (λ store. StandsInOrder intrinsics.objects (map (as_read common_ref) store)) }
    ensures repairs { HasTableMarks intrinsics.objects → IfOk result
        (λ store. Repairs intrinsics.objects (map (as_read common_ref) store)) }
    ensures again { HasTableMarks intrinsics.objects → IfOk result
        (λ store. common_part (locked (copied store)) ≡ store) }
{
    lock_unlocked(alloc, &intrinsics.objects)
}

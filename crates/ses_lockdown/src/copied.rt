// The common objects of a locked list once more.

ghost use Rattle.std.specs.Prelude.{◌≡◌, ◌≤◌, ◌<◌, ◌++◌, ◌∷◌, [], length, IfOk, OnOk};
ghost use Rattle.js_store.specs.Frozen.{common_at};
ghost use Rattle.js_store.specs.Objects.{at_place};
ghost use Rattle.ses_lockdown.specs.Permits.{count, permits, row_of};
ghost use Rattle.ses_lockdown.specs.Lockdown.{more, one_more, own_at};
ghost use Rattle.ses_lockdown.specs.Intrinsics.{copied, copied_object};

use crate::lockdown::copy_slot;
use crate::making::{define, is_for};
use crate::rows::permit;
use crate::table::{COUNT, PERMIT_COUNT, Permit};
use crate::words::key_of;
use js_desc::copy::copy_descriptor;
use js_desc::descriptor::Descriptor;
use js_store::flat::FlatStore;
use js_store::frozen::FrozenStore;
use js_store::store::Store;
use lava_base::ids::{CommonId, ObjId, PartyId};
use lava_base::memory::OutOfMemory;
use std::alloc::Global;

/// The property of a permit at a common object, once more.
fn copied_at(
    alloc: Global,
    common: &FrozenStore,
    place: u32,
    row: Permit,
) -> Result<Option<Descriptor>, OutOfMemory>
    requires { place < length common.now }
    ensures { let o = common_at common.now place in
        IfOk result (λ d. d ≡ own_at (row_of row.entry) o) }
{
    let key = key_of(alloc, row.1, row.2)?;
    match common.own(CommonId(place), &key) {
        None => Ok(None),
        Some(property) => Ok(Some(copy_descriptor(property)?)),
    }
}

/// Defines the property of a permit as a common object has it.
fn copy_property(
    alloc: Global,
    common: &FrozenStore,
    place: u32,
    row: Permit,
    objects: &mut FlatStore,
    made: ObjId,
) -> Result<(), OutOfMemory>
    requires place { place < length common.now }
    requires made { made.0 < length objects.old.objects }
    ensures { let o = common_at common.now place in
        let step = one_more (λ r. own_at r o) place o.marks.callable (row_of row.entry) in
        OnOk result (objects.new.objects ≡ at_place objects.old.objects made.0 step) }
{
    if !is_for(row.0, place, common.marks(CommonId(place)).callable) {
        return Ok(());
    }
    let property = copied_at(alloc, common, place, row)?;
    define(alloc, objects, made, row, property)
}

/// Defines the properties of the permits as a common object has them.
fn copy_properties(
    alloc: Global,
    common: &FrozenStore,
    place: u32,
    objects: &mut FlatStore,
    made: ObjId,
) -> Result<(), OutOfMemory>
    requires place { place < length common.now }
    requires made { made.0 < length objects.old.objects }
    ensures { let o = common_at common.now place in
        let all = more (λ r. own_at r o) place o.marks.callable permits in
        OnOk result (objects.new.objects ≡ at_place objects.old.objects made.0 all) }
{
    for at in 0..PERMIT_COUNT {
        copy_property(alloc, common, place, permit(at), objects, made)?;
    }
    Ok(())
}

/// Makes a common object once more, at the end of a store.
fn copy_object(
    alloc: Global,
    common: &FrozenStore,
    place: u32,
    objects: &mut FlatStore,
) -> Result<(), OutOfMemory>
    requires { place < length common.now }
    ensures { let made = copied_object common.now place in
        OnOk result (objects.new.objects ≡ objects.old.objects ++ made ∷ []) }
{
    let id = CommonId(place);
    let slot = copy_slot(common.slot(id))?;
    let made = objects.make(common.proto(id), common.marks(id), slot)?;
    copy_properties(alloc, common, place, objects, made)?;
    objects.prevent(made);
    Ok(())
}

/// Makes the common objects of a locked list once more.
pub(crate) fn copy_objects(alloc: Global, common: &FrozenStore) -> Result<FlatStore, OutOfMemory>
    requires { count ≤ length common.now }
    ensures { IfOk result (λ store. store.objects ≡ copied common.now) }
{
    let mut objects = FlatStore::empty(alloc, PartyId(0));
    for place in 0..COUNT {
        copy_object(alloc, common, place, &mut objects)?;
    }
    Ok(objects)
}

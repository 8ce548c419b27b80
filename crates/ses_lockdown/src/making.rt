// Objects that are being made.

ghost use Rattle.std.specs.Prelude.{◌≡◌, ◌<◌, length, OnOk};
ghost use Rattle.js_store.specs.Frozen.{common_ref};
ghost use Rattle.js_store.specs.Objects.{at_place};
ghost use Rattle.ses_lockdown.specs.Permits.{row_of, is_for};
ghost use Rattle.ses_lockdown.specs.Lockdown.{with_defined};

use crate::table::{Holder, Permit};
use crate::words::key_of;
use js_desc::descriptor::{Change, Descriptor};
use js_store::flat::FlatStore;
use js_store::store::Store;
use lava_base::ids::{CommonId, ObjId, Ref};
use lava_base::memory::OutOfMemory;
use std::alloc::Global;

/// The common object of a place.
pub(crate) fn common(place: u32) -> Ref
    ensures { result ≡ common_ref place }
{
    Ref::Common(CommonId(place))
}

/// Whether a permit is for the object of a place.
pub(crate) fn is_for(holder: Holder, place: u32, callable: bool) -> bool
    ensures { result ≡ is_for holder place callable }
{
    match holder {
        Holder::EachFunction => callable,
        Holder::At(at) => at == place,
    }
}

/// Defines the property of a permit on an object, if there is one.
pub(crate) fn define(
    alloc: Global,
    objects: &mut FlatStore,
    made: ObjId,
    row: Permit,
    property: Option<Descriptor>,
) -> Result<(), OutOfMemory>
    requires { made.0 < length objects.old.objects }
    ensures { let step = with_defined (row_of row.entry) property in
        OnOk result (objects.new.objects ≡ at_place objects.old.objects made.0 step) }
{
    match property {
        None => Ok(()),
        Some(property) => objects.apply(
            made,
            key_of(alloc, row.1, row.2)?,
            Change::Write(property),
        ),
    }
}

// Objects that are being made.

ghost use Rattle.std.specs.Prelude.{◌≡◌, ◌<◌, ◌++◌, ◌∷◌, [], Some, length, IfOk, OnOk};
ghost use Rattle.js_store.specs.Objects.{at_place, fresh};
ghost use Rattle.js_store.specs.Frozen.{common_ref};
ghost use Rattle.js_store.specs.declared.slot.Slot.TheVariants as slot;
ghost use Rattle.js_text.specs.Naming.{naming_of};
ghost use Rattle.js_world.specs.js_run.Starts.{host_ref};
ghost use Rattle.lava_start.specs.Making.{with_named};

use crate::words::word_text;
use js_desc::descriptor::{Change, Descriptor};
use js_store::flat::FlatStore;
use js_store::slot::Slot;
use js_store::store::Store;
use js_text::value::Key;
use lava_base::ids::{CommonId, ObjId, PartyId, Ref};
use lava_base::marks::Marks;
use lava_base::memory::OutOfMemory;
use std::alloc::Global;

/// The common object of a place.
pub(crate) fn common(place: u32) -> Ref
    ensures { result ≡ common_ref place }
{
    Ref::Common(CommonId(place))
}

/// The object of the host of a number.
pub(crate) fn host(number: u32) -> Ref
    ensures { result ≡ host_ref number }
{
    Ref::Own {
        party: PartyId(0),
        id: ObjId(number),
    }
}

/// An object of a store.
pub(crate) fn own(objects: &FlatStore, id: ObjId) -> Ref
    ensures { result ≡ (naming_of objects.now.party.0).own id.0 }
{
    Ref::Own {
        party: objects.party(),
        id,
    }
}

/// Makes an object that inherits from a common one, and keeps nothing besides its properties.
pub(crate) fn put_object(
    objects: &mut FlatStore,
    prototype: u32,
    marks: Marks,
) -> Result<ObjId, OutOfMemory>
    ensures id { IfOk result (λ id. id.0 ≡ length objects.old.objects) }
    ensures made { let made = fresh (Some (common_ref prototype)) marks slot.Plain in
        OnOk result (objects.new.objects ≡ objects.old.objects ++ made ∷ []) }
    ensures party { objects.new.party ≡ objects.old.party }
{
    objects.make(Some(common(prototype)), marks, Slot::Plain)
}

/// Writes the property of a name.
pub(crate) fn put_property(
    alloc: Global,
    objects: &mut FlatStore,
    at: ObjId,
    name: &str,
    property: Descriptor,
) -> Result<(), OutOfMemory>
    requires { at.0 < length objects.old.objects }
    ensures objects { let step = with_named name.now property in
        OnOk result (objects.new.objects ≡ at_place objects.old.objects at.0 step) }
    ensures party { objects.new.party ≡ objects.old.party }
{
    let key = Key::Text(word_text(alloc, name)?);
    objects.apply(at, key, Change::Write(property))
}

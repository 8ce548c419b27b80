// The global object of a package.

ghost use Rattle.std.specs.Prelude.{◌≡◌, ◌<◌, ◌∷◌, [], length, slice_get, IfOk, OnOk};
ghost use Rattle.std.specs.List.{list_any};
ghost use Rattle.js_store.specs.Objects.{at_place};
ghost use Rattle.js_text.specs.CommonPaths.{common_paths};
ghost use Rattle.js_text.specs.Naming.{naming_of};
ghost use Rattle.js_world.specs.js_run.Globals as globals;
ghost use Rattle.js_world.specs.js_run.Starts.{package_global};
ghost use Rattle.lava_start.specs.Making.{hidden_descriptor, with_found, with_global_self, with_intrinsic, with_intrinsics, with_path};

use crate::objects::{common, put_object, put_property};
use js_desc::descriptor::Descriptor;
use js_store::flat::FlatStore;
use js_store::store::Store;
use js_text::common::common_path;
use js_text::value::Value;
use js_world::js_run::intrinsics::OBJECT_PROTOTYPE;
use lava_base::ids::{CommonId, ObjId, PartyId, Ref};
use lava_base::marks::{Class, Marks};
use lava_base::memory::OutOfMemory;
use std::alloc::Global;

/// How many common objects there are.
const PATHS: u32 = 222;

/// The marks of a global.
pub(crate) const GLOBAL_MARKS: Marks = Marks {
    class: Class::Global,
    callable: false,
    constructor: false,
};

/// The place of the first path that stands behind `globalThis` in byte order.
pub const SELF_PLACE: u32 = 198;

/// A unit of a path that is no name by itself.
fn is_part(unit: u8) -> bool
    ensures { result ≡ globals.is_part unit }
{
    unit == b'.' || unit == b' ' || unit == b'['
}

/// Whether a path is a member's or an accessor's.
fn has_part(path: &[u8]) -> bool
    ensures { result ≡ list_any globals.is_part path.now }
{
    path.iter().any(|unit| is_part(*unit))
}

/// Whether a path is a helper's of the prelude.
fn is_helper(path: &[u8]) -> bool
    ensures { result ≡ globals.is_helper path.now }
{
    match path {
        [] => true,
        [first, ..] => *first == b'_',
    }
}

/// Whether a path names an intrinsic that each global has.
#[tactic(auto, using(crate::proofs::Path_laws::any_part))]
fn is_global(path: &str) -> bool
    ensures { result ≡ globals.is_global path.now }
{
    let units = path.as_bytes();
    !has_part(units) && !is_helper(units)
}

/// A property that may be written and configured, and isn't listed.
fn hidden(value: Value) -> Descriptor
    ensures { result ≡ hidden_descriptor value }
{
    Descriptor::Data {
        value,
        writable: true,
        enumerable: false,
        configurable: true,
    }
}

/// Writes `globalThis` where its turn comes.
fn put_self(
    alloc: Global,
    objects: &mut FlatStore,
    at: ObjId,
    place: u32,
) -> Result<(), OutOfMemory>
    requires { at.0 < length objects.old.objects }
    ensures objects { let step = with_global_self objects.old.party.0 place in
        OnOk result (objects.new.objects ≡ at_place objects.old.objects at.0 step) }
    ensures party { objects.new.party ≡ objects.old.party }
{
    if place != SELF_PLACE {
        return Ok(());
    }
    let own = Ref::Own {
        party: objects.party(),
        id: ObjId(0),
    };
    put_property(alloc, objects, at, "globalThis", hidden(Value::Ref(own)))
}

/// Writes the intrinsic of a path, where it is one that each global has.
fn put_intrinsic(
    alloc: Global,
    objects: &mut FlatStore,
    at: ObjId,
    place: u32,
    path: &str,
) -> Result<(), OutOfMemory>
    requires { at.0 < length objects.old.objects }
    ensures objects { let step = with_intrinsic objects.old.party.0 place path.now in
        OnOk result (objects.new.objects ≡ at_place objects.old.objects at.0 step) }
    ensures party { objects.new.party ≡ objects.old.party }
{
    if !is_global(path) {
        return Ok(());
    }
    let property = hidden(Value::Ref(common(place)));
    put_property(alloc, objects, at, path, property)
}

/// Writes what stands at a place of the paths.
fn put_path(
    alloc: Global,
    objects: &mut FlatStore,
    at: ObjId,
    place: u32,
    path: &str,
) -> Result<(), OutOfMemory>
    requires { at.0 < length objects.old.objects }
    ensures objects { let step = with_path objects.old.party.0 place path.now in
        OnOk result (objects.new.objects ≡ at_place objects.old.objects at.0 step) }
    ensures party { objects.new.party ≡ objects.old.party }
{
    put_self(alloc, objects, at, place)?;
    put_intrinsic(alloc, objects, at, place, path)
}

/// Writes what stands at a place of the common part.
fn put_place(
    alloc: Global,
    objects: &mut FlatStore,
    at: ObjId,
    place: u32,
) -> Result<(), OutOfMemory>
    requires { at.0 < length objects.old.objects }
    ensures objects { let path = slice_get common_paths place in
        let step = with_found objects.old.party.0 place path in
        OnOk result (objects.new.objects ≡ at_place objects.old.objects at.0 step) }
    ensures party { objects.new.party ≡ objects.old.party }
{
    match common_path(CommonId(place)) {
        Some(path) => put_path(alloc, objects, at, place, path),
        None => Ok(()),
    }
}

/// Writes the intrinsics and `globalThis`, in byte order.
fn put_intrinsics(alloc: Global, objects: &mut FlatStore, at: ObjId) -> Result<(), OutOfMemory>
    requires { at.0 < length objects.old.objects }
    ensures objects { let all = with_intrinsics objects.old.party.0 in
        OnOk result (objects.new.objects ≡ at_place objects.old.objects at.0 all) }
    ensures party { objects.new.party ≡ objects.old.party }
{
    for place in 0..PATHS {
        put_place(alloc, objects, at, place)?;
    }
    Ok(())
}

/// The global of a package that is given nothing.
pub(crate) fn bare_store(alloc: Global, party: PartyId) -> Result<FlatStore, OutOfMemory>
    ensures objects { let made = package_global (naming_of party.0) [] in
        IfOk result (λ s. s.objects ≡ made ∷ []) }
    ensures party { IfOk result (λ s. s.party ≡ party) }
{
    let mut objects = FlatStore::empty(alloc, party);
    let global = put_object(&mut objects, OBJECT_PROTOTYPE, GLOBAL_MARKS)?;
    put_intrinsics(alloc, &mut objects, global)?;
    Ok(objects)
}

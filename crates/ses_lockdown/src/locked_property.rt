// One property of a common object, locked.

ghost use Rattle.std.specs.Prelude.{◌≡◌, IfOk};
ghost use Rattle.std.specs.Option.{option_map};
ghost use Rattle.lava_base.specs.Ids.{same_made_symbol};
ghost use Rattle.js_store.specs.Objects.{object_at, ordinary_get_own_property};
ghost use Rattle.ses_lockdown.specs.Permits.{row_of, is_common, is_common_if_any, is_shared_symbol, is_common_value, is_common_property, is_shared_key};
ghost use Rattle.ses_lockdown.specs.Lockdown.{tamed, repaired, fixed, common_only, locked_at};

use crate::making::common;
use crate::table::{COUNT, Override, Permit, Stands};
use crate::words::key_of;
use js_desc::copy::copy_descriptor;
use js_desc::descriptor::Descriptor;
use js_store::flat::FlatStore;
use js_store::store::Store;
use js_text::value::{Key, Symbol, Value};
use lava_base::ids::{ObjId, Ref};
use lava_base::memory::OutOfMemory;
use std::alloc::Global;

// WHAT IS COMMON

/// Whether a reference is to a common object.
#[tactic(auto, unfolding(crate::specs::Permits::count))]
pub(crate) fn is_common(reference: Ref) -> bool
    ensures { result ≡ is_common reference }
{
    match reference {
        Ref::Common(id) => id.0 < COUNT,
        Ref::Own { .. } => false,
    }
}

/// Whether a reference is to a common object, if there is one.
pub(crate) fn is_common_if_any(reference: Option<Ref>) -> bool
    ensures { result ≡ is_common_if_any reference }
{
    match reference {
        None => true,
        Some(reference) => is_common(reference),
    }
}

/// Whether a symbol is no made one.
fn is_shared_symbol(symbol: &Symbol) -> bool
    ensures { result ≡ is_shared_symbol symbol.now }
{
    match symbol {
        Symbol::Iterator => true,
        Symbol::Registered(_) => true,
        Symbol::Made(_) => false,
    }
}

/// Whether a key names no made symbol.
pub(crate) fn is_shared_key(key: &Key) -> bool
    ensures { result ≡ is_shared_key key.now }
{
    match key {
        Key::Index(_) => true,
        Key::Text(_) => true,
        Key::Symbol(symbol) => is_shared_symbol(symbol),
    }
}

/// Whether a value names common objects alone.
pub(crate) fn is_common_value(value: &Value) -> bool
    ensures { result ≡ is_common_value value.now }
{
    match value {
        Value::Undefined => true,
        Value::Null => true,
        Value::Bool(_) => true,
        Value::Int(_) => true,
        Value::Text(_) => true,
        Value::Symbol(symbol) => is_shared_symbol(symbol),
        Value::Ref(reference) => is_common(*reference),
    }
}

/// Whether a property names common objects alone.
fn is_common_property(property: &Descriptor) -> bool
    ensures { result ≡ is_common_property property.now }
{
    match property {
        Descriptor::Data { value, .. } => is_common_value(value),
        Descriptor::Accessor { get, set, .. } => is_common_if_any(*get) && is_common_if_any(*set),
    }
}

// ONE PROPERTY

/// The property with the tamed constructor as its value, where a permit says so.
pub(crate) fn tamed(stands: Stands, property: Descriptor) -> Descriptor
    ensures { result ≡ tamed stands property }
{
    match (stands, property) {
        (
            Stands::Tamed(place),
            Descriptor::Data {
                writable,
                enumerable,
                configurable,
                ..
            },
        ) => Descriptor::Data {
            value: Value::Ref(common(place)),
            writable,
            enumerable,
            configurable,
        },
        (_, property) => property,
    }
}

/// The property as an accessor, where it holds a value and a permit says so.
fn repaired(by: Override, property: Descriptor) -> Descriptor
    ensures { result ≡ repaired by property }
{
    match (by, property) {
        (
            Override::Accessor(get, set),
            Descriptor::Data {
                enumerable,
                configurable,
                ..
            },
        ) => Descriptor::Accessor {
            get: Some(common(get)),
            set: Some(common(set)),
            enumerable,
            configurable,
        },
        (_, property) => property,
    }
}

/// The property as one that can't be changed.
fn fixed(property: Descriptor) -> Descriptor
    ensures { result ≡ fixed property }
{
    match property {
        Descriptor::Data {
            value,
            enumerable,
            ..
        } => Descriptor::Data {
            value,
            writable: false,
            enumerable,
            configurable: false,
        },
        Descriptor::Accessor {
            get,
            set,
            enumerable,
            ..
        } => Descriptor::Accessor {
            get,
            set,
            enumerable,
            configurable: false,
        },
    }
}

/// The property, if it names common objects alone.
fn common_only(property: Descriptor) -> Option<Descriptor>
    ensures { result ≡ common_only property }
{
    if is_common_property(&property) {
        Some(property)
    } else {
        None
    }
}

/// The property of a key at the object of a place, if there is such an object.
pub(crate) fn own_at<'a>(objects: &'a FlatStore, place: u32, key: &Key) -> Option<&'a Descriptor>
    ensures { let o = object_at objects.now.objects place in
        option_map (λ d. d.now) result
        ≡ ordinary_get_own_property same_made_symbol key.now o.properties }
{
    if place < objects.count() {
        objects.own(ObjId(place), key)
    } else {
        None
    }
}

/// What a locked object has at the key of a permit.
pub(crate) fn locked_at(
    alloc: Global,
    objects: &FlatStore,
    place: u32,
    row: Permit,
) -> Result<Option<Descriptor>, OutOfMemory>
    ensures { let o = object_at objects.now.objects place in
        IfOk result (λ d. d ≡ locked_at (row_of row.entry) o) }
{
    let (_, sort, word, stands, by) = row;
    let key = key_of(alloc, sort, word)?;
    match own_at(objects, place, &key) {
        None => Ok(None),
        Some(property) => {
            let tame = tamed(stands, copy_descriptor(property)?);
            Ok(common_only(fixed(repaired(by, tame))))
        }
    }
}

// The `length` of an array, and its elements taken out from the highest down.

ghost use Rattle.std.specs.Prelude.{◌≡◌, ◌<◌, ◌≤◌, false, length, IfSome, option_map};
ghost use Rattle.lava_base.specs.Ids.{same_made_symbol};
ghost use Rattle.js_text.specs.Length.{length_key};
ghost use Rattle.js_text.specs.Naming.{naming_of};
ghost use Rattle.js_text.specs.declared.value.Key.TheVariants.{Index};
ghost use Rattle.js_store.specs.Frozen.{IsFixed};
ghost use Rattle.js_store.specs.Objects.{at_place, object_at, ordinary_get_own_property};
ghost use Rattle.js_ordinary.specs.Targets.{IsSeen, object_seen};
ghost use Rattle.js_exotic.specs.ArrayLengths.{array_length, array_length_of, is_configurable, kept_length, length_in_range, length_of_value, length_property, without_elements};
ghost use Rattle.js_exotic.specs.Targets.{IsOfCommonPart};

use js_desc::descriptor::Descriptor;
use js_ordinary::target::Target;
use js_store::frozen::FrozenStore;
use js_store::store::Store;
use js_text::value::{Key, Value};
use lava_base::ids::ObjId;

/// A length is below this, 2^32 (ECMA-262, ArraySetLength, steps 3 to 5).
pub const LENGTH_LIMIT: u64 = 4_294_967_296;

/// What the property `length` of an array says.
#[derive(Clone, Copy)]
pub struct ArrayLength {
    /// One above the greatest index, or more.
    pub count: u32,
    pub writable: bool,
    pub enumerable: bool,
    pub configurable: bool,
}

/// A number as a length, if it is one.
pub(crate) fn length_in_range(number: i64) -> Option<u32>
    ensures { result ≡ length_in_range number }
{
    u32::try_from(number).ok()
}

/// A value as a length, if it is one.
fn length_of_value(value: &Value) -> Option<u32>
    ensures { result ≡ length_of_value value.now }
{
    match value {
        Value::Int(number) => length_in_range(*number),
        _ => None,
    }
}

/// What an own property `length` says, if it is one of an array.
fn array_length_of(property: Option<&Descriptor>) -> Option<ArrayLength>
    ensures { result ≡ array_length_of (option_map (λ d. d.now) property.entry) }
{
    match property {
        Some(
            Descriptor::Data {
                value,
                writable,
                enumerable,
                configurable,
            },
        ) => {
            let count = length_of_value(value)?;
            Some(ArrayLength {
                count,
                writable: *writable,
                enumerable: *enumerable,
                configurable: *configurable,
            })
        }
        _ => None,
    }
}

/// What the property `length` of an object says. In the common part none is writable.
pub(crate) fn array_length<S: Store>(
    store: &S,
    common: &FrozenStore,
    target: Target,
) -> Option<ArrayLength>
    requires { IsSeen (S.objects store.now) common.now target }
    ensures length { let names = naming_of (S.owner store.now).0 in
        let o = object_seen (S.objects store.now) common.now target in
        result ≡ array_length names o }
    ensures fixed { IsOfCommonPart target → IfSome result (λ l. l.writable ≡ false) }
{
    match target {
        Target::Own(id) => array_length_of(store.own(id, store.length_key())),
        Target::Common(id) => fixed_length_of(common.own(id, common.length_key())),
    }
}

/// What the property `length` of a frozen object says.
fn fixed_length_of(property: Option<&Descriptor>) -> Option<ArrayLength>
    requires { IfSome property (λ d. IsFixed d.now) }
    ensures length { result ≡ array_length_of (option_map (λ d. d.now) property.entry) }
    ensures fixed { IfSome result (λ l. l.writable ≡ false) }
{
    array_length_of(property)
}

/// The property with another number.
pub(crate) fn length_property(length: ArrayLength, count: u64) -> Descriptor
    requires { count ≤ LENGTH_LIMIT }
    ensures { result ≡ length_property length count }
{
    Descriptor::Data {
        value: Value::Int(count as i64),
        writable: length.writable,
        enumerable: length.enumerable,
        configurable: length.configurable,
    }
}

/// Takes elements out from the highest down to a length, until one may not go, and gives the length that stands. It takes no memory, and as many steps as elements go.
pub(crate) fn delete_elements<S: Store>(store: &mut S, id: ObjId, least: u32) -> u64
    requires { id.0 < length (S.objects store.old) }
    ensures count { let ps = (object_at (S.objects store.old) id.0).properties in
        result ≡ kept_length least ps }
    ensures objects { let after = without_elements result in
        S.objects store.new ≡ at_place (S.objects store.old) id.0 after }
    ensures within { result ≤ LENGTH_LIMIT }
    ensures party { S.owner store.new ≡ S.owner store.old }
{
    while let Some(last) = store.last_index(id) {
        if last < least {
            return least as u64;
        }
        if !may_go(store, id, last) {
            return last as u64 + 1;
        }
        store.remove(id, &Key::Index(last));
    }
    least as u64
}

/// Whether the element at an index may be deleted.
fn may_go<S: Store>(store: &S, id: ObjId, index: u32) -> bool
    requires { id.0 < length (S.objects store.now) }
    ensures { let ps = (object_at (S.objects store.now) id.0).properties in
        result ≡ is_configurable (ordinary_get_own_property same_made_symbol (Index index) ps) }
{
    match store.own(id, &Key::Index(index)) {
        Some(property) => property.configurable(),
        None => true,
    }
}

// Elements, which a form appends to an array at once.

ghost use Rattle.std.specs.Prelude.{◌≡◌, ◌+◌, ◌<◌, ◌≤◌, Bool, length, pos, IfNone, IfSome, IsFalse, IsTrue, Some};
ghost use Rattle.js_code.specs.declared.node.Node.TheVariants as node;
ghost use Rattle.js_desc.specs.declared.descriptor.Descriptor.TheVariants.{Data};
ghost use Rattle.js_text.specs.Length.{length_key};
ghost use Rattle.js_text.specs.declared.value.Key.TheVariants as key;
ghost use Rattle.js_text.specs.declared.value.Value.TheVariants as value;
ghost use Rattle.js_store.specs.Objects.{at_place, object_at};
ghost use Rattle.js_direct.specs.Appends.{InheritsNone, IsAppendRow, IsAppended, LacksOwn, Stands, StandsBeside, with_element};
ghost use Rattle.js_direct.specs.Direct.{is_proxy, seen, value_of};
ghost use Rattle.js_direct.specs.Puts.{NamesAtOnce};
ghost use Rattle.js_direct.specs.declared.appends.Standing.TheVariants as standing;

use crate::direct::{Direct, value_at};
use crate::numbers::MOST_STEPS;
use crate::plain::{Plain, as_value};
use crate::properties::{is_proxy, object_at};
use crate::puts::{Attributes, index_at};
use js_code::code::Code;
use js_desc::descriptor::{Change, Descriptor};
use js_state::scopes::Scopes;
use js_store::frozen::FrozenStore;
use js_store::store::Store;
use js_text::value::{Key, Value};
use lava_base::ids::{CommonId, ObjId, Ref};
use lava_base::marks::Class;

/// An array index, and how many steps the form takes that gives it.
#[derive(Clone, Copy)]
pub(crate) struct Indexed {
    pub(crate) index: u32,
    pub(crate) steps: u32,
}

/// The array index that a form gives at once.
#[inline]
pub(crate) fn element_at<S: Store>(
    code: &Code,
    store: &S,
    scopes: &Scopes,
    scope: u32,
    at: u32,
) -> Option<Indexed>
    ensures { let party = S.owner store.now in
        let sight = seen party (S.objects store.now) code.now scopes.now scope in
        IfSome result (λ i. NamesAtOnce sight at (key.Index i.index) i.steps) }
{
    let Some(named) = index_at(code, store, scopes, scope, at) else {
        return None;
    };
    match named.key {
        Key::Index(index) => Some(Indexed {
            index,
            steps: named.steps,
        }),
        _ => None,
    }
}

/// The steps of a Put that appends an element, of its key and its value, where these are not too many.
#[inline]
pub(crate) fn steps_within(key: u32, value: u32, left: u64) -> Option<u32>
    ensures { IfSome result (λ n. (n ≡ 7 + key + value) × (n ≤ left)) }
{
    if key > MOST_STEPS || value > MOST_STEPS {
        return None;
    }
    let steps = 7 + key + value;
    if u64::from(steps) > left {
        return None;
    }
    Some(steps)
}

/// Where an index stands: where an object defines a property that it has as any object does, at the end of an array, whose length has these attributes and is writable, or elsewhere.
#[derive(Clone, Copy)]
pub(crate) enum Standing {
    Below,
    End(Attributes),
    Elsewhere,
}

/// Where an index stands beside the length of an array.
#[inline]
fn stands_beside(index: u32, length: &Descriptor) -> Standing
    ensures { StandsBeside (Some length.now) index result }
{
    let Descriptor::Data {
        value: Value::Int(count),
        writable,
        enumerable,
        configurable,
    } = length
    else {
        return Standing::Elsewhere;
    };
    if i64::from(index) < *count {
        return Standing::Below;
    }
    if i64::from(index) != *count || !*writable {
        return Standing::Elsewhere;
    }
    Standing::End(Attributes {
        enumerable: *enumerable,
        configurable: *configurable,
    })
}

/// Where an index stands, of an object.
#[inline]
pub(crate) fn standing_at<S: Store>(store: &S, id: ObjId, index: u32) -> Standing
    requires { id.0 < length (S.objects store.now) }
    ensures { Stands (object_at (S.objects store.now) id.0) index result }
{
    match store.marks(id).class {
        Class::Array => match store.own(id, store.length_key()) {
            Some(length) => stands_beside(index, length),
            None => Standing::Elsewhere,
        },
        _ => Standing::Below,
    }
}

/// Whether an object of the common part is no proxy and has no property of its own at a key.
#[inline]
fn lacks_own(common: &FrozenStore, id: CommonId, key: &Key) -> bool
    ensures { IsTrue result → LacksOwn common.now id.0 key.now }
{
    if id.0 >= common.count() || is_proxy(common.slot(id)) {
        return false;
    }
    match common.own(id, key) {
        Some(_) => false,
        None => true,
    }
}

/// Whether what has this prototype inherits from two objects of the common part, neither of which has a property at a key.
#[inline]
fn inherits_none(common: &FrozenStore, prototype: Option<Ref>, key: &Key) -> bool
    ensures { IsTrue result → InheritsNone common.now prototype key.now }
{
    let Some(Ref::Common(first)) = prototype else {
        return false;
    };
    if !lacks_own(common, first, key) {
        return false;
    }
    let Some(Ref::Common(second)) = common.proto(first) else {
        return false;
    };
    lacks_own(common, second, key) && common.proto(second).is_none()
}

/// The key `length` once more.
#[inline]
fn length_key_of<S: Store>(store: &S) -> Option<Key>
    requires { 0 < length (S.objects store.now) }
    ensures { IfSome result (λ k. k ≡ length_key) }
{
    let Key::Text(text) = store.length_key() else {
        return None;
    };
    match text.copy() {
        Ok(text) => Some(Key::Text(text)),
        Err(_) => None,
    }
}

/// The length of an array that ends with this index.
#[inline]
fn length_behind(index: u32, kept: Attributes) -> Descriptor
    ensures { let is = value.Int (pos (index + 1)) in
        result ≡ Data is Bool.true kept.enumerable kept.configurable }
{
    Descriptor::Data {
        value: Value::Int(i64::from(index) + 1),
        writable: true,
        enumerable: kept.enumerable,
        configurable: kept.configurable,
    }
}

/// Appends an element to an array at its length, which keeps its attributes, and tells whether it did. Where memory is wanting, all is as before.
#[inline]
fn append_element<S: Store>(
    store: &mut S,
    id: ObjId,
    index: u32,
    kept: Attributes,
    value: Plain,
) -> bool
    requires { id.0 < length (S.objects store.old) }
    ensures appended { let v = value_of value in
        let after = with_element index v kept.enumerable kept.configurable in
        IsTrue result → S.objects store.new ≡ at_place (S.objects store.old) id.0 after }
    ensures refused { IsFalse result → S.objects store.new ≡ S.objects store.old }
    ensures party { S.owner store.new ≡ S.owner store.old }
{
    let Some(key) = length_key_of(store) else {
        return false;
    };
    let element = Descriptor::Data {
        value: as_value(value),
        writable: true,
        enumerable: true,
        configurable: true,
    };
    let Ok(()) = store.apply(id, Key::Index(index), Change::Write(element)) else {
        return false;
    };
    store.replace(id, key, length_behind(index, kept));
    true
}

/// Appends an element at the end of an array, where it may be appended, and tells whether it did.
#[inline]
pub(crate) fn write_end<S: Store>(
    store: &mut S,
    common: &FrozenStore,
    id: ObjId,
    index: u32,
    kept: Attributes,
    value: Plain,
) -> bool
    requires { id.0 < length (S.objects store.old) }
    ensures appended { let objects = S.objects store.old in
        let o = object_at objects id.0 in
        let v = value_of value in
        Stands o index (standing.End kept) → is_proxy o.slot ≡ Bool.false
        → IsTrue result → IsAppended objects common.now id.0 index v (S.objects store.new) }
    ensures refused { IsFalse result → S.objects store.new ≡ S.objects store.old }
    ensures party { S.owner store.new ≡ S.owner store.old }
{
    let key = Key::Index(index);
    if !store.extensible(id)
        || store.own(id, &key).is_some()
        || !inherits_none(common, store.proto(id), &key)
    {
        return false;
    }
    append_element(store, id, index, kept, value)
}

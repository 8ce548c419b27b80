// Own data properties, which a form writes at once.

ghost use Rattle.std.specs.Prelude.{◌≡◌, ◌+◌, ◌<◌, ◌≤◌, length, IfNone, IfSome, IsFalse, IsTrue, Some};
ghost use Rattle.js_code.specs.declared.node.Node.TheVariants as node;
ghost use Rattle.js_store.specs.Objects.{object_at};
ghost use Rattle.js_direct.specs.Direct.{seen, value_of};
ghost use Rattle.js_direct.specs.Puts.{HasWritable, IsPutRow, IsWritable, IsWritten, KeepsPlace, NamesAtOnce, defines_plainly, is_below_length, is_inside};

use crate::direct::{Direct, value_at};
use crate::numbers::{DEPTH, MOST_STEPS, operand_at};
use crate::plain::{Plain, as_value};
use crate::properties::{is_proxy, object_at, text_key};
use js_code::code::Code;
use js_code::node::Node;
use js_desc::descriptor::Descriptor;
use js_operation::array_index_keys::array_index_key;
use js_state::scopes::Scopes;
use js_store::store::Store;
use js_text::length::is_length;
use js_text::value::{Key, Value};
use lava_base::ids::ObjId;
use lava_base::marks::Class;

/// A property key, and how many steps the form takes that gives it.
#[derive(Drop)]
pub(crate) struct Named {
    pub(crate) key: Key,
    pub(crate) steps: u32,
}

/// The attributes that a property keeps when its value is written.
#[derive(Clone, Copy)]
pub(crate) struct Attributes {
    pub(crate) enumerable: bool,
    pub(crate) configurable: bool,
}

/// The key of a form that gives an array index at once.
#[inline]
pub(crate) fn index_at<S: Store>(
    code: &Code,
    store: &S,
    scopes: &Scopes,
    scope: u32,
    at: u32,
) -> Option<Named>
    ensures { let party = S.owner store.now in
        let sight = seen party (S.objects store.now) code.now scopes.now scope in
        IfSome result (λ n. NamesAtOnce sight at n.key n.steps) }
{
    let index = operand_at(code, store, scopes, scope, at, DEPTH);
    if index.steps == 0 {
        return None;
    }
    match array_index_key(index.number) {
        Some(key) => Some(Named {
            key,
            steps: index.steps,
        }),
        None => None,
    }
}

/// The key that a form gives at once: a name, or an array index.
#[inline]
fn key_at<S: Store>(code: &Code, store: &S, scopes: &Scopes, scope: u32, at: u32) -> Option<Named>
    ensures { let party = S.owner store.now in
        let sight = seen party (S.objects store.now) code.now scopes.now scope in
        IfSome result (λ n. NamesAtOnce sight at n.key n.steps) }
{
    let Node::Text(name) = code.node(at) else {
        return index_at(code, store, scopes, scope, at);
    };
    match text_key(code.text(name)) {
        Some(key) => Some(Named { key, steps: 1 }),
        None => None,
    }
}

/// The steps of a Put, of its key and its value, where these are not too many.
#[inline]
pub(crate) fn steps_within(key: u32, value: u32, left: u64) -> Option<u32>
    ensures { IfSome result (λ n. (n ≡ 5 + key + value) × (n ≤ left)) }
{
    if key > MOST_STEPS || value > MOST_STEPS {
        return None;
    }
    let steps = 5 + key + value;
    if u64::from(steps) > left {
        return None;
    }
    Some(steps)
}

/// Whether an index is below the length that a property says.
#[inline]
fn is_below_length(index: u32, length: &Descriptor) -> bool
    ensures { result ≡ is_below_length index (Some length.now) }
{
    match length {
        Descriptor::Data {
            value: Value::Int(length),
            ..
        } => i64::from(index) < *length,
        _ => false,
    }
}

/// Whether a key of an array is neither its length nor an index at or past it.
#[inline]
fn is_inside<S: Store>(store: &S, id: ObjId, key: &Key) -> bool
    requires { id.0 < length (S.objects store.now) }
    ensures { result ≡ is_inside (object_at (S.objects store.now) id.0) key.now }
{
    match key {
        Key::Index(index) => match store.own(id, store.length_key()) {
            Some(length) => is_below_length(*index, length),
            None => false,
        },
        Key::Text(_) => !is_length(key),
        Key::Symbol(_) => true,
    }
}

/// Whether an object defines a property that it has as any object does (ECMA-262, "Array Exotic Objects", [[DefineOwnProperty]]).
#[inline]
fn defines_plainly<S: Store>(store: &S, id: ObjId, key: &Key) -> bool
    requires { id.0 < length (S.objects store.now) }
    ensures { result ≡ defines_plainly (object_at (S.objects store.now) id.0) key.now }
{
    match store.marks(id).class {
        Class::Array => is_inside(store, id, key),
        _ => true,
    }
}

/// A property that is written keeps its place: those at array indices stand in order.
#[inline]
pub(crate) fn keep_place<S: Store>(store: &S, id: ObjId, key: &Key)
    requires { id.0 < length (S.objects store.now) }
    ensures { KeepsPlace key.now (object_at (S.objects store.now) id.0) }
{
    if let Key::Index(_) = key {
        store.last_index(id);
    }
}

/// The attributes of a data property that may be written.
#[inline]
pub(crate) fn attributes_of(property: &Descriptor) -> Option<Attributes>
    ensures { IfSome result (λ a. IsWritable property.now a.enumerable a.configurable) }
{
    match property {
        Descriptor::Data {
            writable: true,
            enumerable,
            configurable,
            ..
        } => Some(Attributes {
            enumerable: *enumerable,
            configurable: *configurable,
        }),
        _ => None,
    }
}

/// The attributes of an own data property that may be written, of an object that is no proxy.
#[inline]
fn writable_at<S: Store>(store: &S, id: ObjId, key: &Key) -> Option<Attributes>
    ensures { let objects = S.objects store.now in
        IfSome result (λ a. HasWritable objects id.0 key.now a.enumerable a.configurable) }
{
    if id.0 >= store.count() || is_proxy(store.slot(id)) || !defines_plainly(store, id, key) {
        return None;
    }
    keep_place(store, id, key);
    match store.own(id, key) {
        Some(property) => attributes_of(property),
        None => None,
    }
}

/// Writes the value of an own data property, where it may be written, and tells whether it did.
#[inline]
fn write_data<S: Store>(store: &mut S, id: ObjId, key: Key, value: Plain) -> bool
    ensures written { let after = S.objects store.new in
        IsTrue result → IsWritten (S.objects store.old) id.0 key (value_of value) after }
    ensures refused { IsFalse result → S.objects store.new ≡ S.objects store.old }
    ensures party { S.owner store.new ≡ S.owner store.old }
{
    let Some(kept) = writable_at(store, id, &key) else {
        return false;
    };
    let property = Descriptor::Data {
        value: as_value(value),
        writable: true,
        enumerable: kept.enumerable,
        configurable: kept.configurable,
    };
    store.replace(id, key, property);
    true
}

/// Writes the own data property that a form writes at once, if it does, and not in more steps than are left: a property of an object of the party in a slot, at a name or an array index, with a plain value. Where it gives none, nothing is written.
pub fn put_at<S: Store>(
    code: &Code,
    store: &mut S,
    scopes: &Scopes,
    scope: u32,
    object: u32,
    key: u32,
    value: u32,
    left: u64,
) -> Option<Direct>
    ensures put { let party = S.owner store.old in
        let sight = seen party (S.objects store.old) code.now scopes.now scope in
        IfSome result (IsPutRow sight (node.Put object key value) (S.objects store.new)) }
    ensures left { IfSome result (λ d. d.steps ≤ left) }
    ensures some { IfSome result (λ d. 0 < d.steps) }
    ensures none { IfNone result (S.objects store.new ≡ S.objects store.old) }
    ensures party { S.owner store.new ≡ S.owner store.old }
{
    let Some(id) = object_at(code, store, scopes, scope, object) else {
        return None;
    };
    let Some(given) = value_at(code, store, scopes, scope, value) else {
        return None;
    };
    let Some(named) = key_at(code, store, scopes, scope, key) else {
        return None;
    };
    let Some(steps) = steps_within(named.steps, given.steps, left) else {
        return None;
    };
    if !write_data(store, id, named.key, given.value) {
        return None;
    }
    Some(Direct {
        value: given.value,
        steps,
    })
}

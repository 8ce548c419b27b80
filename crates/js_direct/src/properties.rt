// Own data properties, which a form reads at once.

ghost use Rattle.std.specs.Prelude.{◌≡◌, IfSome};
ghost use Rattle.std.specs.Fmt.{signed_decimal};
ghost use Rattle.js_text.specs.Indices.{key_of_text};
ghost use Rattle.js_direct.specs.Direct.{GivesAtOnce, HasData, is_proxy, own_object, seen};

use js_code::code::Code;
use js_code::node::Node;
use js_desc::descriptor::Descriptor;
use js_operation::array_index_keys::array_index_key;
use js_state::scopes::Scopes;
use js_store::slot::Slot;
use js_store::store::Store;
use js_text::index::key_of_text;
use js_text::text::Text;
use js_text::value::{Key, Value};
use lava_base::ids::{ObjId, Ref};

/// Whether a slot is that of a proxy.
#[inline]
pub(crate) fn is_proxy(slot: &Slot) -> bool
    ensures { result ≡ is_proxy slot.now }
{
    match slot {
        Slot::Proxy(_) => true,
        _ => false,
    }
}

/// The value of an own data property of an object of the party, which is no proxy.
#[inline]
fn data_at<'a, S: Store>(store: &'a S, id: ObjId, key: &Key) -> Option<&'a Value>
    ensures { IfSome result (λ v. HasData (S.objects store.now) id.0 key.now v.now) }
{
    if id.0 >= store.count() || is_proxy(store.slot(id)) {
        return None;
    }
    match store.own(id, key) {
        Some(Descriptor::Data { value, .. }) => Some(value),
        _ => None,
    }
}

/// The property key that a text is (ECMA-262, ToPropertyKey).
#[inline]
pub(crate) fn text_key(text: &Text) -> Option<Key>
    ensures { IfSome result (λ k. k ≡ key_of_text text.now) }
{
    match text.copy() {
        Ok(text) => Some(key_of_text(text)),
        Err(_) => None,
    }
}

/// The value of the own data property with a name.
#[inline]
pub fn named_data<'a, S: Store>(store: &'a S, id: ObjId, name: &Text) -> Option<&'a Value>
    ensures { let key = key_of_text name.now in
        IfSome result (λ v. HasData (S.objects store.now) id.0 key v.now) }
{
    let Some(key) = text_key(name) else {
        return None;
    };
    data_at(store, id, &key)
}

/// The value of the own data property with an index.
#[inline]
pub fn indexed_data<'a, S: Store>(store: &'a S, id: ObjId, number: i64) -> Option<&'a Value>
    ensures { let key = key_of_text (signed_decimal number) in
        IfSome result (λ v. HasData (S.objects store.now) id.0 key v.now) }
{
    let Some(key) = array_index_key(number) else {
        return None;
    };
    data_at(store, id, &key)
}

/// An object of the party that a form gives at once.
#[inline]
pub fn object_at<S: Store>(
    code: &Code,
    store: &S,
    scopes: &Scopes,
    scope: u32,
    at: u32,
) -> Option<ObjId>
    ensures { let party = S.owner store.now in
        let sight = seen party (S.objects store.now) code.now scopes.now scope in
        IfSome result (λ id. GivesAtOnce sight at (own_object sight.me id.0) 1) }
{
    let Node::Local { hops, slot } = code.node(at) else {
        return None;
    };
    match scopes.value(scopes.outward(scope, hops), slot) {
        Some(Value::Ref(Ref::Own { party, id })) if party.0 == store.party().0 => Some(*id),
        _ => None,
    }
}

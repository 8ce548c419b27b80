// Own data properties, which a form writes at once, and elements, which it appends.

ghost use Rattle.std.specs.Prelude.{◌≡◌, ◌<◌, ◌≤◌, Bool, length, IfNone, IfSome, IsFalse, IsTrue};
ghost use Rattle.js_code.specs.declared.node.Node.TheVariants as node;
ghost use Rattle.js_text.specs.declared.value.Key.TheVariants.{Index};
ghost use Rattle.js_store.specs.Objects.{object_at};
ghost use Rattle.js_direct.specs.Appends.{IsAppendRow, Stands};
ghost use Rattle.js_direct.specs.Direct.{is_proxy, seen, value_of};
ghost use Rattle.js_direct.specs.Puts.{IsWritten};
ghost use Rattle.js_direct.specs.declared.appends.Standing.TheVariants as standing;

use crate::appends::{
    Standing, element_at, standing_at, steps_within as append_steps_within, write_end,
};
use crate::direct::{Direct, value_at};
use crate::plain::{Plain, as_value};
use crate::properties::{is_proxy, object_at};
use crate::puts::{attributes_of, keep_place, put_at, steps_within};
use js_code::code::Code;
use js_code::node::Node;
use js_desc::descriptor::Descriptor;
use js_state::scopes::Scopes;
use js_store::frozen::FrozenStore;
use js_store::store::Store;
use js_text::value::Key;
use lava_base::ids::ObjId;

/// Writes the value of a property at an index, where it may be written, and tells whether it did.
#[inline]
fn write_below<S: Store>(store: &mut S, id: ObjId, index: u32, value: Plain) -> bool
    requires { id.0 < length (S.objects store.old) }
    ensures written { let objects = S.objects store.old in
        let o = object_at objects id.0 in
        let v = value_of value in
        Stands o index standing.Below → is_proxy o.slot ≡ Bool.false
        → IsTrue result → IsWritten objects id.0 (Index index) v (S.objects store.new) }
    ensures refused { IsFalse result → S.objects store.new ≡ S.objects store.old }
    ensures party { S.owner store.new ≡ S.owner store.old }
{
    let key = Key::Index(index);
    keep_place(store, id, &key);
    let Some(property) = store.own(id, &key) else {
        return false;
    };
    let Some(kept) = attributes_of(property) else {
        return false;
    };
    let property = Descriptor::Data {
        value: as_value(value),
        writable: true,
        enumerable: kept.enumerable,
        configurable: kept.configurable,
    };
    store.replace(id, key, property);
    true
}

/// Writes the property at an index that a form writes at once, or appends the element that it appends.
fn write_element<S: Store>(
    code: &Code,
    store: &mut S,
    common: &FrozenStore,
    scopes: &Scopes,
    scope: u32,
    object: u32,
    key: u32,
    value: u32,
    left: u64,
) -> Option<Direct>
    ensures write { let party = S.owner store.old in
        let sight = seen party (S.objects store.old) code.now scopes.now scope in
        let row = node.Put object key value in
        IfSome result (IsAppendRow sight common.now row (S.objects store.new)) }
    ensures left { IfSome result (λ d. d.steps ≤ left) }
    ensures some { IfSome result (λ d. 0 < d.steps) }
    ensures none { IfNone result (S.objects store.new ≡ S.objects store.old) }
    ensures party { S.owner store.new ≡ S.owner store.old }
{
    let Some(id) = object_at(code, store, scopes, scope, object) else {
        return None;
    };
    let Some(given) = value_at(code, store, scopes, scope, value) else {
        return None;
    };
    let Some(element) = element_at(code, store, scopes, scope, key) else {
        return None;
    };
    if id.0 >= store.count() || is_proxy(store.slot(id)) {
        return None;
    }
    match standing_at(store, id, element.index) {
        Standing::Below => {
            let Some(steps) = steps_within(element.steps, given.steps, left) else {
                return None;
            };
            if !write_below(store, id, element.index, given.value) {
                return None;
            }
            Some(Direct {
                value: given.value,
                steps,
            })
        }
        Standing::End(kept) => {
            let Some(steps) = append_steps_within(element.steps, given.steps, left) else {
                return None;
            };
            if !write_end(store, common, id, element.index, kept, given.value) {
                return None;
            }
            Some(Direct {
                value: given.value,
                steps,
            })
        }
        Standing::Elsewhere => None,
    }
}

/// Writes the own data property that a form writes at once, or appends the element that it appends, as `put_at` does a property. Where it gives none, nothing is written.
#[tactic(auto, using(crate::proofs::Append::put_appends))]
pub fn write_at<S: Store>(
    code: &Code,
    store: &mut S,
    common: &FrozenStore,
    scopes: &Scopes,
    scope: u32,
    object: u32,
    key: u32,
    value: u32,
    left: u64,
) -> Option<Direct>
    ensures write { let party = S.owner store.old in
        let sight = seen party (S.objects store.old) code.now scopes.now scope in
        let row = node.Put object key value in
        IfSome result (IsAppendRow sight common.now row (S.objects store.new)) }
    ensures left { IfSome result (λ d. d.steps ≤ left) }
    ensures some { IfSome result (λ d. 0 < d.steps) }
    ensures none { IfNone result (S.objects store.new ≡ S.objects store.old) }
    ensures party { S.owner store.new ≡ S.owner store.old }
{
    match code.node(key) {
        Node::Text(_) => put_at(code, store, scopes, scope, object, key, value, left),
        _ => write_element(code, store, common, scopes, scope, object, key, value, left),
    }
}

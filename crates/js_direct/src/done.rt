// Forms that are done at once.

ghost use Rattle.std.specs.Prelude.{◌≡◌, ◌<◌, ◌≤◌, List};
ghost use Rattle.js_code.specs.declared.node.Node.TheVariants as node;
ghost use Rattle.js_direct.specs.Done.{DoesAtOnce, IsDoneRow};
ghost use Rattle.js_direct.specs.Direct.{seen, value_of};
ghost use Rattle.js_store.specs.Frozen.{CommonObject};

use crate::direct::value_into;
use crate::plain::Plain;
use crate::slots::{init_at, set_at};
use crate::writes::write_at;
use js_code::code::Code;
use js_code::node::Node;
use js_state::scopes::Scopes;
use js_store::frozen::FrozenStore;
use js_store::store::Store;

/// A form that gives a value at once and changes nothing, where its steps are at most so many.
#[inline]
fn only_value<S: Store>(
    code: &Code,
    store: &S,
    scopes: &Scopes,
    scope: u32,
    at: u32,
    left: u64,
    given: &mut Plain,
) -> u32
    ensures does { let party = S.owner store.now in
        let sight = seen party (S.objects store.now) code.now scopes.now scope in
        let v = value_of given.new in
        0 < result → (common : List CommonObject)
        → DoesAtOnce sight common at v (S.objects store.now) scopes.now result }
    ensures within { result ≤ left }
{
    let steps = value_into(code, store, scopes, scope, at, given);
    if u64::from(steps) > left {
        return 0;
    }
    steps
}

/// A property, or a new element of an array, gets what a form gives at once, where its steps are at most so many.
#[inline]
fn put_into<S: Store>(
    code: &Code,
    store: &mut S,
    common: &FrozenStore,
    scopes: &Scopes,
    scope: u32,
    object: u32,
    key: u32,
    value: u32,
    left: u64,
    given: &mut Plain,
) -> u32
    ensures does { let party = S.owner store.old in
        let sight = seen party (S.objects store.old) code.now scopes.now scope in
        let row = node.Put object key value in
        let v = value_of given.new in
        0 < result → IsDoneRow sight common.now row v (S.objects store.new) scopes.now result }
    ensures within { result ≤ left }
    ensures none { result ≡ 0 → S.objects store.new ≡ S.objects store.old }
    ensures party { S.owner store.new ≡ S.owner store.old }
{
    match write_at(code, store, common, scopes, scope, object, key, value, left) {
        Some(direct) => {
            *given = direct.value;
            direct.steps
        }
        None => 0,
    }
}

/// A form is done at once, where its steps are at most so many: gives the steps, and none where nothing was done.
#[inline(always)]
pub fn done_at<S: Store>(
    code: &Code,
    store: &mut S,
    common: &FrozenStore,
    scopes: &mut Scopes,
    scope: u32,
    at: u32,
    left: u64,
    given: &mut Plain,
) -> u32
    ensures does { let party = S.owner store.old in
        let sight = seen party (S.objects store.old) code.now scopes.old scope in
        let v = value_of given.new in
        0 < result → DoesAtOnce sight common.now at v (S.objects store.new) scopes.new result }
    ensures within { result ≤ left }
    ensures none { result ≡ 0
        → (S.objects store.new ≡ S.objects store.old) × (scopes.new ≡ scopes.old) }
    ensures party { S.owner store.new ≡ S.owner store.old }
{
    match code.node(at) {
        Node::SetLocal {
            hops,
            slot,
            constant: false,
            value,
        } => set_at(code, store, scopes, scope, hops, slot, value, left, given),
        Node::Init { hops, slot, value } => init_at(
            code, store, scopes, scope, hops, slot, value, left, given,
        ),
        Node::Put { object, key, value } => put_into(
            code, store, common, scopes, scope, object, key, value, left, given,
        ),
        _ => only_value(code, store, scopes, scope, at, left, given),
    }
}

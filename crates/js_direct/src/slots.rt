// Slots that a form writes at once.

ghost use Rattle.std.specs.Prelude.{◌≡◌, ◌<◌, ◌≤◌, List, false, is_some};
ghost use Rattle.js_code.specs.declared.node.Node.TheVariants as node;
ghost use Rattle.js_direct.specs.Done.{IsDoneRow};
ghost use Rattle.js_direct.specs.Direct.{seen, value_of};
ghost use Rattle.js_store.specs.Frozen.{CommonObject};
ghost use Rattle.js_state.specs.Scopes.{outwards, slot_of};

use crate::direct::value_into;
use crate::plain::{Plain, as_value};
use js_code::code::Code;
use js_state::scopes::Scopes;
use js_store::store::Store;

/// Whether a slot so many hops outwards is initialised.
#[inline]
pub(crate) fn has_slot(scopes: &Scopes, scope: u32, hops: u32, slot: u32) -> bool
    ensures { result ≡ is_some (slot_of scopes.now (outwards scopes.now hops scope) slot) }
{
    scopes.value(scopes.outward(scope, hops), slot).is_some()
}

/// An initialised slot gets what a form gives at once, where its steps are at most so many. Gives the steps, and none where nothing was done (ECMA-262, SetMutableBinding).
pub fn set_at<S: Store>(
    code: &Code,
    store: &S,
    scopes: &mut Scopes,
    scope: u32,
    hops: u32,
    slot: u32,
    value: u32,
    left: u64,
    given: &mut Plain,
) -> u32
    ensures does { let party = S.owner store.now in
        let sight = seen party (S.objects store.now) code.now scopes.old scope in
        let row = node.SetLocal hops slot false value in
        let v = value_of given.new in
        0 < result → (common : List CommonObject)
        → IsDoneRow sight common row v (S.objects store.now) scopes.new result }
    ensures within { result ≤ left }
    ensures none { result ≡ 0 → scopes.new ≡ scopes.old }
{
    if !has_slot(scopes, scope, hops, slot) {
        return 0;
    }
    let steps = value_into(code, store, scopes, scope, value, given);
    if steps == 0 || steps == u32::MAX || u64::from(steps) >= left {
        return 0;
    }
    let at = scopes.outward(scope, hops);
    scopes.write(at, slot, as_value(*given));
    steps + 1
}

/// A slot gets its first value, which a form gives at once, where its steps are at most so many. Gives the steps, and none where nothing was done (ECMA-262, InitializeBinding).
pub fn init_at<S: Store>(
    code: &Code,
    store: &S,
    scopes: &mut Scopes,
    scope: u32,
    hops: u32,
    slot: u32,
    value: u32,
    left: u64,
    given: &mut Plain,
) -> u32
    ensures does { let party = S.owner store.now in
        let sight = seen party (S.objects store.now) code.now scopes.old scope in
        let row = node.Init hops slot value in
        let v = value_of given.new in
        0 < result → (common : List CommonObject)
        → IsDoneRow sight common row v (S.objects store.now) scopes.new result }
    ensures within { result ≤ left }
    ensures none { result ≡ 0 → scopes.new ≡ scopes.old }
{
    let steps = value_into(code, store, scopes, scope, value, given);
    if steps == 0 || steps == u32::MAX || u64::from(steps) >= left {
        return 0;
    }
    let at = scopes.outward(scope, hops);
    scopes.write(at, slot, as_value(*given));
    *given = Plain::Undefined;
    steps + 1
}

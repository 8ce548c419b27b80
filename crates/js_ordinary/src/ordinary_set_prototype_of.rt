// How an object gets another prototype.

ghost use Rattle.std.specs.Prelude.{◌≡◌, ◌<◌, IfSome, length, option_map};
ghost use Rattle.js_text.specs.Naming.{naming_of};
ghost use Rattle.js_ordinary.specs.OrdinarySetPrototypeOf.{ends_without, is_proxy, makes_cycle, ordinary_set_prototype_of, own_prototype};
ghost use Rattle.js_ordinary.specs.Targets.{IsSeen, carried_out_at, object_seen, origin_of_target};

use crate::next::Next;
use crate::target::{Target, extensible, prototype};
use js_desc::decision::Decision;
use js_desc::reply::Reply;
use js_desc::same::is_same_function;
use js_store::frozen::FrozenStore;
use js_store::slot::Slot;
use js_store::store::Store;
use lava_base::ids::{ObjId, Ref};

/// Puts another prototype in place, if the object is extensible and no cycle would be made (ECMA-262, OrdinarySetPrototypeOf).
pub fn ordinary_set_prototype_of<S: Store>(
    store: &mut S,
    common: &FrozenStore,
    target: Target,
    proto: Option<Ref>,
) -> Decision<Next>
    requires { IsSeen (S.objects store.old) common.now target }
    ensures decision { let names = naming_of (S.owner store.old).0 in
        let o = object_seen (S.objects store.old) common.now target in
        let cycle = makes_cycle names (S.objects store.old) (origin_of_target target) in
        let verdict = ordinary_set_prototype_of names cycle o proto in
        (result, S.objects store.new) ≡ carried_out_at (S.objects store.old) target verdict }
    ensures party { S.owner store.new ≡ S.owner store.old }
{
    if is_same_function(prototype(store, common, target), proto) {
        return Decision::Done(Reply::Flag(true));
    }
    if !extensible(store, common, target) || would_cycle(store, target, proto) {
        return Decision::Done(Reply::Flag(false));
    }
    if let Target::Own(id) = target {
        store.set_proto(id, proto);
    }
    Decision::Done(Reply::Flag(true))
}

/// Whether an object would stand among the prototypes of its own prototype.
fn would_cycle<S: Store>(store: &S, target: Target, proto: Option<Ref>) -> bool
    ensures { let names = naming_of (S.owner store.now).0 in
        result ≡ makes_cycle names (S.objects store.now) (origin_of_target target) proto }
{
    match target {
        Target::Own(id) => !end_without(store, id, proto),
        Target::Common(_) => false,
    }
}

/// Whether the way up from a prototype ends, and not at this object (ECMA-262, OrdinarySetPrototypeOf, steps 6 and 7).
#[tactic(auto, using(crate::proofs::Chains_laws::within_step))]
fn end_without<S: Store>(store: &S, me: ObjId, proto: Option<Ref>) -> bool
    ensures { let names = naming_of (S.owner store.now).0 in
        let objects = S.objects store.now in
        result ≡ ends_without names objects me.0 (length objects) proto }
{
    let mut above = proto;
    for passed in 0..store.count() {
        match own_prototype(store, above) {
            None => return true,
            Some(id) => {
                if id.0 == me.0 {
                    return false;
                }
                if is_proxy(store.slot(id)) {
                    return true;
                }
                above = store.proto(id);
            }
        }
    }
    false
}

/// The id of a prototype that is an object of the party's own.
fn own_prototype<S: Store>(store: &S, proto: Option<Ref>) -> Option<ObjId>
    ensures found { let names = naming_of (S.owner store.now).0 in
        option_map (λ id. id.0) result ≡ own_prototype names (S.objects store.now) proto }
    ensures within { IfSome result (λ id. id.0 < length (S.objects store.now)) }
{
    match proto {
        Some(Ref::Own { party, id }) if party.0 == store.party().0 && id.0 < store.count() => {
            Some(id)
        }
        _ => None,
    }
}

/// Whether an object has another [[GetPrototypeOf]] than that of ordinary objects.
fn is_proxy(slot: &Slot) -> bool
    ensures { result ≡ is_proxy slot.now }
{
    match slot {
        Slot::Proxy(_) => true,
        _ => false,
    }
}

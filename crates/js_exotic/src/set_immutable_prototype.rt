// How a global refuses another prototype.

ghost use Rattle.std.specs.Prelude.{◌≡◌};
ghost use Rattle.js_text.specs.Naming.{naming_of};
ghost use Rattle.js_ordinary.specs.OrdinarySetPrototypeOf.{makes_cycle};
ghost use Rattle.js_ordinary.specs.Targets.{IsSeen, carried_out_at, object_seen, origin_of_target};
ghost use Rattle.js_exotic.specs.SetImmutablePrototype.{is_immutable, set_immutable_prototype, set_prototype_of};

use js_desc::decision::Decision;
use js_desc::reply::Reply;
use js_desc::same::is_same_function;
use js_ordinary::next::Next;
use js_ordinary::ordinary_set_prototype_of::ordinary_set_prototype_of;
use js_ordinary::target::{Target, marks, prototype};
use js_store::frozen::FrozenStore;
use js_store::store::Store;
use lava_base::ids::Ref;
use lava_base::marks::Class;

/// Puts another prototype in place, if the object takes one: a global takes the one that it has (ECMA-262, SetImmutablePrototype).
pub(crate) fn set_prototype_of<S: Store>(
    store: &mut S,
    common: &FrozenStore,
    target: Target,
    proto: Option<Ref>,
) -> Decision<Next>
    requires { IsSeen (S.objects store.old) common.now target }
    ensures decision { let names = naming_of (S.owner store.old).0 in
        let o = object_seen (S.objects store.old) common.now target in
        let cycle = makes_cycle names (S.objects store.old) (origin_of_target target) in
        let verdict = set_prototype_of names cycle o proto in
        (result, S.objects store.new) ≡ carried_out_at (S.objects store.old) target verdict }
    ensures party { S.owner store.new ≡ S.owner store.old }
{
    if is_immutable(marks(store, common, target).class) {
        let same = is_same_function(prototype(store, common, target), proto);
        Decision::Done(Reply::Flag(same))
    } else {
        ordinary_set_prototype_of(store, common, target, proto)
    }
}

/// Whether an object of this class has an immutable prototype.
fn is_immutable(class: Class) -> bool
    ensures { result ≡ is_immutable class }
{
    match class {
        Class::Global => true,
        _ => false,
    }
}

// An object that a party can look at: one of its own, or one of the common part.

ghost use Rattle.std.specs.Prelude.{◌≡◌, IfOk, IfSome, option_map};
ghost use Rattle.lava_base.specs.Ids.{same_made_symbol};
ghost use Rattle.js_text.specs.Naming.{naming_of, origin_of};
ghost use Rattle.js_store.specs.Objects.{ordinary_get_own_property, ordinary_own_property_keys};
ghost use Rattle.js_ordinary.specs.Origins.{there};
ghost use Rattle.js_ordinary.specs.Targets.{IsSeen, object_seen, origin_of_target};

use js_desc::descriptor::Descriptor;
use js_store::frozen::FrozenStore;
use js_store::slot::Slot;
use js_store::store::Store;
use js_text::value::Key;
use lava_base::ids::{CommonId, ObjId, Ref};
use lava_base::list::List;
use lava_base::marks::Marks;
use lava_base::memory::OutOfMemory;
use std::alloc::Global;

/// An object that a party can look at.
#[derive(Clone, Copy)]
pub enum Target {
    /// One of its own.
    Own(ObjId),
    /// One of the common part.
    Common(CommonId),
}

/// The object of a reference, if it is the store's party's own or of the common part, and if there is one.
pub fn find_target<S: Store>(store: &S, common: &FrozenStore, reference: Ref) -> Option<Target>
    ensures found { let origin = origin_of (S.owner store.now).0 reference in
        option_map origin_of_target result ≡ there (S.objects store.now) common.now origin }
    ensures within { IfSome result (λ target. IsSeen (S.objects store.now) common.now target) }
{
    match reference {
        Ref::Common(id) => {
            if id.0 < common.count() {
                Some(Target::Common(id))
            } else {
                None
            }
        }
        Ref::Own { party, id } => {
            if party.0 == store.party().0 && id.0 < store.count() {
                Some(Target::Own(id))
            } else {
                None
            }
        }
    }
}

/// The own property of a key (ECMA-262, OrdinaryGetOwnProperty).
pub fn own_property<'a, S: Store>(
    store: &'a S,
    common: &'a FrozenStore,
    target: Target,
    key: &Key,
) -> Option<&'a Descriptor>
    requires { IsSeen (S.objects store.now) common.now target }
    ensures { let o = object_seen (S.objects store.now) common.now target in
        let found = ordinary_get_own_property same_made_symbol key.now o.properties in
        option_map (λ d. d.now) result ≡ found }
{
    match target {
        Target::Own(id) => store.own(id, key),
        Target::Common(id) => common.own(id, key),
    }
}

/// The prototype; None is null (ECMA-262, OrdinaryGetPrototypeOf).
pub fn prototype<S: Store>(store: &S, common: &FrozenStore, target: Target) -> Option<Ref>
    requires { IsSeen (S.objects store.now) common.now target }
    ensures { result ≡ (object_seen (S.objects store.now) common.now target).prototype }
{
    match target {
        Target::Own(id) => store.proto(id),
        Target::Common(id) => common.proto(id),
    }
}

/// Whether new properties may be made (ECMA-262, OrdinaryIsExtensible).
pub fn extensible<S: Store>(store: &S, common: &FrozenStore, target: Target) -> bool
    requires { IsSeen (S.objects store.now) common.now target }
    ensures { result ≡ (object_seen (S.objects store.now) common.now target).extensible }
{
    match target {
        Target::Own(id) => store.extensible(id),
        Target::Common(id) => common.extensible(id),
    }
}

/// The own keys in their order (ECMA-262, OrdinaryOwnPropertyKeys).
pub fn own_keys<S: Store>(
    alloc: Global,
    store: &S,
    common: &FrozenStore,
    target: Target,
) -> Result<List<Key>, OutOfMemory>
    requires { IsSeen (S.objects store.now) common.now target }
    ensures { let o = object_seen (S.objects store.now) common.now target in
        IfOk result (λ keys. keys ≡ ordinary_own_property_keys o.properties) }
{
    match target {
        Target::Own(id) => store.keys(alloc, id),
        Target::Common(id) => common.keys(alloc, id),
    }
}

/// What the object keeps besides its properties.
pub fn slot<'a, S: Store>(store: &'a S, common: &'a FrozenStore, target: Target) -> &'a Slot
    requires { IsSeen (S.objects store.now) common.now target }
    ensures { result.now ≡ (object_seen (S.objects store.now) common.now target).slot }
{
    match target {
        Target::Own(id) => store.slot(id),
        Target::Common(id) => common.slot(id),
    }
}

/// What everyone may know of the object.
pub fn marks<S: Store>(store: &S, common: &FrozenStore, target: Target) -> Marks
    requires { IsSeen (S.objects store.now) common.now target }
    ensures { result ≡ (object_seen (S.objects store.now) common.now target).marks }
{
    match target {
        Target::Own(id) => store.marks(id),
        Target::Common(id) => common.marks(id),
    }
}

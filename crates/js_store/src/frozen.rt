// The frozen common part.

ghost use Rattle.std.specs.Prelude.{◌≡◌, ◌<◌, length, map, IfOk, IfSome};
ghost use Rattle.std.specs.Option.{option_map};
ghost use Rattle.lava_base.specs.Ids.{same_made_symbol};
ghost use Rattle.js_text.specs.Length.{length_key};
ghost use Rattle.js_store.specs.Frozen.{IsFixed, IsFrozen, as_read, bare_objects, common_at, common_part, common_ref};
ghost use Rattle.js_store.specs.Objects.{ordinary_get_own_property, ordinary_own_property_keys};
ghost use Rattle.js_store.specs.Order.{IsInOrder};

use crate::flat::FlatStore;
use crate::slot::Slot;
use crate::store::Store;
use js_desc::descriptor::Descriptor;
use js_text::common::common_path;
use js_text::value::Key;
use lava_base::ids::{CommonId, ObjId, PartyId, Ref};
use lava_base::list::List;
use lava_base::marks::Marks;
use lava_base::memory::OutOfMemory;
use std::alloc::Global;
use std::marker::Model;

/// Objects that can't be changed, and that reach each other alone: the part that all parties share. It has no call that writes.
#[derive(Drop)]
pub struct FrozenStore {
    store: FlatStore,
}

impl Model for FrozenStore {
    ghost use Rattle.std.specs.Prelude.{List};
    ghost use Rattle.js_store.specs.Frozen.{CommonObject, IsFrozen, common_part};

    ghost Value = { List CommonObject };

    ghost view = { λ s. common_part s.store.objects };

    ghost invariant = { λ s. IsFrozen s.store.objects };
}

impl FrozenStore {
    /// Takes the objects of a store in which all are frozen and every reference is to one of them, as to a common object: the object with the id N is that with the `CommonId` N. It takes no memory.
    #[tactic(auto, using(crate::proofs::Common_laws::all_read))]
    pub fn freeze(store: FlatStore) -> FrozenStore
        requires { IsFrozen store.objects }
        ensures part { result ≡ common_part store.objects }
        ensures same { map (as_read common_ref) result ≡ store.objects }
    {
        FrozenStore { store }
    }

    /// How many objects there are.
    pub fn count(&self) -> u32
        ensures count { result ≡ length self.now }
        ensures frozen { IsFrozen (map (as_read common_ref) self.now) }
    {
        self.store.count()
    }

    /// What everyone may know of an object.
    pub fn marks(&self, id: CommonId) -> Marks
        requires { id.0 < length self.now }
        ensures { result ≡ (common_at self.now id.0).marks }
    {
        self.store.marks(ObjId(id.0))
    }

    /// The prototype, as a reference of the reader; None is null.
    pub fn proto(&self, id: CommonId) -> Option<Ref>
        requires { id.0 < length self.now }
        ensures { result ≡ (common_at self.now id.0).prototype }
    {
        self.store.proto(ObjId(id.0))
    }

    /// The own property of a key (ECMA-262, OrdinaryGetOwnProperty), with references of the reader.
    pub fn own(&self, id: CommonId, key: &Key) -> Option<&Descriptor>
        requires { id.0 < length self.now }
        ensures own { let found = option_map (λ d. d.now) result in
            let o = common_at self.now id.0 in
            found ≡ ordinary_get_own_property same_made_symbol key.now o.properties }
        ensures fixed { IfSome result (λ d. IsFixed d.now) }
    {
        self.store.own(ObjId(id.0), key)
    }

    /// The own keys: array indices ascending, then other texts in order of creation, then symbols in order of creation (ECMA-262, OrdinaryOwnPropertyKeys).
    pub fn keys(&self, alloc: Global, id: CommonId) -> Result<List<Key>, OutOfMemory>
        requires { id.0 < length self.now }
        ensures keys { let o = common_at self.now id.0 in
            IfOk result (λ keys. keys ≡ ordinary_own_property_keys o.properties) }
        ensures order { IsInOrder same_made_symbol (common_at self.now id.0).properties }
    {
        self.store.keys(alloc, ObjId(id.0))
    }

    /// The key `length`, ready to be looked up.
    pub fn length_key(&self) -> &Key
        requires { 0 < length self.now }
        ensures { result.now ≡ length_key }
    {
        self.store.length_key()
    }

    /// Whether new properties may be made: never.
    pub fn extensible(&self, id: CommonId) -> bool
        requires { id.0 < length self.now }
        ensures { result ≡ (common_at self.now id.0).extensible }
    {
        self.store.extensible(ObjId(id.0))
    }

    /// What the object keeps besides its properties, with references of the reader.
    pub fn slot(&self, id: CommonId) -> &Slot
        requires { id.0 < length self.now }
        ensures { result.now ≡ (common_at self.now id.0).slot }
    {
        self.store.slot(ObjId(id.0))
    }
}

/// A common part with an empty frozen object without a prototype at every place.
pub fn bare_common(alloc: Global) -> Result<FrozenStore, OutOfMemory>
    ensures { IfOk result (λ store. store ≡ bare_objects) }
{
    let mut store = FlatStore::empty(alloc, PartyId(0));
    let mut at = 0;
    while common_path(CommonId(at)).is_some() {
        store.push_bare()?;
        at += 1;
    }
    Ok(FrozenStore::freeze(store))
}

// A store that keeps each object with a list of its properties.

ghost use Rattle.std.specs.Prelude.{◌≡◌, ◌++◌, ◌∷◌, ◌<◌, [], length, map, IfOk, IfSome, OnOk, OnErr, Some};
ghost use Rattle.js_text.specs.Length.{length_key};
ghost use Rattle.js_store.specs.Frozen.{bare};

use crate::object::FlatObject;
use crate::slot::Slot;
use crate::store::{PLAIN_MARKS, Store};
use js_desc::descriptor::{Change, Descriptor};
use js_text::length::length_key;
use js_text::native::Native;
use js_text::value::{Key, Value};
use lava_base::ids::{ObjId, PartyId, Ref};
use lava_base::list::List;
use lava_base::marks::Marks;
use lava_base::memory::OutOfMemory;
use std::alloc::Global;
use std::marker::Model;

/// A party's objects, one after the other, each with its properties. `make` takes amortised constant time; so do `own` and `apply`, but for array indices far apart, which take time logarithmic in their count; `remove` takes time linear in the properties after the one that goes.
#[derive(Drop)]
pub struct FlatStore {
    alloc: Global,
    party: PartyId,
    objects: Vec<FlatObject>,
    /// The key `length`, from the first object on.
    length_key: Option<Key>,
}

impl Model for FlatStore {
    ghost use Rattle.std.specs.Prelude.{◌≡◌, ◌<◌, ◌^◌, length, IsSome, IfSome};
    ghost use Rattle.js_text.specs.Length.{length_key as ready_key};
    ghost use Rattle.js_store.specs.Objects.{Owned};

    ghost Value = { Owned };

    ghost view = { λ s. record { party = s.party; objects = s.objects.items } };

    ghost invariant = { λ s. (length s.objects.items < 2 ^ 32)
        × (0 < length s.objects.items → IsSome s.length_key)
        × IfSome s.length_key (λ key. key ≡ ready_key) };
}

impl FlatStore {
    /// Makes an empty frozen object without a prototype.
    pub(crate) fn push_bare(&mut self) -> Result<(), OutOfMemory>
        ensures ok { OnOk result (self.new.objects ≡ self.old.objects ++ bare ∷ []) }
    {
        if self.objects.len() >= u32::MAX as usize {
            return Err(OutOfMemory);
        }
        make_ready(self.alloc, &mut self.length_key)?;
        let mut object = FlatObject::new(self.alloc, None, PLAIN_MARKS, Slot::Plain);
        object.prevent();
        self.objects.push(object)?;
        Ok(())
    }
}

/// Makes the key `length`, where it is not there yet.
fn make_ready(alloc: Global, ready: &mut Option<Key>) -> Result<(), OutOfMemory>
    requires { IfSome ready.old (λ key. key ≡ length_key) }
    ensures ok { OnOk result (ready.new ≡ Some length_key) }
    ensures err { OnErr result (ready.new ≡ ready.old) }
{
    if ready.is_none() {
        *ready = Some(length_key(alloc)?);
    }
    Ok(())
}

impl Store for FlatStore {
    ghost objects = { λ s. s.objects };

    ghost owner = { λ s. s.party };

    fn empty(alloc: Global, party: PartyId) -> FlatStore {
        FlatStore {
            alloc,
            party,
            objects: Vec::new(alloc),
            length_key: None,
        }
    }

    fn party(&self) -> PartyId {
        self.party
    }

    fn make(&mut self, proto: Option<Ref>, marks: Marks, slot: Slot) -> Result<ObjId, OutOfMemory> {
        let id = self.objects.len();
        if id >= u32::MAX as usize {
            return Err(OutOfMemory);
        }
        make_ready(self.alloc, &mut self.length_key)?;
        let object = FlatObject::new(self.alloc, proto, marks, slot);
        self.objects.push(object)?;
        Ok(ObjId(id as u32))
    }

    fn count(&self) -> u32 {
        self.objects.len() as u32
    }

    fn marks(&self, id: ObjId) -> Marks {
        self.objects[id.0 as usize].marks()
    }

    fn proto(&self, id: ObjId) -> Option<Ref> {
        self.objects[id.0 as usize].prototype()
    }

    fn set_proto(&mut self, id: ObjId, proto: Option<Ref>) {
        self.objects[id.0 as usize].set_prototype(proto);
    }

    fn own(&self, id: ObjId, key: &Key) -> Option<&Descriptor> {
        self.objects[id.0 as usize].own(key)
    }

    fn apply(&mut self, id: ObjId, key: Key, change: Change) -> Result<(), OutOfMemory> {
        self.objects[id.0 as usize].apply(key, change)
    }

    fn replace(&mut self, id: ObjId, key: Key, property: Descriptor) -> bool {
        self.objects[id.0 as usize].replace(key, property)
    }

    fn remove(&mut self, id: ObjId, key: &Key) {
        self.objects[id.0 as usize].remove(key);
    }

    fn keys(&self, alloc: Global, id: ObjId) -> Result<List<Key>, OutOfMemory> {
        self.objects[id.0 as usize].keys(alloc)
    }

    fn last_index(&self, id: ObjId) -> Option<u32> {
        self.objects[id.0 as usize].last_index()
    }

    fn length_key(&self) -> &Key {
        self.length_key.as_ref().unwrap()
    }

    fn extensible(&self, id: ObjId) -> bool {
        self.objects[id.0 as usize].extensible()
    }

    fn prevent(&mut self, id: ObjId) {
        self.objects[id.0 as usize].prevent();
    }

    fn slot(&self, id: ObjId) -> &Slot {
        self.objects[id.0 as usize].slot()
    }

    fn swap_slot(&mut self, id: ObjId, slot: Slot) -> Slot {
        self.objects[id.0 as usize].swap_slot(slot)
    }

    fn collect(
        &mut self,
        id: ObjId,
        which: Native,
        args: &[Value],
    ) -> Result<Option<Value>, OutOfMemory> {
        self.objects[id.0 as usize].collect(self.alloc, which, args)
    }
}

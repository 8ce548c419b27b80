// What a store is: a list of objects, however it keeps them.

ghost use Rattle.std.specs.Prelude.{◌≡◌, ◌+◌, ◌<◌, ◌++◌, ◌∷◌, [], List, length, map, is_some, IfOk, OnOk, OnErr, option_map};
ghost use Rattle.lava_base.specs.Ids.{same_made_symbol, same_ref};
ghost use Rattle.lava_base.specs.declared.ids.MadeSymbol.{MadeSymbol};
ghost use Rattle.lava_base.specs.declared.ids.Ref.{Ref};
ghost use Rattle.lava_base.specs.declared.ids.PartyId.{PartyId};
ghost use Rattle.js_text.specs.Length.{length_key};
ghost use Rattle.js_text.specs.Values.{same_value};
ghost use Rattle.js_slots.specs.TableAnswers.{table_answer};
ghost use Rattle.js_store.specs.Objects.{Object, fresh, object_at, at_place, ordinary_get_own_property, ordinary_own_property_keys, last_index, with_prototype, with_change, with_replaced, without_property, not_extensible, with_slot};
ghost use Rattle.js_store.specs.Order.{IsInOrder};
ghost use Rattle.js_store.specs.Tables.{entries_of, table_entry, with_places};

use crate::slot::Slot;
use js_desc::descriptor::{Change, Descriptor};
use js_text::native::Native;
use js_text::value::{Key, Value};
use lava_base::ids::{ObjId, PartyId, Ref};
use lava_base::list::List;
use lava_base::marks::{Class, Marks};
use lava_base::memory::OutOfMemory;
use std::alloc::Global;

/// The marks of an ordinary object that is not callable.
pub const PLAIN_MARKS: Marks = Marks {
    class: Class::Object,
    callable: false,
    constructor: false,
};

/// A party's objects: a list, in which an object is found by its id, counted from 0. No object leaves the list, so an id is never used again.
///
/// An object has a prototype, a truth value that says whether it is extensible, own properties, a slot and marks. Its properties stand in one normal order, which all calls keep: array indices ascending, then the other keys in order of creation.
pub trait Store: Drop {
    /// The objects, however they are kept.
    ghost objects: { Self → List (Object Ref MadeSymbol) };

    /// The party whose objects they are.
    ghost owner: { Self → PartyId };

    /// A store without objects. It takes no memory.
    fn empty(alloc: Global, party: PartyId) -> Self
        ensures none { objects result ≡ [] }
        ensures party { owner result ≡ party };

    /// The party whose objects they are.
    fn party(&self) -> PartyId
        ensures { result ≡ owner self.now };

    /// Makes an extensible object without properties, at the end of the list. Want of memory is answered too where the count would pass 4,294,967,295; the store is then as before.
    fn make(&mut self, proto: Option<Ref>, marks: Marks, slot: Slot) -> Result<ObjId, OutOfMemory>
        ensures id { IfOk result (λ id. id.0 ≡ length (objects self.old)) }
        ensures ok { let made = fresh proto marks slot in
            OnOk result (objects self.new ≡ objects self.old ++ made ∷ []) }
        ensures err { OnErr result (objects self.new ≡ objects self.old) }
        ensures party { owner self.new ≡ owner self.old };

    /// How many objects there are.
    fn count(&self) -> u32
        ensures { result ≡ length (objects self.now) };

    /// What everyone may know of an object.
    fn marks(&self, id: ObjId) -> Marks
        requires { id.0 < length (objects self.now) }
        ensures { result ≡ (object_at (objects self.now) id.0).marks };

    /// The prototype; None is null (ECMA-262, OrdinaryGetPrototypeOf).
    fn proto(&self, id: ObjId) -> Option<Ref>
        requires { id.0 < length (objects self.now) }
        ensures { result ≡ (object_at (objects self.now) id.0).prototype };

    /// Puts another prototype in place, whatever the object is.
    fn set_proto(&mut self, id: ObjId, proto: Option<Ref>)
        requires { id.0 < length (objects self.old) }
        ensures objects { let after = with_prototype proto in
            objects self.new ≡ at_place (objects self.old) id.0 after }
        ensures party { owner self.new ≡ owner self.old };

    /// The own property of a key (ECMA-262, OrdinaryGetOwnProperty).
    fn own(&self, id: ObjId, key: &Key) -> Option<&Descriptor>
        requires { id.0 < length (objects self.now) }
        ensures { let found = option_map (λ d. d.now) result in
            let o = object_at (objects self.now) id.0 in
            found ≡ ordinary_get_own_property same_made_symbol key.now o.properties };

    /// Writes a property as a change says. A key that is there keeps its place, and a new one goes to its place in the normal order.
    fn apply(&mut self, id: ObjId, key: Key, change: Change) -> Result<(), OutOfMemory>
        requires { id.0 < length (objects self.old) }
        ensures ok { let after = with_change same_made_symbol key change in
            OnOk result (objects self.new ≡ at_place (objects self.old) id.0 after) }
        ensures err { OnErr result (objects self.new ≡ objects self.old) }
        ensures party { owner self.new ≡ owner self.old };

    /// Puts another property in the place of that of a key, which keeps its place, and tells whether there is one. It takes no memory.
    fn replace(&mut self, id: ObjId, key: Key, property: Descriptor) -> bool
        requires { id.0 < length (objects self.old) }
        ensures found { let ps = (object_at (objects self.old) id.0).properties in
            result ≡ is_some (ordinary_get_own_property same_made_symbol key ps) }
        ensures objects { let after = with_replaced same_made_symbol key property in
            objects self.new ≡ at_place (objects self.old) id.0 after }
        ensures party { owner self.new ≡ owner self.old };

    /// Takes the property of a key out, if there is one.
    fn remove(&mut self, id: ObjId, key: &Key)
        requires { id.0 < length (objects self.old) }
        ensures objects { let after = without_property same_made_symbol key.now in
            objects self.new ≡ at_place (objects self.old) id.0 after }
        ensures party { owner self.new ≡ owner self.old };

    /// The own keys: array indices ascending, then other texts in order of creation, then symbols in order of creation (ECMA-262, OrdinaryOwnPropertyKeys).
    fn keys(&self, alloc: Global, id: ObjId) -> Result<List<Key>, OutOfMemory>
        requires { id.0 < length (objects self.now) }
        ensures keys { let o = object_at (objects self.now) id.0 in
            IfOk result (λ keys. keys ≡ ordinary_own_property_keys o.properties) }
        ensures order { IsInOrder same_made_symbol (object_at (objects self.now) id.0).properties };

    /// The last array index that has a property, which is the greatest, if there is one.
    fn last_index(&self, id: ObjId) -> Option<u32>
        requires { id.0 < length (objects self.now) }
        ensures last { result ≡ last_index (object_at (objects self.now) id.0).properties }
        ensures order { IsInOrder same_made_symbol (object_at (objects self.now) id.0).properties };

    /// The key `length`, ready to be looked up. A store has it from its first object on.
    fn length_key(&self) -> &Key
        requires { 0 < length (objects self.now) }
        ensures { result.now ≡ length_key };

    /// Whether new properties may be made (ECMA-262, OrdinaryIsExtensible).
    fn extensible(&self, id: ObjId) -> bool
        requires { id.0 < length (objects self.now) }
        ensures { result ≡ (object_at (objects self.now) id.0).extensible };

    /// From now on no new properties may be made (ECMA-262, OrdinaryPreventExtensions).
    fn prevent(&mut self, id: ObjId)
        requires { id.0 < length (objects self.old) }
        ensures objects { objects self.new ≡ at_place (objects self.old) id.0 not_extensible }
        ensures party { owner self.new ≡ owner self.old };

    /// What the object keeps besides its properties.
    fn slot(&self, id: ObjId) -> &Slot
        requires { id.0 < length (objects self.now) }
        ensures { result.now ≡ (object_at (objects self.now) id.0).slot };

    /// Puts another slot in place, and gives the old one. It takes no memory.
    fn swap_slot(&mut self, id: ObjId, slot: Slot) -> Slot
        requires { id.0 < length (objects self.old) }
        ensures given { result ≡ (object_at (objects self.old) id.0).slot }
        ensures objects { objects self.new ≡ at_place (objects self.old) id.0 (with_slot slot) }
        ensures party { owner self.new ≡ owner self.old };

    /// What the table of an object answers to a native that looks into it, with the operands after the table, and what becomes of the table; no other object is touched. Want of memory is answered too where the object has no table; all is then as before. `FlatStore` takes amortised constant time, but for `mapNext`, which takes time linear in the dead places that it passes, and for `mapClear`, which takes time linear in all.
    fn collect(
        &mut self,
        id: ObjId,
        which: Native,
        args: &[Value],
    ) -> Result<Option<Value>, OutOfMemory>
        requires { id.0 < length (objects self.old) }
        ensures answer { let same = same_value same_ref same_made_symbol in
            let table = map table_entry (entries_of (object_at (objects self.old) id.0).slot) in
            IfOk result (λ v. v ≡ (table_answer same which args.now table).0) }
        ensures objects { let same = same_value same_ref same_made_symbol in
            let table = map table_entry (entries_of (object_at (objects self.old) id.0).slot) in
            let after = with_places (table_answer same which args.now table).1 in
            OnOk result (objects self.new ≡ at_place (objects self.old) id.0 after) }
        ensures err { OnErr result (objects self.new ≡ objects self.old) }
        ensures party { owner self.new ≡ owner self.old };
}

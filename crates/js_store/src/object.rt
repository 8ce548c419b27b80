// One object of a flat store.

ghost use Rattle.std.specs.Prelude.{◌≡◌, is_some, map, OnOk, OnErr, IfOk};
ghost use Rattle.std.specs.Option.{option_map};
ghost use Rattle.lava_base.specs.Ids.{same_ref, same_made_symbol};
ghost use Rattle.js_text.specs.Values.{same_value};
ghost use Rattle.js_slots.specs.TableAnswers.{table_answer};
ghost use Rattle.js_store.specs.Objects.{fresh, ordinary_get_own_property, ordinary_own_property_keys, last_index, with_prototype, with_change, with_replaced, without_property, not_extensible, with_slot};
ghost use Rattle.js_store.specs.Order.{IsInOrder};
ghost use Rattle.js_store.specs.Tables.{entries_of, table_entry, with_places};

use crate::properties::Properties;
use crate::slot::Slot;
use crate::table_index::{TableIndex, collect};
use js_desc::descriptor::{Change, Descriptor};
use js_text::native::Native;
use js_text::value::{Key, Value};
use lava_base::ids::Ref;
use lava_base::list::List;
use lava_base::marks::Marks;
use lava_base::memory::OutOfMemory;
use std::alloc::Global;
use std::marker::Model;
use std::mem;

/// An object: its prototype, whether it is extensible, its own properties, its slot and its marks. A table has an index beside its places once a native has looked into it.
#[derive(Drop)]
pub(crate) struct FlatObject {
    prototype: Option<Ref>,
    extensible: bool,
    properties: Properties,
    slot: Slot,
    index: Option<Box<TableIndex>>,
    marks: Marks,
}

impl Model for FlatObject {
    ghost use Rattle.std.specs.Prelude.{IfSome};
    ghost use Rattle.lava_base.specs.declared.ids.MadeSymbol.{MadeSymbol};
    ghost use Rattle.lava_base.specs.declared.ids.Ref.{Ref};
    ghost use Rattle.js_store.specs.Indexed.{IsIndexedBy};
    ghost use Rattle.js_store.specs.Objects.{Object};

    ghost Value = { Object Ref MadeSymbol };

    ghost view = { λ o. record {
      prototype = o.prototype;
      extensible = o.extensible;
      properties = o.properties;
      slot = o.slot;
      marks = o.marks;
    } };

    ghost invariant = { λ o. IfSome o.index (λ index. IsIndexedBy o.slot index.value) };
}

impl FlatObject {
    /// An extensible object without properties. It takes no memory.
    pub(crate) fn new(alloc: Global, prototype: Option<Ref>, marks: Marks, slot: Slot) -> FlatObject
        ensures { result ≡ fresh prototype marks slot }
    {
        FlatObject {
            prototype,
            extensible: true,
            properties: Properties::new(alloc),
            slot,
            index: None,
            marks,
        }
    }

    /// The prototype; None is null.
    pub(crate) fn prototype(&self) -> Option<Ref>
        ensures { result ≡ self.now.prototype }
    {
        self.prototype
    }

    /// Puts another prototype in place.
    pub(crate) fn set_prototype(&mut self, prototype: Option<Ref>)
        ensures { self.new ≡ with_prototype prototype self.old }
    {
        self.prototype = prototype;
    }

    /// Whether new properties may be made.
    pub(crate) fn extensible(&self) -> bool
        ensures { result ≡ self.now.extensible }
    {
        self.extensible
    }

    /// From now on no new properties may be made.
    pub(crate) fn prevent(&mut self)
        ensures { self.new ≡ not_extensible self.old }
    {
        self.extensible = false;
    }

    /// What everyone may know of it.
    pub(crate) fn marks(&self) -> Marks
        ensures { result ≡ self.now.marks }
    {
        self.marks
    }

    /// What it keeps besides its properties.
    pub(crate) fn slot(&self) -> &Slot
        ensures { result.now ≡ self.now.slot }
    {
        &self.slot
    }

    /// Puts another slot in place, and gives the old one.
    pub(crate) fn swap_slot(&mut self, slot: Slot) -> Slot
        ensures given { result ≡ self.old.slot }
        ensures object { self.new ≡ with_slot slot self.old }
    {
        self.index = None;
        mem::replace(&mut self.slot, slot)
    }

    /// What the object's table answers to a native that looks into it, and what becomes of the table. Want of memory is answered too where the object has no table.
    pub(crate) fn collect(
        &mut self,
        alloc: Global,
        which: Native,
        args: &[Value],
    ) -> Result<Option<Value>, OutOfMemory>
        ensures answer { let same = same_value same_ref same_made_symbol in
            let table = map table_entry (entries_of self.old.slot) in
            IfOk result (λ v. v ≡ (table_answer same which args.now table).0) }
        ensures object { let same = same_value same_ref same_made_symbol in
            let table = map table_entry (entries_of self.old.slot) in
            let changed = (table_answer same which args.now table).1 in
            OnOk result (self.new ≡ with_places changed self.old) }
        ensures err { OnErr result (self.new ≡ self.old) }
    {
        match &mut self.slot {
            Slot::Table(entries) => collect(alloc, entries, &mut self.index, which, args),
            // No other object is a collection.
            _ => Err(OutOfMemory),
        }
    }

    /// The own property of a key.
    #[inline]
    pub(crate) fn own(&self, key: &Key) -> Option<&Descriptor>
        ensures { let found = option_map (λ d. d.now) result in
            found ≡ ordinary_get_own_property same_made_symbol key.now self.now.properties }
    {
        self.properties.own(key)
    }

    /// Writes a property as a change says.
    pub(crate) fn apply(&mut self, key: Key, change: Change) -> Result<(), OutOfMemory>
        ensures ok { OnOk result (self.new ≡ with_change same_made_symbol key change self.old) }
        ensures err { OnErr result (self.new ≡ self.old) }
    {
        match change {
            Change::Nothing => Ok(()),
            Change::Write(property) => self.properties.write(key, property),
        }
    }

    /// Puts another property in the place of that of a key, and tells whether there is one. It takes no memory.
    pub(crate) fn replace(&mut self, key: Key, property: Descriptor) -> bool
        ensures found { let ps = self.old.properties in
            result ≡ is_some (ordinary_get_own_property same_made_symbol key ps) }
        ensures object { self.new ≡ with_replaced same_made_symbol key property self.old }
    {
        self.properties.replace(key, property)
    }

    /// The last array index that has a property, if there is one.
    pub(crate) fn last_index(&self) -> Option<u32>
        ensures last { result ≡ last_index self.now.properties }
        ensures order { IsInOrder same_made_symbol self.now.properties }
    {
        self.properties.last_index()
    }

    /// Takes the property of a key out, if there is one.
    pub(crate) fn remove(&mut self, key: &Key)
        ensures { self.new ≡ without_property same_made_symbol key.now self.old }
    {
        self.properties.remove(key);
    }

    /// The own keys.
    pub(crate) fn keys(&self, alloc: Global) -> Result<List<Key>, OutOfMemory>
        ensures keys { IfOk result (λ keys. keys ≡ ordinary_own_property_keys self.now.properties) }
        ensures order { IsInOrder same_made_symbol self.now.properties }
    {
        self.properties.keys(alloc)
    }
}

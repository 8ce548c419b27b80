// A frame: the slots of a scope, with an index of their names.

ghost use Rattle.std.specs.Prelude.{◌≡◌, ◌++◌, ◌∷◌, ◌<◌, ◌^◌, [], length, OnOk, OnErr, IfOk, Some, true, false, slice_get};
ghost use Rattle.std.specs.Option.{option_copied};
ghost use Rattle.std.specs.HashMap.{IsUnchanged, Updates};
ghost use Rattle.js_text.specs.Texts.{same_units};
ghost use Rattle.js_frames.specs.Frames as spec;

use js_names::declared::DeclaredName;
use js_text::native::Native;
use js_text::text::Text;
use lava_base::ids::CommonId;
use lava_base::memory::OutOfMemory;
use sqlite_items::Items;
use std::alloc::Global;
use std::collections::HashMap;
use std::marker::Model;

/// What a name stands for.
#[derive(Clone, Copy, Debug)]
pub enum Referent {
    /// A slot that may be assigned.
    Variable,
    /// A slot that is initialised once.
    Constant,
    /// An object of the common part: a name that the prelude declares.
    CommonObject(CommonId),
    /// An operation of the machine: a name of the prelude that begins with `$`.
    Operation(Native),
    /// `Symbol.iterator`: the name `$iterator` of the prelude.
    IteratorSymbol,
}

/// A slot of a scope. A slot that has no name of the source has the empty name.
#[derive(Drop)]
pub struct SlotName {
    pub name: Text,
    pub referent: Referent,
}

/// A slot that was found in a frame: its place, and what its name stands for.
#[derive(Clone, Copy, Debug)]
pub struct FoundSlot {
    pub slot: usize,
    pub referent: Referent,
}

impl SlotName {
    /// The slot of a declared name.
    pub fn of(declared: &DeclaredName) -> Result<SlotName, OutOfMemory>
        ensures { IfOk result (λ slot. slot ≡ spec.declared_slot declared.now) }
    {
        Ok(SlotName {
            name: declared.name.copy()?,
            referent: referent_of(declared.constant),
        })
    }
}

/// What a name of the source stands for.
pub fn referent_of(constant: bool) -> Referent
    ensures { result ≡ spec.referent_of constant }
{
    if constant {
        Referent::Constant
    } else {
        Referent::Variable
    }
}

/// The slots of a scope, in order. `find`, `push` and `add` take constant time, amortised.
#[derive(Drop)]
pub struct Frame {
    slots: Items<SlotName>,
    /// Where each name stands first.
    index: HashMap<Text, FoundSlot>,
}

impl Model for Frame {
    ghost use Rattle.std.specs.Prelude.{List};
    ghost use Rattle.std.specs.HashMap.{get};
    ghost use Rattle.js_text.specs.Texts.{same_units};
    ghost use Rattle.js_frames.specs.Frames.{IsIndexed};
    ghost use Rattle.js_frames.specs.declared.frame.SlotName.{SlotName};

    ghost Value = { List SlotName };

    ghost view = { λ s. s.slots };

    ghost invariant = { λ s. IsIndexed (λ n. get same_units s.index n) s.slots };
}

/// Appends a slot, and notes its name in the index. After a refusal both are as before.
fn append(
    slots: &mut Items<SlotName>,
    index: &mut HashMap<Text, FoundSlot>,
    slot: SlotName,
) -> Result<(), OutOfMemory>
    ensures ok { OnOk result (slots.new ≡ slots.old ++ slot ∷ []) }
    ensures noted { let found = spec.found_at (length slots.old) slot in
        OnOk result (Updates same_units index.old index.new slot.name (Some found)) }
    ensures err { OnErr result (slots.new ≡ slots.old) }
    ensures unnoted { OnErr result (IsUnchanged index.old index.new) }
{
    let found = FoundSlot {
        slot: slots.len(),
        referent: slot.referent,
    };
    let key = slot.name.copy()?;
    slots.push(slot)?;
    match index.insert(key, found) {
        Ok(_) => Ok(()),
        Err(_) => {
            slots.pop();
            Err(OutOfMemory)
        }
    }
}

impl Frame {
    /// A scope without slots. It takes no memory.
    pub fn new(alloc: Global) -> Frame
        ensures { result ≡ [] }
    {
        Frame {
            slots: Items::new(alloc),
            index: HashMap::new(alloc),
        }
    }

    /// How many slots there are.
    pub fn len(&self) -> usize
        ensures { result ≡ length self.now }
    {
        self.slots.len()
    }

    /// The slots.
    pub fn as_slice(&self) -> &[SlotName]
        ensures { result.now ≡ self.now }
    {
        self.slots.as_slice()
    }

    /// The first slot of a name, if there is one (ECMA-262, HasBinding).
    pub fn find(&self, name: &Text) -> Option<FoundSlot>
        ensures { result ≡ spec.found_in name.now self.now }
    {
        self.index.get(name).copied()
    }

    /// Whether a slot has this name.
    pub fn has(&self, name: &Text) -> bool
        ensures { result ≡ spec.has_slot name.now self.now }
    {
        self.find(name).is_some()
    }

    /// Appends a slot.
    pub fn push(&mut self, slot: SlotName) -> Result<(), OutOfMemory>
        ensures ok { OnOk result (self.new ≡ self.old ++ slot ∷ []) }
    {
        if self.has(&slot.name) {
            self.slots.push(slot)?;
            return Ok(());
        }
        append(&mut self.slots, &mut self.index, slot)?;
        Ok(())
    }

    /// Appends the slot of a declared name, unless a slot has that name already.
    pub fn add(&mut self, declared: &DeclaredName) -> Result<(), OutOfMemory>
        ensures { OnOk result (self.new ≡ spec.with_name self.old declared.now) }
    {
        if self.has(&declared.name) {
            return Ok(());
        }
        self.push(SlotName::of(declared)?)
    }

    /// Appends the slots of declared names, of each name once.
    pub fn add_all(&mut self, mut list: &[DeclaredName]) -> Result<(), OutOfMemory>
        ensures { OnOk result (self.new ≡ spec.with_names self.old list.entry.now) }
    {
        while let [first, rest @ ..] = list {
            self.add(first)?;
            list = rest;
        }
        Ok(())
    }
}

/// The frame of declared names.
pub fn frame_of(alloc: Global, list: &[DeclaredName]) -> Result<Frame, OutOfMemory>
    ensures { IfOk result (λ frame. frame ≡ spec.with_names [] list.now) }
{
    let mut frame = Frame::new(alloc);
    frame.add_all(list)?;
    Ok(frame)
}

// Scopes: a list of heads, and one list of the slots of all.

ghost use Rattle.std.specs.Prelude.{◌≡◌, ◌<◌, ◌+◌, ◌++◌, ◌∷◌, [], slice_set, IfOk, OnOk, OnErr, Some, None, MatchOption, get_or, length, replicate, take, drop, ◌≤◌};
ghost use Rattle.std.specs.Option.{option_map};
ghost use Rattle.lava_base.specs.declared.ids.MadeSymbol.{MadeSymbol};
ghost use Rattle.lava_base.specs.declared.ids.Ref.{Ref};
ghost use Rattle.js_state.specs.LaidOut.{IsNoPlace, IsPlace};
ghost use Rattle.js_state.specs.Scopes.{Scope, outwards, scope_at, slot_of, with_slot};

use crate::head::Head;
use js_text::copy::copy_value;
use js_text::value::Value;
use lava_base::memory::OutOfMemory;
use std::alloc::Global;
use std::marker::Model;

/// The scopes of a party (ECMA-262, "Declarative Environment Records"), by their numbers from 0. There are at most 4,294,967,294, with as many slots together.
#[derive(Drop)]
pub struct Scopes {
    heads: Vec<Head>,
    slots: Vec<Option<Value>>,
}

impl Model for Scopes {
    ghost use Rattle.std.specs.Prelude.{List, length};
    ghost use Rattle.lava_base.specs.declared.ids.MadeSymbol.{MadeSymbol};
    ghost use Rattle.lava_base.specs.declared.ids.Ref.{Ref};
    ghost use Rattle.js_state.specs.Scopes.{Scope};
    ghost use Rattle.js_state.specs.LaidOut.{scopes_of, IsLaidOut};

    ghost Value = { List (Scope Ref MadeSymbol) };

    ghost view = { λ s. scopes_of s.heads.items s.slots.items };

    ghost invariant = { λ s. IsLaidOut 0 s.heads.items (length s.slots.items) };
}

impl Scopes {
    /// No scope. It takes no memory.
    pub fn new(alloc: Global) -> Scopes
        ensures { result ≡ [] }
    {
        Scopes {
            heads: Vec::new(alloc),
            slots: Vec::new(alloc),
        }
    }

    /// How many scopes there are.
    #[tactic(auto, using(crate::proofs::Laid_out::as_many))]
    pub fn len(&self) -> usize
        ensures { result ≡ length self.now }
    {
        self.heads.len()
    }

    /// The scope in which one stands; 0 where there is no such scope.
    #[inline]
    #[tactic(auto, using(crate::proofs::Laid_out::outer_found, crate::proofs::Laid_out::outer_missing))]
    pub fn outer(&self, scope: u32) -> u32
        ensures { result ≡ (scope_at self.now scope).outer }
    {
        if (scope as usize) < self.heads.len() {
            self.heads[scope as usize].outer
        } else {
            0
        }
    }

    /// The scope that is so many hops outwards.
    #[inline]
    pub fn outward(&self, scope: u32, hops: u32) -> u32
        ensures { result ≡ outwards self.now hops scope }
    {
        let mut at = scope;
        let mut left = hops;
        while left > 0 {
            at = self.outer(at);
            left -= 1;
        }
        at
    }

    /// The value of a slot, if it is initialised.
    #[inline]
    pub fn value(&self, scope: u32, slot: u32) -> Option<&Value>
        ensures { option_map (λ v. v.now) result ≡ slot_of self.now scope slot }
    {
        match place_of(&self.heads, scope, slot) {
            Some(at) => self.slots[at].as_ref(),
            None => None,
        }
    }

    /// Gives a slot a value; nothing happens where there is no such slot.
    #[inline]
    pub fn write(&mut self, scope: u32, slot: u32, value: Value)
        ensures { self.new ≡ with_slot self.old scope slot value }
    {
        if let Some(at) = place_of(&self.heads, scope, slot) {
            put(&mut self.slots, at, value);
        }
    }

    /// Opens a scope with so many slots, none of which is initialised, in another one, and gives its number. Want of memory is answered too where there would be 4,294,967,295 scopes or slots.
    #[tactic(auto, using(crate::proofs::Laid_out::opened_empty, crate::proofs::Laid_out::laid_empty, crate::proofs::Laid_out::as_many, crate::proofs::Laid_out::first_part))]
    pub fn open_empty(&mut self, outer: u32, count: u32) -> Result<u32, OutOfMemory>
        ensures ok { OnOk result (self.new ≡ self.old
            ++ record { outer = outer; slots = replicate count None } ∷ []) }
        ensures number { IfOk result (λ id. id ≡ length self.old) }
        ensures err { OnErr result (self.new ≡ self.old) }
    {
        let id = self.heads.len();
        let start = self.slots.len();
        if id >= u32::MAX as usize || start >= (u32::MAX - count) as usize {
            return Err(OutOfMemory);
        }
        add_empty(&mut self.slots, count)?;
        let head = Head {
            outer,
            start: start as u32,
            count,
        };
        if self.heads.push(head).is_err() {
            self.slots.truncate(start);
            return Err(OutOfMemory);
        }
        Ok(id as u32)
    }

    /// Opens a scope with the slots of another one, where that one stands, and gives its number. Want of memory is answered too where there would be 4,294,967,295 scopes or slots.
    #[tactic(auto, using(crate::proofs::Laid_out::opened_copy, crate::proofs::Laid_out::laid_copy, crate::proofs::Laid_out::copy_within, crate::proofs::Laid_out::no_copy, crate::proofs::Laid_out::as_many, crate::proofs::Laid_out::first_part))]
    pub fn open_copy(&mut self, scope: u32) -> Result<u32, OutOfMemory>
        ensures ok { OnOk result (self.new ≡ self.old ++ scope_at self.old scope ∷ []) }
        ensures number { IfOk result (λ id. id ≡ length self.old) }
        ensures err { OnErr result (self.new ≡ self.old) }
    {
        if (scope as usize) >= self.heads.len() {
            return self.open_empty(0, 0);
        }
        let Head {
            outer,
            start: from,
            count,
        } = self.heads[scope as usize];
        let id = self.heads.len();
        let start = self.slots.len();
        if id >= u32::MAX as usize || start >= (u32::MAX - count) as usize {
            return Err(OutOfMemory);
        }
        add_copies(&mut self.slots, from as usize, count)?;
        let head = Head {
            outer,
            start: start as u32,
            count,
        };
        if self.heads.push(head).is_err() {
            self.slots.truncate(start);
            return Err(OutOfMemory);
        }
        Ok(id as u32)
    }

    /// Opens a scope without slots in another one, and gives its number. Want of memory is answered too where there are 4,294,967,294 scopes or slots.
    #[tactic(auto, using(crate::proofs::Laid_out::opened_last, crate::proofs::Laid_out::laid_last, crate::proofs::Laid_out::as_many))]
    pub fn open(&mut self, outer: u32) -> Result<u32, OutOfMemory>
        ensures ok { OnOk result (self.new ≡ self.old
            ++ record { outer = outer; slots = [] } ∷ []) }
        ensures number { IfOk result (λ id. id ≡ length self.old) }
        ensures err { OnErr result (self.new ≡ self.old) }
    {
        let id = self.heads.len();
        let start = self.slots.len();
        if id >= u32::MAX as usize || start >= u32::MAX as usize {
            return Err(OutOfMemory);
        }
        self.heads.push(Head {
            outer,
            start: start as u32,
            count: 0,
        })?;
        Ok(id as u32)
    }
}

/// Adds slots without values; where that fails, none is added.
#[tactic(auto, using(crate::proofs::Laid_out::one_more, crate::proofs::Laid_out::first_part))]
fn add_empty(slots: &mut Vec<Option<Value>>, count: u32) -> Result<(), OutOfMemory>
    ensures ok { OnOk result (slots.new.items ≡ slots.old.items ++ replicate count None) }
    ensures err { OnErr result (slots.new.items ≡ slots.old.items) }
{
    let start = slots.len();
    for i in 0..count {
        if slots.push(None).is_err() {
            slots.truncate(start);
            return Err(OutOfMemory);
        }
    }
    Ok(())
}

/// The same slot once more.
fn copy_slot(slot: &Option<Value>) -> Result<Option<Value>, OutOfMemory>
    ensures { IfOk result (λ copy. copy ≡ slot.now) }
{
    match slot {
        None => Ok(None),
        Some(value) => Ok(Some(copy_value(value)?)),
    }
}

/// Adds a copy of a slot.
fn add_copy(slots: &mut Vec<Option<Value>>, at: usize) -> Result<(), OutOfMemory>
    requires { at < length slots.old.items }
    ensures ok { let slot = get_or slots.old.items at None in
        OnOk result (slots.new.items ≡ slots.old.items ++ slot ∷ []) }
    ensures err { OnErr result (slots.new.items ≡ slots.old.items) }
{
    let copy = copy_slot(&slots[at])?;
    slots.push(copy)?;
    Ok(())
}

/// Adds copies of so many slots from a place on; where that fails, none is added.
#[tactic(auto, using(crate::proofs::Laid_out::one_copied, crate::proofs::Laid_out::first_part))]
fn add_copies(slots: &mut Vec<Option<Value>>, from: usize, count: u32) -> Result<(), OutOfMemory>
    requires { from + count ≤ length slots.old.items }
    ensures ok { let copies = take count (drop from slots.old.items) in
        OnOk result (slots.new.items ≡ slots.old.items ++ copies) }
    ensures err { OnErr result (slots.new.items ≡ slots.old.items) }
{
    let start = slots.len();
    for i in 0..count {
        if add_copy(slots, from + i as usize).is_err() {
            slots.truncate(start);
            return Err(OutOfMemory);
        }
    }
    Ok(())
}

/// Puts a value in the place of what stands there.
fn put(slots: &mut Vec<Option<Value>>, at: usize, value: Value)
    requires { at < length slots.old.items }
    ensures { slots.new.items ≡ slice_set slots.old.items at (Some value) }
{
    slots[at] = Some(value);
}

/// Where a slot stands among those of all scopes, if there is such a slot.
#[inline]
#[tactic(auto, using(crate::proofs::Laid_out::is_place, crate::proofs::Laid_out::no_slot, crate::proofs::Laid_out::no_head))]
fn place_of(heads: &[Head], scope: u32, slot: u32) -> Option<usize>
    ensures { MatchOption result (IsNoPlace heads.now scope slot) (IsPlace heads.now scope slot) }
{
    if (scope as usize) >= heads.len() {
        return None;
    }
    let head = heads[scope as usize];
    if slot >= head.count {
        return None;
    }
    Some(head.start as usize + slot as usize)
}

// The properties at array indices, ascending.

ghost use Rattle.std.specs.Prelude.{◌≡◌, ◌≤◌, ◌<◌, ◌^◌, ◌++◌, ◌∷◌, [], length, set, map, is_some, None, OnOk, OnErr};
ghost use Rattle.std.specs.BTreeMap.{insert_entry, is_at};
ghost use Rattle.std.specs.List.Sorted.{IsStrictlySortedBy};
ghost use Rattle.std.specs.Map.{keys_of, lookup, remove_entry, set_value};
ghost use Rattle.std.specs.Option.{option_map};
ghost use Rattle.std.specs.Ordering.{nat_cmp};
ghost use Rattle.js_text.specs.declared.value.Key.TheVariants.{Index};
ghost use Rattle.js_store.specs.Dense.{last_of, present};

use js_desc::descriptor::Descriptor;
use js_text::value::Key;
use lava_base::list::List;
use lava_base::memory::OutOfMemory;
use std::alloc::Global;
use std::collections::BTreeMap;
use std::marker::Model;

/// The properties at array indices. Those of a filled array stand in a vector, so each call takes constant time there; those that stand apart are in a B-tree.
#[derive(Drop)]
pub(crate) struct Elements {
    /// Those at the indices from 0 on; None at an index without one. The last one is there.
    dense: Vec<Option<Descriptor>>,
    /// Those past the dense ones.
    sparse: BTreeMap<u32, Descriptor>,
}

impl Model for Elements {
    ghost use Rattle.std.specs.Prelude.{List, ℕ, ◌≤◌, ◌^◌, ◌++◌, length};
    ghost use Rattle.std.specs.List.{AllByRecursion};
    ghost use Rattle.std.specs.Map.{keys_of};
    ghost use Rattle.lava_base.specs.declared.ids.MadeSymbol.{MadeSymbol};
    ghost use Rattle.lava_base.specs.declared.ids.Ref.{Ref};
    ghost use Rattle.js_desc.specs.declared.descriptor.Descriptor.{Descriptor as Property};
    ghost use Rattle.js_store.specs.Dense.{present};

    ghost Value = { List (ℕ × Property Ref MadeSymbol) };

    ghost view = { λ e. present 0 e.dense.items ++ e.sparse.entries };

    ghost invariant = { λ e. (length e.dense.items ≤ 2 ^ 32)
        × AllByRecursion (λ k. length e.dense.items ≤ k) (keys_of e.sparse.entries) };
}

impl Elements {
    /// None at all. It takes no memory.
    pub(crate) fn new(alloc: Global) -> Elements
        ensures { result ≡ [] }
    {
        Elements {
            dense: Vec::new(alloc),
            sparse: BTreeMap::new(alloc),
        }
    }

    /// The property at an index.
    #[tactic(auto, using(crate::proofs::Dense_laws::found_dense, crate::proofs::Dense_laws::found_sparse))]
    #[inline]
    pub(crate) fn get(&self, index: u32) -> Option<&Descriptor>
        ensures { option_map (λ d. d.now) result ≡ lookup (is_at (nat_cmp index)) self.now }
    {
        if (index as usize) < self.dense.len() {
            self.dense[index as usize].as_ref()
        } else {
            get_sparse(&self.sparse, index)
        }
    }

    /// Writes the property at an index.
    #[tactic(auto, using(crate::proofs::Dense_laws::written_dense, crate::proofs::Dense_laws::written_next, crate::proofs::Dense_laws::written_sparse, crate::proofs::Dense_laws::past_written, crate::proofs::Dense_laws::past_next, crate::proofs::Dense_laws::absent_sparse, crate::proofs::Dense_laws::absent_next))]
    pub(crate) fn write(&mut self, index: u32, property: Descriptor) -> Result<(), OutOfMemory>
        ensures ok { OnOk result (self.new ≡ insert_entry nat_cmp self.old index property) }
        ensures err { OnErr result (self.new ≡ self.old) }
        ensures absent { OnErr result (lookup (is_at (nat_cmp index)) self.old ≡ None) }
    {
        let at = index as usize;
        if at < self.dense.len() {
            put(&mut self.dense, at, Some(property));
            return Ok(());
        }
        if at == self.dense.len() && !self.sparse.contains_key(&index) {
            return push(&mut self.dense, property);
        }
        insert(&mut self.sparse, index, property)
    }

    /// Puts another property in the place of that at an index, and tells whether there is one. It takes no memory.
    #[tactic(auto, using(crate::proofs::Dense_laws::written_again, crate::proofs::Few_laws::none_replaced))]
    pub(crate) fn replace(&mut self, index: u32, property: Descriptor) -> bool
        ensures found { result ≡ is_some (lookup (is_at (nat_cmp index)) self.old) }
        ensures properties { self.new ≡ set_value (is_at (nat_cmp index)) self.old property }
    {
        self.ascend();
        if self.get(index).is_none() {
            return false;
        }
        self.write(index, property).is_ok()
    }

    /// The last index, if there is one.
    #[tactic(auto, using(crate::proofs::Dense_laws::last_sparse, crate::proofs::Dense_laws::last_alone))]
    pub(crate) fn last(&self) -> Option<u32>
        ensures { result ≡ last_of self.now }
    {
        match self.sparse.last_key_value() {
            Some((index, _)) => Some(*index),
            None => last_dense(&self.dense),
        }
    }

    /// Takes the property at an index out, if there is one.
    #[tactic(auto, using(crate::proofs::Dense_laws::removed_dense, crate::proofs::Dense_laws::removed_sparse, crate::proofs::Dense_laws::past_removed))]
    pub(crate) fn remove(&mut self, index: u32)
        ensures { self.new ≡ remove_entry (is_at (nat_cmp index)) self.old }
    {
        if (index as usize) < self.dense.len() {
            put(&mut self.dense, index as usize, None);
            trim(&mut self.dense);
        } else {
            take_out(&mut self.sparse, index);
        }
    }

    /// Appends the indices to a list of keys.
    pub(crate) fn push_keys(&self, keys: &mut List<Key>) -> Result<(), OutOfMemory>
        ensures { OnOk result (keys.new ≡ keys.old ++ map Index (keys_of self.now)) }
    {
        push_dense(&self.dense, keys)?;
        push_sparse(&self.sparse, keys)
    }

    /// The indices ascend.
    #[tactic(auto, using(crate::proofs::Dense_laws::all_ascend))]
    pub(crate) fn ascend(&self)
        ensures { IsStrictlySortedBy nat_cmp (keys_of self.now) }
    {
        self.sparse.len();
    }
}

/// The property at an index among the sparse ones.
#[inline(never)]
fn get_sparse(sparse: &BTreeMap<u32, Descriptor>, index: u32) -> Option<&Descriptor>
    ensures { let found = option_map (λ d. d.now) result in
        found ≡ lookup (is_at (nat_cmp index)) sparse.now.entries }
{
    sparse.get(&index)
}

/// Puts a property, or none, at a dense index.
fn put(dense: &mut Vec<Option<Descriptor>>, at: usize, place: Option<Descriptor>)
    requires { at < length dense.old.items }
    ensures { dense.new.items ≡ set dense.old.items at place }
{
    dense[at] = place;
}

/// Appends a property to the dense ones.
fn push(dense: &mut Vec<Option<Descriptor>>, property: Descriptor) -> Result<(), OutOfMemory>
    ensures ok { OnOk result (dense.new.items ≡ dense.old.items ++ Some property ∷ []) }
    ensures err { OnErr result (dense.new.items ≡ dense.old.items) }
{
    dense.push(Some(property))?;
    Ok(())
}

/// Drops the places at the end that have no property.
#[tactic(auto, using(crate::proofs::Dense_laws::shown_less))]
fn trim(dense: &mut Vec<Option<Descriptor>>)
    ensures shown { present 0 dense.new.items ≡ present 0 dense.old.items }
    ensures len { length dense.new.items ≤ length dense.old.items }
{
    let mut len = dense.len();
    while len > 0 && dense[len - 1].is_none() {
        len -= 1;
    }
    dense.truncate(len);
}

/// The last dense index that has a property, if there is one. It is the last place, as long as no place at the end is empty.
#[tactic(auto, using(crate::proofs::Dense_laws::shown_less, crate::proofs::Dense_laws::last_shown))]
fn last_dense(dense: &[Option<Descriptor>]) -> Option<u32>
    requires { length dense.now ≤ 2 ^ 32 }
    ensures { result ≡ last_of (present 0 dense.now) }
{
    let mut len = dense.len();
    while len > 0 {
        if dense[len - 1].is_some() {
            return Some((len - 1) as u32);
        }
        len -= 1;
    }
    None
}

/// Writes a property among the sparse ones.
fn insert(
    sparse: &mut BTreeMap<u32, Descriptor>,
    index: u32,
    property: Descriptor,
) -> Result<(), OutOfMemory>
    ensures ok { let after = insert_entry nat_cmp sparse.old.entries index property in
        OnOk result (sparse.new.entries ≡ after) }
    ensures err { OnErr result (sparse.new.entries ≡ sparse.old.entries) }
    ensures absent { OnErr result (lookup (is_at (nat_cmp index)) sparse.old.entries ≡ None) }
{
    sparse.insert(index, property)?;
    Ok(())
}

/// Takes a property out of the sparse ones, if it is there.
fn take_out(sparse: &mut BTreeMap<u32, Descriptor>, index: u32)
    ensures { sparse.new.entries ≡ remove_entry (is_at (nat_cmp index)) sparse.old.entries }
{
    sparse.remove(&index);
}

/// Appends the dense indices to a list of keys.
fn push_dense(dense: &[Option<Descriptor>], keys: &mut List<Key>) -> Result<(), OutOfMemory>
    requires { length dense.now ≤ 2 ^ 32 }
    ensures { OnOk result (keys.new ≡ keys.old ++ map Index (keys_of (present 0 dense.now))) }
{
    for at in 0..dense.len() {
        if dense[at].is_some() {
            keys.push(Key::Index(at as u32))?;
        }
    }
    Ok(())
}

/// Appends the sparse indices to a list of keys.
fn push_sparse(sparse: &BTreeMap<u32, Descriptor>, keys: &mut List<Key>) -> Result<(), OutOfMemory>
    ensures { OnOk result (keys.new ≡ keys.old ++ map Index (keys_of sparse.now.entries)) }
{
    for index in sparse.keys() {
        keys.push(Key::Index(*index))?;
    }
    Ok(())
}

// Lists of property keys as sets: a set of hashes answers each question about one key in constant time.

ghost use Rattle.std.specs.Prelude.{◌≡◌, not, true, IfOk, OnOk, OnErr};
ghost use Rattle.std.specs.HashSet.{IsUnchanged, Updates, contains};
ghost use Rattle.lava_base.specs.Ids.{same_made_symbol};
ghost use Rattle.lava_base.specs.declared.ids.MadeSymbol.{MadeSymbol};
ghost use Rattle.js_text.specs.Values.{same_key};
ghost use Rattle.js_text.specs.declared.value.Key.{Key};
ghost use Rattle.js_operations.specs.KeyLists.{are_among, has_repeat, is_among};

use js_text::copy::copy_key;
use js_text::value::Key;
use lava_base::list::List;
use lava_base::memory::OutOfMemory;
use std::alloc::Global;
use std::collections::HashSet;

/// Puts a key into a set, and tells whether it is new there.
fn insert_key(set: &mut HashSet<Key>, key: &Key) -> Result<bool, OutOfMemory>
    ensures added { let same = same_key same_made_symbol in
        IfOk result (λ added. added ≡ not (contains same set.old key.now)) }
    ensures keys { let same = same_key same_made_symbol in
        OnOk result (Updates same set.old set.new key.now true) }
{
    match set.insert(copy_key(key)?) {
        Ok(added) => Ok(added),
        Err(_) => Err(OutOfMemory),
    }
}

/// The set of the keys of a list.
#[tactic(auto, using(crate::proofs::Sets_of_keys::one_more_known))]
pub fn key_set(alloc: Global, keys: &List<Key>) -> Result<HashSet<Key>, OutOfMemory>
    ensures { IfOk result (λ set. (k : Key MadeSymbol)
        → contains (same_key same_made_symbol) set k ≡ is_among same_made_symbol keys.now k) }
{
    let mut set = HashSet::new(alloc);
    let mut at = keys.len();
    while at > 0 {
        at -= 1;
        insert_key(&mut set, keys.item(at))?;
    }
    Ok(set)
}

/// Whether some key stands twice in a list.
#[tactic(auto, using(crate::proofs::Sets_of_keys::one_more_known, crate::proofs::Sets_of_keys::repeat_next, crate::proofs::Sets_of_keys::repeat_behind))]
pub fn has_repeat(alloc: Global, keys: &List<Key>) -> Result<bool, OutOfMemory>
    ensures { IfOk result (λ b. b ≡ has_repeat same_made_symbol keys.now) }
{
    let mut set = HashSet::new(alloc);
    let mut at = keys.len();
    while at > 0 {
        at -= 1;
        if !insert_key(&mut set, keys.item(at))? {
            return Ok(true);
        }
    }
    Ok(false)
}

/// Whether each of some keys is among others, whose set is given.
#[tactic(auto, using(crate::proofs::Sets_of_keys::among_next, crate::proofs::Sets_of_keys::among_end))]
fn are_in_set(keys: &List<Key>, others: &List<Key>, set: &HashSet<Key>) -> bool
    requires { (k : Key MadeSymbol)
        → contains (same_key same_made_symbol) set.now k ≡ is_among same_made_symbol others.now k }
    ensures { result ≡ are_among same_made_symbol keys.now others.now }
{
    for at in 0..keys.len() {
        if !set.contains(keys.item(at)) {
            return false;
        }
    }
    true
}

/// Whether each of some keys is among others.
pub fn are_among(alloc: Global, keys: &List<Key>, others: &List<Key>) -> Result<bool, OutOfMemory>
    ensures { IfOk result (λ b. b ≡ are_among same_made_symbol keys.now others.now) }
{
    let set = key_set(alloc, others)?;
    Ok(are_in_set(keys, others, &set))
}

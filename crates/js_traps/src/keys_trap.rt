// The trap `ownKeys`.

ghost use Rattle.std.specs.Prelude.{◌≡◌, ◌++◌, ◌∷◌, [], ◌||◌, not, length, slice_get, IfOk};
ghost use Rattle.std.specs.HashSet.{contains};
ghost use Rattle.lava_base.specs.Ids.{same_made_symbol};
ghost use Rattle.lava_base.specs.declared.ids.MadeSymbol.{MadeSymbol};
ghost use Rattle.js_text.specs.Values.{same_key};
ghost use Rattle.js_text.specs.declared.value.Key.{Key};
ghost use Rattle.js_operations.specs.KeyLists.{is_among};
ghost use Rattle.js_traps.specs.KeysTrap.{are_the_same_keys, ask_key, ask_key_at, fixed_are_among, is_there_fixed, keys_length, keys_read, keys_told, list_keys, may_be_listed, proxy_key_there, proxy_key_told, proxy_keys_extensible, proxy_keys_length, proxy_keys_there, proxy_own_property_keys, read_key, to_length, with_key};

use crate::come::{keys_come, property_come, truth_come, value_come};
use crate::next::{Listed, Listing, Next};
use crate::property_traps::is_fixed;
use js_desc::ask::Ask;
use js_desc::decision::Decision;
use js_desc::descriptor::Descriptor;
use js_desc::fault::FaultText;
use js_desc::reply::Reply;
use js_operations::key_lists::{are_among, has_repeat, key_set};
use js_operations::names::{index_key, key_of_value};
use js_text::copy::copy_key;
use js_text::length::length_key;
use js_text::value::{Key, Value};
use lava_base::ids::Ref;
use lava_base::list::List;
use lava_base::memory::OutOfMemory;
use std::alloc::Global;
use std::collections::HashSet;

/// What the trap gave has to be an object, whose length is got.
fn keys_told(alloc: Global, target: Ref, value: &Value) -> Result<Decision<Next>, OutOfMemory>
    ensures { IfOk result (λ d. d ≡ keys_told target value.now) }
{
    let Value::Ref(list) = value else {
        return Ok(Decision::Fault(FaultText::CannotConvert));
    };
    let key = length_key(alloc)?;
    Ok(Decision::Ask {
        target: Some(*list),
        ask: Ask::Get {
            key,
            receiver: Value::Ref(*list),
        },
        next: Next::KeysLength {
            target,
            list: *list,
        },
    })
}

/// Goes on with what the trap `ownKeys` gave.
pub(crate) fn proxy_own_property_keys(
    alloc: Global,
    target: Ref,
    reply: Reply,
) -> Result<Decision<Next>, OutOfMemory>
    ensures { IfOk result (λ d. d ≡ proxy_own_property_keys target reply) }
{
    match value_come(reply) {
        Ok(value) => keys_told(alloc, target, &value),
        Err(decision) => Ok(decision),
    }
}

/// Asks whether the target is extensible, where no key stands twice.
fn keys_read(alloc: Global, target: Ref, told: List<Key>) -> Result<Decision<Next>, OutOfMemory>
    ensures { IfOk result (λ d. d ≡ keys_read same_made_symbol target told) }
{
    if has_repeat(alloc, &told)? {
        return Ok(Decision::Fault(FaultText::ProxyInvariant));
    }
    Ok(Decision::Ask {
        target: Some(target),
        ask: Ask::IsExtensible,
        next: Next::KeysExtensible { target, told },
    })
}

/// Reads the next key of the list, if there is one.
fn read_key(alloc: Global, listing: Listing) -> Result<Decision<Next>, OutOfMemory>
    ensures { IfOk result (λ d. d ≡ read_key same_made_symbol listing) }
{
    let at = listing.told.len();
    if at as u64 >= listing.count {
        return keys_read(alloc, listing.target, listing.told);
    }
    let key = index_key(alloc, at)?;
    Ok(Decision::Ask {
        target: Some(listing.list),
        ask: Ask::Get {
            key,
            receiver: Value::Ref(listing.list),
        },
        next: Next::KeyTold { listing },
    })
}

/// An integer as a length (ECMA-262, ToLength).
fn to_length(number: i64) -> u64
    ensures { result ≡ to_length number }
{
    if number < 0 { 0 } else { number as u64 }
}

/// Begins to read the list, where its length is a number.
fn keys_length(
    alloc: Global,
    target: Ref,
    list: Ref,
    value: Value,
) -> Result<Decision<Next>, OutOfMemory>
    ensures { IfOk result (λ d. d ≡ keys_length same_made_symbol target list value) }
{
    match value {
        Value::Int(number) => {
            let listing = Listing {
                target,
                list,
                count: to_length(number),
                told: List::new(alloc),
            };
            read_key(alloc, listing)
        }
        value => Ok(Decision::Number {
            value,
            next: Next::KeysLength { target, list },
        }),
    }
}

/// Goes on with the length of the list that the trap gave.
pub(crate) fn proxy_keys_length(
    alloc: Global,
    target: Ref,
    list: Ref,
    reply: Reply,
) -> Result<Decision<Next>, OutOfMemory>
    ensures { IfOk result (λ d. d ≡ proxy_keys_length same_made_symbol target list reply) }
{
    match value_come(reply) {
        Ok(value) => keys_length(alloc, target, list, value),
        Err(decision) => Ok(decision),
    }
}

/// Reads on where an element is a key.
fn with_key(
    alloc: Global,
    listing: Listing,
    key: Option<Key>,
) -> Result<Decision<Next>, OutOfMemory>
    ensures { IfOk result (λ d. d ≡ with_key same_made_symbol listing key) }
{
    match key {
        None => Ok(Decision::Fault(FaultText::CannotConvert)),
        Some(key) => read_key(alloc, with_told(listing, key)?),
    }
}

/// The list with one more key read.
fn with_told(listing: Listing, key: Key) -> Result<Listing, OutOfMemory>
    ensures { IfOk result (λ l. l ≡ record listing { told = listing.told ++ key ∷ [] }) }
{
    let mut listing = listing;
    listing.told.push(key)?;
    Ok(listing)
}

/// Goes on with an element of the list.
pub(crate) fn proxy_key_told(
    alloc: Global,
    listing: Listing,
    reply: Reply,
) -> Result<Decision<Next>, OutOfMemory>
    ensures { IfOk result (λ d. d ≡ proxy_key_told same_made_symbol listing reply) }
{
    match value_come(reply) {
        Ok(value) => with_key(alloc, listing, key_of_value(value)),
        Err(decision) => Ok(decision),
    }
}

/// Goes on once the target has told whether it is extensible: it is asked for its keys.
pub(crate) fn proxy_keys_extensible(target: Ref, told: List<Key>, reply: Reply) -> Decision<Next>
    ensures { result ≡ proxy_keys_extensible target told reply }
{
    match truth_come(reply) {
        Ok(extensible) => Decision::Ask {
            target: Some(target),
            ask: Ask::OwnPropertyKeys,
            next: Next::KeysThere {
                target,
                told,
                extensible,
            },
        },
        Err(decision) => decision,
    }
}

/// Whether a key of the target is in the set of those that are told, where it is fixed.
fn is_told(told: &List<Key>, set: &HashSet<Key>, fixed: bool, key: &Key) -> bool
    requires { (k : Key MadeSymbol)
        → contains (same_key same_made_symbol) set.now k ≡ is_among same_made_symbol told.now k }
    ensures { result ≡ (not fixed || is_among same_made_symbol told.now key.now) }
{
    !fixed || set.contains(key)
}

/// Whether each of the target's keys that are fixed is in the set of those that are told.
#[tactic(auto, using(crate::proofs::Fixed_keys::fixed_next, crate::proofs::Fixed_keys::fixed_end))]
fn fixed_are_in_set(
    told: &List<Key>,
    there: &List<Key>,
    fixed: &List<bool>,
    set: &HashSet<Key>,
) -> bool
    requires { (k : Key MadeSymbol)
        → contains (same_key same_made_symbol) set.now k ≡ is_among same_made_symbol told.now k }
    ensures { result ≡ fixed_are_among same_made_symbol told.now there.now fixed.now }
{
    let count = there.len().min(fixed.len());
    for at in 0..count {
        if !is_told(told, set, *fixed.item(at), there.item(at)) {
            return false;
        }
    }
    true
}

/// Whether each of the target's keys that are fixed is told.
fn fixed_are_among(
    alloc: Global,
    told: &List<Key>,
    there: &List<Key>,
    fixed: &List<bool>,
) -> Result<bool, OutOfMemory>
    ensures { let are = fixed_are_among same_made_symbol told.now there.now fixed.now in
        IfOk result (λ b. b ≡ are) }
{
    let set = key_set(alloc, told)?;
    Ok(fixed_are_in_set(told, there, fixed, &set))
}

/// Whether the keys that are told are just those of the target.
fn are_the_same_keys(
    alloc: Global,
    told: &List<Key>,
    there: &List<Key>,
) -> Result<bool, OutOfMemory>
    ensures { let are = are_the_same_keys same_made_symbol told.now there.now in
        IfOk result (λ b. b ≡ are) }
{
    let all_told = are_among(alloc, there, told)?;
    let all_there = are_among(alloc, told, there)?;
    Ok(all_told && all_there)
}

/// Whether a trap may tell these keys (ECMA-262, "Proxy Object Internal Methods and Internal Slots", [[OwnPropertyKeys]]).
fn may_be_listed(alloc: Global, listed: &Listed) -> Result<bool, OutOfMemory>
    ensures { IfOk result (λ b. b ≡ may_be_listed same_made_symbol listed.now) }
{
    let fixed = fixed_are_among(alloc, &listed.told, &listed.there, &listed.fixed)?;
    if listed.extensible {
        return Ok(fixed);
    }
    let same = are_the_same_keys(alloc, &listed.told, &listed.there)?;
    Ok(fixed && same)
}

/// Answers with the keys that the trap told, where it may tell them.
fn list_keys(alloc: Global, listed: Listed) -> Result<Decision<Next>, OutOfMemory>
    ensures { IfOk result (λ d. d ≡ list_keys same_made_symbol listed) }
{
    if may_be_listed(alloc, &listed)? {
        Ok(Decision::Done(Reply::Keys(listed.told)))
    } else {
        Ok(Decision::Fault(FaultText::ProxyInvariant))
    }
}

/// The key of the target that it is to be asked for next, if there is one.
fn next_key(listed: &Listed) -> Result<Option<Key>, OutOfMemory>
    ensures { let l = listed.now in
        IfOk result (λ key. key ≡ slice_get l.there (length l.fixed)) }
{
    let at = listed.fixed.len();
    if at >= listed.there.len() {
        return Ok(None);
    }
    Ok(Some(copy_key(listed.there.item(at))?))
}

/// Asks the target for a key, if there is one.
fn ask_key_at(
    alloc: Global,
    listed: Listed,
    key: Option<Key>,
) -> Result<Decision<Next>, OutOfMemory>
    ensures { IfOk result (λ d. d ≡ ask_key_at same_made_symbol listed key) }
{
    match key {
        None => list_keys(alloc, listed),
        Some(key) => Ok(Decision::Ask {
            target: Some(listed.target),
            ask: Ask::GetOwnProperty { key },
            next: Next::KeyThere { listed },
        }),
    }
}

/// Asks the target for its next key, if there is one.
fn ask_key(alloc: Global, listed: Listed) -> Result<Decision<Next>, OutOfMemory>
    ensures { IfOk result (λ d. d ≡ ask_key same_made_symbol listed) }
{
    let key = next_key(&listed)?;
    ask_key_at(alloc, listed, key)
}

/// Goes on with the target's own keys.
pub(crate) fn proxy_keys_there(
    alloc: Global,
    target: Ref,
    told: List<Key>,
    extensible: bool,
    reply: Reply,
) -> Result<Decision<Next>, OutOfMemory>
    ensures { let decision = proxy_keys_there same_made_symbol target told extensible reply in
        IfOk result (λ d. d ≡ decision) }
{
    match keys_come(reply) {
        Ok(there) => {
            let listed = Listed {
                target,
                told,
                extensible,
                there,
                fixed: List::new(alloc),
            };
            ask_key(alloc, listed)
        }
        Err(decision) => Ok(decision),
    }
}

/// Whether there is a property, and it is fixed.
fn is_there_fixed(property: &Option<Descriptor>) -> bool
    ensures { result ≡ is_there_fixed property.now }
{
    match property {
        None => false,
        Some(property) => is_fixed(property),
    }
}

/// The lists with what the target has at one more key.
fn with_fixed(listed: Listed, fixed: bool) -> Result<Listed, OutOfMemory>
    ensures { IfOk result (λ l. l ≡ record listed { fixed = listed.fixed ++ fixed ∷ [] }) }
{
    let mut listed = listed;
    listed.fixed.push(fixed)?;
    Ok(listed)
}

/// Goes on with the target's property of its next key.
pub(crate) fn proxy_key_there(
    alloc: Global,
    listed: Listed,
    reply: Reply,
) -> Result<Decision<Next>, OutOfMemory>
    ensures { IfOk result (λ d. d ≡ proxy_key_there same_made_symbol listed reply) }
{
    match property_come(reply) {
        Ok(property) => ask_key(alloc, with_fixed(listed, is_there_fixed(&property))?),
        Err(decision) => Ok(decision),
    }
}

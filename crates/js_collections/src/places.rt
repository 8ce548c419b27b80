// The places of a collection: those of keys, what stands there, and how many are live.

ghost use Rattle.std.specs.Prelude.{◌≡◌, IfOk, map, if◌then◌else◌};
ghost use Rattle.lava_base.specs.Ids.{same_ref, same_made_symbol};
ghost use Rattle.js_text.specs.Values.{same_value};
ghost use Rattle.js_slots.specs.Tables.{has_key, map_get, map_has, map_size, place_of};
ghost use Rattle.js_store.specs.Tables.{table_entry};

use js_store::slot::Entry;
use js_text::copy::copy_value;
use js_text::same::is_same_value;
use js_text::value::Value;
use lava_base::memory::OutOfMemory;

/// Whether a place is live and has a key.
fn has_key(entry: &Entry, key: &Value) -> bool
    ensures { let same = same_value same_ref same_made_symbol in
        result ≡ has_key same key.now (table_entry entry.now) }
{
    entry.live && is_same_value(key, &entry.key)
}

/// The live place of a key, if there is one. It takes time linear in the places.
#[tactic(auto, using(crate::proofs::Places_found::passes, crate::proofs::Places_found::stops, crate::proofs::Places_found::ends, crate::proofs::Places_found::begins))]
pub fn place(entries: &[Entry], key: &Value) -> Option<usize>
    ensures { let same = same_value same_ref same_made_symbol in
        result ≡ place_of same key.now (map table_entry entries.now) }
{
    let mut at = 0;
    while at < entries.len() {
        if has_key(&entries[at], key) {
            return Some(at);
        }
        at += 1;
    }
    None
}

/// Whether a live place has a key (ECMA-262, Map.prototype.has).
pub fn has(entries: &[Entry], key: &Value) -> bool
    ensures { let same = same_value same_ref same_made_symbol in
        result ≡ map_has same key.now (map table_entry entries.now) }
{
    place(entries, key).is_some()
}

/// The value at a key; undefined where no live place has it (ECMA-262, Map.prototype.get).
#[tactic(auto, using(crate::proofs::Places_found::value_found, crate::proofs::Places_found::value_missing, crate::proofs::Places_found::found_within))]
pub fn value_at(entries: &[Entry], key: &Value) -> Result<Value, OutOfMemory>
    ensures { let same = same_value same_ref same_made_symbol in
        IfOk result (λ value. value ≡ map_get same key.now (map table_entry entries.now)) }
{
    match place(entries, key) {
        None => Ok(Value::Undefined),
        Some(at) => copy_value(&entries[at].value),
    }
}

/// One for a live place.
fn live_count(entry: &Entry) -> usize
    ensures { result ≡ (if entry.now.live then 1 else 0) }
{
    if entry.live { 1 } else { 0 }
}

/// How many places are live (ECMA-262, get Map.prototype.size). It takes time linear in the places.
#[tactic(auto, using(crate::proofs::Places_walked::one_counted, crate::proofs::Places_walked::all_counted))]
pub fn size(entries: &[Entry]) -> usize
    ensures { result ≡ map_size (map table_entry entries.now) }
{
    let mut count = 0;
    let mut at = 0;
    while at < entries.len() {
        count += live_count(&entries[at]);
        at += 1;
    }
    count
}

// The places of a table, by their numbers: the live ones, and the keys that stand there.

ghost use Rattle.std.specs.Prelude.{◌≡◌, IfOk, map, pos, if◌then◌else◌};
ghost use Rattle.js_text.specs.declared.value.Value.TheVariants as value;
ghost use Rattle.js_slots.specs.TableAnswers.{answer_key_at, answer_next, key_of_place, place_value, start_of};
ghost use Rattle.js_slots.specs.Tables.{map_key_at, map_next};
ghost use Rattle.js_store.specs.Tables.{table_entry};

use crate::slot::Entry;
use js_text::copy::copy_value;
use js_text::value::Value;
use lava_base::memory::OutOfMemory;

/// The least live place at a place or after it, if there is one (ECMA-262, %MapIteratorPrototype%.next).
#[tactic(auto, using(crate::proofs::Places_walked::passes, crate::proofs::Places_walked::stops, crate::proofs::Places_walked::ends))]
pub fn next_live(entries: &[Entry], from: usize) -> Option<usize>
    ensures { result ≡ map_next from (map table_entry entries.now) }
{
    let mut at = from;
    while at < entries.len() {
        if entries[at].live {
            return Some(at);
        }
        at += 1;
    }
    None
}

/// The key of a place; undefined where it is dead.
fn live_key(entry: &Entry) -> Result<Value, OutOfMemory>
    ensures { IfOk result (λ key.
        key ≡ (if entry.now.live then entry.now.key else value.Undefined)) }
{
    if entry.live {
        copy_value(&entry.key)
    } else {
        Ok(Value::Undefined)
    }
}

/// The key at a live place, and undefined at any other.
#[tactic(auto, using(crate::proofs::Places_walked::key_within, crate::proofs::Places_walked::key_past))]
pub fn key_at(entries: &[Entry], at: usize) -> Result<Value, OutOfMemory>
    ensures { IfOk result (λ key. key ≡ map_key_at at (map table_entry entries.now)) }
{
    if at >= entries.len() {
        return Ok(Value::Undefined);
    }
    live_key(&entries[at])
}

/// An integer as a place where a walk begins: one below 0 counts as 0.
fn start_of(from: i64) -> usize
    ensures { result ≡ start_of from }
{
    if from < 0 { 0 } else { from as usize }
}

/// A place as an integer, or -1. A list has fewer than 4,294,967,296 places.
fn place_value(place: Option<usize>) -> Result<Value, OutOfMemory>
    ensures { IfOk result (λ v. v ≡ place_value place) }
{
    match place {
        None => Ok(Value::Int(-1)),
        Some(at) => count_value(at),
    }
}

/// A count as an integer. A list has fewer than 4,294,967,296 places.
pub fn count_value(count: usize) -> Result<Value, OutOfMemory>
    ensures { IfOk result (λ v. v ≡ value.Int (pos count)) }
{
    if count > u32::MAX as usize {
        return Err(OutOfMemory);
    }
    Ok(Value::Int(count as i64))
}

/// The least live place from one on, or -1.
pub fn answer_next(entries: &[Entry], args: &[Value]) -> Result<Option<Value>, OutOfMemory>
    ensures { let table = map table_entry entries.now in
        IfOk result (λ v. v ≡ answer_next args.now table) }
{
    match args {
        [_, Value::Int(from)] => {
            let place = next_live(entries, start_of(*from));
            Ok(Some(place_value(place)?))
        }
        _ => Ok(None),
    }
}

/// The key at the place that an integer names.
fn key_of_place(entries: &[Entry], at: i64) -> Result<Value, OutOfMemory>
    ensures { IfOk result (λ key. key ≡ key_of_place at (map table_entry entries.now)) }
{
    if at < 0 {
        return Ok(Value::Undefined);
    }
    key_at(entries, at as usize)
}

/// The key at a place.
pub fn answer_key_at(entries: &[Entry], args: &[Value]) -> Result<Option<Value>, OutOfMemory>
    ensures { let table = map table_entry entries.now in
        IfOk result (λ v. v ≡ answer_key_at args.now table) }
{
    match args {
        [_, Value::Int(at)] => Ok(Some(key_of_place(entries, *at)?)),
        _ => Ok(None),
    }
}

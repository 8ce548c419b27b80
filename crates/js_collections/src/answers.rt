// What a collection answers to a native that looks into it.

ghost use Rattle.std.specs.Prelude.{◌≡◌, IfOk, map};
ghost use Rattle.lava_base.specs.Ids.{same_ref, same_made_symbol};
ghost use Rattle.js_text.specs.Values.{same_value};
ghost use Rattle.js_slots.specs.TableAnswers.{answer_clear, answer_delete, answer_get, answer_has, answer_set, answer_size, table_answer};
ghost use Rattle.js_store.specs.Tables.{table_entry};

use crate::places::{has, size, value_at};
use js_store::places::{answer_key_at, answer_next, count_value};
use js_store::slot::Entry;
use js_text::native::Native;
use js_text::value::Value;
use lava_base::memory::OutOfMemory;

/// The value at a key.
fn answer_get(entries: &[Entry], args: &[Value]) -> Result<Option<Value>, OutOfMemory>
    ensures { let same = same_value same_ref same_made_symbol in
        let table = map table_entry entries.now in
        IfOk result (λ v. v ≡ answer_get same args.now table) }
{
    match args {
        [_, key] => Ok(Some(value_at(entries, key)?)),
        _ => Ok(None),
    }
}

/// Whether there is a key.
fn answer_has(entries: &[Entry], args: &[Value]) -> Option<Value>
    ensures { let same = same_value same_ref same_made_symbol in
        let table = map table_entry entries.now in
        result ≡ answer_has same args.now table }
{
    match args {
        [_, key] => Some(Value::Bool(has(entries, key))),
        _ => None,
    }
}

/// What is answered once a value is put at a key.
fn answer_set(_entries: &[Entry], args: &[Value]) -> Option<Value>
    ensures { let same = same_value same_ref same_made_symbol in
        let table = map table_entry _entries.now in
        result ≡ (answer_set same args.now table).0 }
{
    match args {
        [_, _, _] => Some(Value::Undefined),
        _ => None,
    }
}

/// What is answered once the place of a key is dead.
fn answer_delete(entries: &[Entry], args: &[Value]) -> Option<Value>
    ensures { let same = same_value same_ref same_made_symbol in
        let table = map table_entry entries.now in
        result ≡ (answer_delete same args.now table).0 }
{
    match args {
        [_, key] => Some(Value::Bool(has(entries, key))),
        _ => None,
    }
}

/// What is answered once all places are dead.
fn answer_clear(_entries: &[Entry], args: &[Value]) -> Option<Value>
    ensures { let table = map table_entry _entries.now in
        result ≡ (answer_clear args.now table).0 }
{
    match args {
        [_] => Some(Value::Undefined),
        _ => None,
    }
}

/// How many places are live.
fn answer_size(entries: &[Entry], args: &[Value]) -> Result<Option<Value>, OutOfMemory>
    ensures { let table = map table_entry entries.now in
        IfOk result (λ v. v ≡ answer_size args.now table) }
{
    match args {
        [_] => Ok(Some(count_value(size(entries))?)),
        _ => Ok(None),
    }
}

/// What a collection answers to a native that looks into it, with the operands after it. None comes where the native looks into no collection, and where the operands are not of the kinds that it takes.
pub fn answer_of(
    entries: &[Entry],
    which: Native,
    args: &[Value],
) -> Result<Option<Value>, OutOfMemory>
    ensures { let same = same_value same_ref same_made_symbol in
        let answer = table_answer same which args.now (map table_entry entries.now) in
        IfOk result (λ v. v ≡ answer.0) }
{
    match which {
        Native::MapGet => answer_get(entries, args),
        Native::MapSet => Ok(answer_set(entries, args)),
        Native::MapHas => Ok(answer_has(entries, args)),
        Native::MapDelete => Ok(answer_delete(entries, args)),
        Native::MapClear => Ok(answer_clear(entries, args)),
        Native::MapNext => answer_next(entries, args),
        Native::MapKeyAt => answer_key_at(entries, args),
        Native::MapSize => answer_size(entries, args),
        _ => Ok(None),
    }
}

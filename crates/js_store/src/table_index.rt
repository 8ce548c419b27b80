// The index beside a table's places, and what a table with an index answers to a native.

ghost use Rattle.std.specs.Prelude.{◌≡◌, ◌+◌, ◌<◌, ◌++◌, ◌∷◌, [], length, map, take, IfOk, IfSome, OnOk, OnErr, Some, None};
ghost use Rattle.lava_base.specs.Ids.{same_ref, same_made_symbol};
ghost use Rattle.js_text.specs.Values.{same_value};
ghost use Rattle.js_slots.specs.TableAnswers.{answer_clear, answer_delete, answer_get, answer_has, answer_set, answer_size, table_answer};
ghost use Rattle.js_slots.specs.Tables.{dead_entry, live_entry, map_clear, map_delete, map_get, map_has, map_set};
ghost use Rattle.js_store.specs.Indexed.{IsIndexOf, noted};
ghost use Rattle.js_store.specs.Tables.{store_entry, table_entry};

use crate::places::{answer_key_at, answer_next};
use crate::slot::Entry;
use js_slots::table_key::{TableKey, table_key};
use js_text::copy::copy_value;
use js_text::native::Native;
use js_text::value::Value;
use lava_base::list::List;
use lava_base::memory::OutOfMemory;
use std::alloc::Global;
use std::collections::HashMap;

/// An index beside the places of a table. Each call takes constant time, amortised, but for `of` and `clear`, which take time linear in the places.
#[derive(Drop)]
pub(crate) struct TableIndex {
    /// The live place of each key.
    places: HashMap<TableKey, u32>,
    /// How many places are live.
    live: u32,
}

/// A place with a key and a value.
fn live_place(key: &TableKey, value: Value) -> Result<Entry, OutOfMemory>
    ensures { IfOk result (λ e. table_entry e ≡ live_entry key.now.0 value) }
{
    Ok(Entry {
        key: copy_value(&key.0)?,
        value,
        live: true,
    })
}

/// A place that was deleted.
fn dead_place() -> Entry
    ensures { result ≡ store_entry dead_entry }
{
    Entry {
        key: Value::Undefined,
        value: Value::Undefined,
        live: false,
    }
}

impl TableIndex {
    /// The index of no places. It takes no memory.
    fn new(alloc: Global) -> TableIndex
        ensures { IsIndexOf result [] }
    {
        TableIndex {
            places: HashMap::new(alloc),
            live: 0,
        }
    }

    /// The live place of a key, if there is one.
    fn place(&self, key: &TableKey) -> Option<u32>
        ensures { result ≡ noted self.now key.now.0 }
    {
        self.places.get(key).copied()
    }

    /// The value at a key; undefined where no live place has it (ECMA-262, Map.prototype.get).
    fn value_at(&self, entries: &[Entry], key: &Value) -> Result<Value, OutOfMemory>
        requires { IsIndexOf self.now entries.now }
        ensures { let same = same_value same_ref same_made_symbol in
            IfOk result (λ value. value ≡ map_get same key.now (map table_entry entries.now)) }
    {
        match self.place(&table_key(key)?) {
            None => Ok(Value::Undefined),
            Some(at) => copy_value(&entries[at as usize].value),
        }
    }

    /// Whether a live place has a key (ECMA-262, Map.prototype.has).
    fn has(&self, _entries: &[Entry], key: &Value) -> Result<bool, OutOfMemory>
        requires { IsIndexOf self.now _entries.now }
        ensures { let same = same_value same_ref same_made_symbol in
            IfOk result (λ there. there ≡ map_has same key.now (map table_entry _entries.now)) }
    {
        let key = table_key(key)?;
        Ok(self.place(&key).is_some())
    }

    /// Puts a value at a key: at its place, or at a new one at the end (ECMA-262, Map.prototype.set). Want of memory is answered too where there are 4,294,967,295 places already; all is then as before.
    fn set(
        &mut self,
        entries: &mut List<Entry>,
        key: &Value,
        value: &Value,
    ) -> Result<(), OutOfMemory>
        requires { IsIndexOf self.old entries.old }
        ensures ok { let same = same_value same_ref same_made_symbol in
            let table = map_set same key.now value.now (map table_entry entries.old) in
            OnOk result (map table_entry entries.new ≡ table) }
        ensures err { OnErr result (entries.new ≡ entries.old) }
        ensures kept { IsIndexOf self.new entries.new }
    {
        let key = table_key(key)?;
        let value = copy_value(value)?;
        match self.place(&key) {
            Some(at) => {
                entries.set(at as usize, live_place(&key, value)?);
                Ok(())
            }
            None => self.append(entries, key, value),
        }
    }

    /// Appends a place with a key that no live place has.
    fn append(
        &mut self,
        entries: &mut List<Entry>,
        key: TableKey,
        value: Value,
    ) -> Result<(), OutOfMemory>
        requires kept { IsIndexOf self.old entries.old }
        requires missing { noted self.old key.0 ≡ None }
        ensures ok { let added = live_entry key.0 value in
            OnOk result (map table_entry entries.new ≡ map table_entry entries.old ++ added ∷ []) }
        ensures err { OnErr result (entries.new ≡ entries.old) }
        ensures kept { IsIndexOf self.new entries.new }
    {
        let at = entries.len();
        if at >= u32::MAX as usize {
            return Err(OutOfMemory);
        }
        entries.push(live_place(&key, value)?)?;
        match self.places.insert(key, at as u32) {
            Ok(_) => {
                self.live += 1;
                Ok(())
            }
            Err(_) => {
                entries.truncate(at);
                Err(OutOfMemory)
            }
        }
    }

    /// Makes the place of a key dead, and says whether there was one (ECMA-262, Map.prototype.delete).
    fn delete(&mut self, entries: &mut List<Entry>, key: &Value) -> Result<bool, OutOfMemory>
        requires { IsIndexOf self.old entries.old }
        ensures found { let same = same_value same_ref same_made_symbol in
            IfOk result (λ found. found ≡ map_has same key.now (map table_entry entries.old)) }
        ensures ok { let same = same_value same_ref same_made_symbol in
            let table = map_delete same key.now (map table_entry entries.old) in
            OnOk result (map table_entry entries.new ≡ table) }
        ensures err { OnErr result (entries.new ≡ entries.old) }
        ensures kept { IsIndexOf self.new entries.new }
    {
        let key = table_key(key)?;
        match self.place(&key) {
            None => Ok(false),
            Some(at) => {
                self.take_out(entries, &key, at);
                Ok(true)
            }
        }
    }

    /// Makes the place of a key dead.
    fn take_out(&mut self, entries: &mut List<Entry>, key: &TableKey, at: u32)
        requires kept { IsIndexOf self.old entries.old }
        requires there { noted self.old key.now.0 ≡ Some at }
        ensures entries { let same = same_value same_ref same_made_symbol in
            let table = map_delete same key.now.0 (map table_entry entries.old) in
            map table_entry entries.new ≡ table }
        ensures kept { IsIndexOf self.new entries.new }
    {
        self.places.remove(key);
        entries.set(at as usize, dead_place());
        self.live -= 1;
    }

    /// Makes all places dead (ECMA-262, Map.prototype.clear).
    fn clear(&mut self, entries: &mut List<Entry>)
        requires { IsIndexOf self.old entries.old }
        ensures entries { map table_entry entries.new ≡ map_clear (map table_entry entries.old) }
        ensures kept { IsIndexOf self.new entries.new }
    {
        make_all_dead(entries);
        self.places.clear();
        self.live = 0;
    }

    /// Notes the place behind the first ones, if it is live. Want of memory is answered too where another place is live that has its key.
    fn note(&mut self, entries: &[Entry], at: usize) -> Result<(), OutOfMemory>
        requires kept { IsIndexOf self.old (take at entries.now) }
        requires within { at < length entries.now }
        ensures { OnOk result (IsIndexOf self.new (take (at + 1) entries.now)) }
    {
        if at >= u32::MAX as usize {
            return Err(OutOfMemory);
        }
        let entry = &entries[at];
        if !entry.live {
            return Ok(());
        }
        let key = table_key(&entry.key)?;
        if self.place(&key).is_some() {
            return Err(OutOfMemory);
        }
        self.places.insert(key, at as u32)?;
        self.live += 1;
        Ok(())
    }

    /// The index of places. Want of memory is answered too where two live places have the same key.
    pub(crate) fn of(alloc: Global, entries: &[Entry]) -> Result<TableIndex, OutOfMemory>
        ensures { IfOk result (λ index. IsIndexOf index entries.now) }
    {
        let mut index = TableIndex::new(alloc);
        let mut at = 0;
        while at < entries.len() {
            index.note(entries, at)?;
            at += 1;
        }
        Ok(index)
    }

    /// The value at a key.
    fn answer_get(&self, entries: &[Entry], args: &[Value]) -> Result<Option<Value>, OutOfMemory>
        requires { IsIndexOf self.now entries.now }
        ensures { let same = same_value same_ref same_made_symbol in
            let table = map table_entry entries.now in
            IfOk result (λ v. v ≡ answer_get same args.now table) }
    {
        match args {
            [_, key] => Ok(Some(self.value_at(entries, key)?)),
            _ => Ok(None),
        }
    }

    /// Whether there is a key.
    fn answer_has(&self, entries: &[Entry], args: &[Value]) -> Result<Option<Value>, OutOfMemory>
        requires { IsIndexOf self.now entries.now }
        ensures { let same = same_value same_ref same_made_symbol in
            let table = map table_entry entries.now in
            IfOk result (λ v. v ≡ answer_has same args.now table) }
    {
        match args {
            [_, key] => Ok(Some(Value::Bool(self.has(entries, key)?))),
            _ => Ok(None),
        }
    }

    /// Puts a value at a key.
    fn answer_set(
        &mut self,
        entries: &mut List<Entry>,
        args: &[Value],
    ) -> Result<Option<Value>, OutOfMemory>
        requires { IsIndexOf self.old entries.old }
        ensures ok { let same = same_value same_ref same_made_symbol in
            let answer = answer_set same args.now (map table_entry entries.old) in
            IfOk result (λ v. (v, map table_entry entries.new) ≡ answer) }
        ensures err { OnErr result (entries.new ≡ entries.old) }
        ensures kept { IsIndexOf self.new entries.new }
    {
        match args {
            [_, key, value] => {
                self.set(entries, key, value)?;
                Ok(Some(Value::Undefined))
            }
            _ => Ok(None),
        }
    }

    /// Makes the place of a key dead.
    fn answer_delete(
        &mut self,
        entries: &mut List<Entry>,
        args: &[Value],
    ) -> Result<Option<Value>, OutOfMemory>
        requires { IsIndexOf self.old entries.old }
        ensures ok { let same = same_value same_ref same_made_symbol in
            let answer = answer_delete same args.now (map table_entry entries.old) in
            IfOk result (λ v. (v, map table_entry entries.new) ≡ answer) }
        ensures err { OnErr result (entries.new ≡ entries.old) }
        ensures kept { IsIndexOf self.new entries.new }
    {
        match args {
            [_, key] => Ok(Some(Value::Bool(self.delete(entries, key)?))),
            _ => Ok(None),
        }
    }

    /// Makes all places dead.
    fn answer_clear(&mut self, entries: &mut List<Entry>, args: &[Value]) -> Option<Value>
        requires { IsIndexOf self.old entries.old }
        ensures ok { let answer = answer_clear args.now (map table_entry entries.old) in
            (result, map table_entry entries.new) ≡ answer }
        ensures kept { IsIndexOf self.new entries.new }
    {
        match args {
            [_] => {
                self.clear(entries);
                Some(Value::Undefined)
            }
            _ => None,
        }
    }

    /// How many places are live.
    fn answer_size(&self, _entries: &[Entry], args: &[Value]) -> Option<Value>
        requires { IsIndexOf self.now _entries.now }
        ensures { result ≡ answer_size args.now (map table_entry _entries.now) }
    {
        match args {
            [_] => Some(Value::Int(self.live as i64)),
            _ => None,
        }
    }

    /// What a table answers to a native that looks into it, with the operands after the table. None comes where the native looks into no table, and where the operands are not of the kinds that it takes. After want of memory the table is as before.
    pub(crate) fn answer(
        &mut self,
        entries: &mut List<Entry>,
        which: Native,
        args: &[Value],
    ) -> Result<Option<Value>, OutOfMemory>
        requires { IsIndexOf self.old entries.old }
        ensures ok { let same = same_value same_ref same_made_symbol in
            let answer = table_answer same which args.now (map table_entry entries.old) in
            IfOk result (λ v. (v, map table_entry entries.new) ≡ answer) }
        ensures err { OnErr result (entries.new ≡ entries.old) }
        ensures kept { IsIndexOf self.new entries.new }
    {
        match which {
            Native::MapGet => self.answer_get(entries.as_slice(), args),
            Native::MapSet => self.answer_set(entries, args),
            Native::MapHas => self.answer_has(entries.as_slice(), args),
            Native::MapDelete => self.answer_delete(entries, args),
            Native::MapClear => Ok(self.answer_clear(entries, args)),
            Native::MapNext => answer_next(entries.as_slice(), args),
            Native::MapKeyAt => answer_key_at(entries.as_slice(), args),
            Native::MapSize => Ok(self.answer_size(entries.as_slice(), args)),
            _ => Ok(None),
        }
    }
}

/// Makes the index of places, where there is none yet.
fn make_index(
    alloc: Global,
    entries: &[Entry],
    index: &mut Option<Box<TableIndex>>,
) -> Result<(), OutOfMemory>
    requires { IfSome index.old (λ index. IsIndexOf index.value entries.now) }
    ensures { IfSome index.new (λ index. IsIndexOf index.value entries.now) }
{
    if index.is_none() {
        *index = Some(Box::new(alloc, TableIndex::of(alloc, entries)?)?);
    }
    Ok(())
}

/// What a table answers to a native that looks into it. Its index is made where it has none yet, which takes time linear in the places.
pub(crate) fn collect(
    alloc: Global,
    entries: &mut List<Entry>,
    index: &mut Option<Box<TableIndex>>,
    which: Native,
    args: &[Value],
) -> Result<Option<Value>, OutOfMemory>
    requires { IfSome index.old (λ index. IsIndexOf index.value entries.old) }
    ensures ok { let same = same_value same_ref same_made_symbol in
        let answer = table_answer same which args.now (map table_entry entries.old) in
        IfOk result (λ v. (v, map table_entry entries.new) ≡ answer) }
    ensures err { OnErr result (entries.new ≡ entries.old) }
    ensures kept { IfSome index.new (λ index. IsIndexOf index.value entries.new) }
{
    make_index(alloc, entries.as_slice(), index)?;
    match index {
        Some(index) => index.answer(entries, which, args),
        // An index was made.
        None => Err(OutOfMemory),
    }
}

/// Makes all places dead.
fn make_all_dead(entries: &mut List<Entry>)
    ensures { map table_entry entries.new ≡ map_clear (map table_entry entries.old) }
{
    let mut at = 0;
    while at < entries.len() {
        entries.set(at, dead_place());
        at += 1;
    }
}

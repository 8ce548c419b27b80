// The own properties of an object that are at no array index.

ghost use Rattle.std.specs.Prelude.{◌≡◌, ◌<◌, ◌++◌, [], filter, is_some, length, ◌∷◌, OnOk, OnErr};
ghost use Rattle.std.specs.List.{IsDistinct, remove};
ghost use Rattle.std.specs.Map.{keys_of, lookup, remove_entry, set_value};
ghost use Rattle.std.specs.Option.{option_map};
ghost use Rattle.lava_base.specs.Ids.{same_made_symbol};
ghost use Rattle.js_text.specs.Fingerprints.{text_fingerprint};
ghost use Rattle.js_text.specs.Values.{same_key};
ghost use Rattle.js_text.specs.declared.value.Key.TheVariants as spelled;
ghost use Rattle.indexmap.specs.IndexMap.{insert_entry};
ghost use Rattle.js_store.specs.Few.{chosen, entries_before, mark_of, with_value_at};

use indexmap::IndexMap;
use js_desc::descriptor::Descriptor;
use js_text::copy::copy_key;
use js_text::same::is_same_key;
use js_text::text::Text;
use js_text::value::Key;
use lava_base::list::List;
use lava_base::memory::OutOfMemory;
use std::alloc::Global;
use std::marker::Model;

/// How many names are found by a look at each: from there on hashing is faster.
const FEW_NAMES: usize = 8;

/// A property with its key, and a mark of the key, by which most other keys are told apart at once.
#[derive(Drop)]
struct NamedProperty {
    mark: u32,
    key: Key,
    property: Descriptor,
}

impl Model for NamedProperty {
    ghost use Rattle.std.specs.Prelude.{◌≡◌};
    ghost use Rattle.lava_base.specs.declared.ids.MadeSymbol.{MadeSymbol};
    ghost use Rattle.lava_base.specs.declared.ids.Ref.{Ref};
    ghost use Rattle.js_text.specs.declared.value.Key.{Key as Name};
    ghost use Rattle.js_desc.specs.declared.descriptor.Descriptor.{Descriptor as Property};
    ghost use Rattle.js_store.specs.Few.{mark_of};

    ghost Value = { Name MadeSymbol × Property Ref MadeSymbol };

    ghost view = { λ p. (p.key, p.property) };

    ghost invariant = { λ p. p.mark ≡ mark_of p.key };
}

impl NamedProperty {
    /// A property at a key.
    fn new(key: Key, property: Descriptor) -> NamedProperty
        ensures { result ≡ (key, property) }
    {
        let mark = mark_of(&key);
        NamedProperty {
            mark,
            key,
            property,
        }
    }

    /// Its key.
    #[inline]
    fn key(&self) -> &Key
        ensures { result.now ≡ self.now.0 }
    {
        &self.key
    }

    /// The property.
    #[inline]
    fn property(&self) -> &Descriptor
        ensures { result.now ≡ self.now.1 }
    {
        &self.property
    }

    /// Puts another property in its place.
    fn put(&mut self, property: Descriptor)
        ensures { self.new ≡ (self.old.0, property) }
    {
        self.property = property;
    }

    /// Whether the key is this text, which has this fingerprint.
    #[inline]
    fn is_at(&self, text: &Text, fingerprint: u32) -> bool
        requires { fingerprint ≡ text_fingerprint text.now }
        ensures { result ≡ same_key same_made_symbol (spelled.Text text.now) self.now.0 }
    {
        self.mark == fingerprint && is_key_of_text(&self.key, text)
    }
}

/// The mark of a key: the fingerprint of a text, and 0 for any other.
fn mark_of(key: &Key) -> u32
    ensures { result ≡ mark_of key.now }
{
    match key {
        Key::Text(text) => text.fingerprint(),
        _ => 0,
    }
}

/// Whether a key is this text.
#[inline]
fn is_key_of_text(key: &Key, text: &Text) -> bool
    ensures { result ≡ same_key same_made_symbol (spelled.Text text.now) key.now }
{
    match key {
        Key::Text(other) => text.has_same_units(other),
        _ => false,
    }
}

/// The properties at keys that are no array indices, in order of creation. The first `FEW_NAMES` stand in a vector and are found by a scan, those behind them are hashed.
#[derive(Drop)]
pub(crate) struct NamedProperties {
    /// The first ones.
    few: Vec<NamedProperty>,
    /// Those behind them.
    many: IndexMap<Key, Descriptor>,
}

impl Model for NamedProperties {
    ghost use Rattle.std.specs.Prelude.{List, ◌++◌};
    ghost use Rattle.std.specs.List.{IsDistinct};
    ghost use Rattle.std.specs.Map.{keys_of};
    ghost use Rattle.lava_base.specs.Ids.{same_made_symbol};
    ghost use Rattle.lava_base.specs.declared.ids.MadeSymbol.{MadeSymbol};
    ghost use Rattle.lava_base.specs.declared.ids.Ref.{Ref};
    ghost use Rattle.js_text.specs.Values.{same_key};
    ghost use Rattle.js_text.specs.declared.value.Key.{Key as Name};
    ghost use Rattle.js_desc.specs.declared.descriptor.Descriptor.{Descriptor as Property};

    ghost Value = { List (Name MadeSymbol × Property Ref MadeSymbol) };

    ghost view = { λ p. p.few.items ++ p.many.entries };

    ghost invariant = { λ p. IsDistinct (same_key same_made_symbol)
        (keys_of (p.few.items ++ p.many.entries)) };
}

impl NamedProperties {
    /// None at all. It takes no memory.
    pub(crate) fn new(alloc: Global) -> NamedProperties
        ensures { result ≡ [] }
    {
        NamedProperties {
            few: Vec::new(alloc),
            many: IndexMap::new(alloc),
        }
    }

    /// The property of a key.
    #[tactic(auto, using(crate::proofs::Few_laws::own_few, crate::proofs::Few_laws::own_many, crate::proofs::Few_laws::own_none))]
    #[inline]
    pub(crate) fn own(&self, key: &Key) -> Option<&Descriptor>
        ensures { let found = option_map (λ d. d.now) result in
            found ≡ lookup (same_key same_made_symbol key.now) self.now }
    {
        let at = place_of(&self.few, key);
        if at < self.few.len() {
            return Some(self.few[at].property());
        }
        own_hashed(&self.many, key)
    }

    /// Writes the property of a key: one that is there keeps its place, and a new one goes last.
    pub(crate) fn write(&mut self, key: Key, property: Descriptor) -> Result<(), OutOfMemory>
        ensures ok { let same = same_key same_made_symbol in
            OnOk result (self.new ≡ insert_entry same self.old key property) }
        ensures err { OnErr result (self.new ≡ self.old) }
    {
        write_first(&mut self.few, &mut self.many, key, property)
    }

    /// Takes the property of a key out, if there is one.
    pub(crate) fn remove(&mut self, key: &Key)
        ensures { self.new ≡ remove_entry (same_key same_made_symbol key.now) self.old }
    {
        remove_first(&mut self.few, &mut self.many, key);
    }

    /// Puts another property in the place of that of a key, and tells whether there is one. It takes no memory.
    pub(crate) fn replace(&mut self, key: Key, property: Descriptor) -> bool
        ensures found { result ≡ is_some (lookup (same_key same_made_symbol key) self.old) }
        ensures properties { let same = same_key same_made_symbol key in
            self.new ≡ set_value same self.old property }
    {
        replace_first(&mut self.few, &mut self.many, key, property)
    }

    /// Appends those keys that are symbols, or those that are none.
    #[tactic(auto, using(crate::proofs::Few_laws::chosen_behind))]
    pub(crate) fn push_keys(&self, symbols: bool, keys: &mut List<Key>) -> Result<(), OutOfMemory>
        ensures { let names = filter (chosen symbols) (keys_of self.now) in
            OnOk result (keys.new ≡ keys.old ++ names) }
    {
        push_few(&self.few, symbols, keys)?;
        push_many(&self.many, symbols, keys)
    }

    /// No key stands twice.
    pub(crate) fn differ(&self)
        ensures { IsDistinct (same_key same_made_symbol) (keys_of self.now) }
    {
        self.few.len();
    }
}

/// The property of a key among the hashed ones. Where there are none, the key is not hashed.
#[inline(never)]
fn own_hashed<'a>(many: &'a IndexMap<Key, Descriptor>, key: &Key) -> Option<&'a Descriptor>
    ensures { let found = option_map (λ d. d.now) result in
        found ≡ lookup (same_key same_made_symbol key.now) many.now.entries }
{
    if many.is_empty() {
        return None;
    }
    many.get(key)
}

/// Where the property of a key stands, or how many there are where it does not.
#[inline]
fn place_of(few: &[NamedProperty], key: &Key) -> usize
    ensures { result ≡ entries_before (same_key same_made_symbol key.now) few.now }
{
    match key {
        Key::Text(text) => place_of_text(few, text),
        _ => place_of_other(few, key),
    }
}

/// The same of a text. Only one of the same fingerprint is compared with it.
#[tactic(auto, using(crate::proofs::Few_laws::scan_step, crate::proofs::Few_laws::scan_end))]
#[inline]
fn place_of_text(few: &[NamedProperty], text: &Text) -> usize
    ensures { let same = same_key same_made_symbol (spelled.Text text.now) in
        result ≡ entries_before same few.now }
{
    let fingerprint = text.fingerprint();
    for at in 0..few.len() {
        if few[at].is_at(text, fingerprint) {
            return at;
        }
    }
    few.len()
}

/// The same of a key that is no text.
#[tactic(auto, using(crate::proofs::Few_laws::scan_step, crate::proofs::Few_laws::scan_end))]
#[inline(never)]
fn place_of_other(few: &[NamedProperty], key: &Key) -> usize
    ensures { result ≡ entries_before (same_key same_made_symbol key.now) few.now }
{
    for at in 0..few.len() {
        if is_same_key(key, few[at].key()) {
            return at;
        }
    }
    few.len()
}

/// Writes the property of a key among the first ones, or those behind them.
#[tactic(auto, using(crate::proofs::Few_laws::written_here, crate::proofs::Few_laws::written_next, crate::proofs::Few_laws::written_many))]
fn write_first(
    few: &mut Vec<NamedProperty>,
    many: &mut IndexMap<Key, Descriptor>,
    key: Key,
    property: Descriptor,
) -> Result<(), OutOfMemory>
    ensures ok { let before = few.old.items ++ many.old.entries in
        let after = insert_entry (same_key same_made_symbol) before key property in
        OnOk result (few.new.items ++ many.new.entries ≡ after) }
    ensures err { let before = few.old.items ++ many.old.entries in
        OnErr result (few.new.items ++ many.new.entries ≡ before) }
{
    let at = place_of(few, &key);
    if at < few.len() {
        put(few, at, property);
        return Ok(());
    }
    if at < FEW_NAMES && many.is_empty() {
        return push(few, key, property);
    }
    insert(many, key, property)
}

/// Takes the property of a key out of the first ones, or of those behind them.
#[tactic(auto, using(crate::proofs::Few_laws::removed_here, crate::proofs::Few_laws::removed_many))]
fn remove_first(few: &mut Vec<NamedProperty>, many: &mut IndexMap<Key, Descriptor>, key: &Key)
    ensures { let before = few.old.items ++ many.old.entries in
        let after = remove_entry (same_key same_made_symbol key.now) before in
        few.new.items ++ many.new.entries ≡ after }
{
    let at = place_of(few, key);
    if at < few.len() {
        take_out(few, at);
    } else {
        many.shift_remove(key);
    }
}

/// Replaces the property of a key among the first ones, or those behind them.
#[tactic(auto, using(crate::proofs::Few_laws::replaced_here, crate::proofs::Few_laws::replaced_many, crate::proofs::Few_laws::found_few, crate::proofs::Few_laws::own_many))]
fn replace_first(
    few: &mut Vec<NamedProperty>,
    many: &mut IndexMap<Key, Descriptor>,
    key: Key,
    property: Descriptor,
) -> bool
    ensures found { let before = few.old.items ++ many.old.entries in
        result ≡ is_some (lookup (same_key same_made_symbol key) before) }
    ensures properties { let before = few.old.items ++ many.old.entries in
        let after = set_value (same_key same_made_symbol key) before property in
        few.new.items ++ many.new.entries ≡ after }
{
    let at = place_of(few, &key);
    if at < few.len() {
        put(few, at, property);
        true
    } else {
        replace_hashed(many, key, property)
    }
}

/// Puts another property at a place.
#[tactic(auto, using(crate::proofs::Few_laws::put_at))]
fn put(few: &mut Vec<NamedProperty>, at: usize, property: Descriptor)
    requires { at < length few.old.items }
    ensures { few.new.items ≡ with_value_at few.old.items at property }
{
    few[at].put(property);
}

/// Takes a property at a place out.
fn take_out(few: &mut Vec<NamedProperty>, at: usize)
    requires { at < length few.old.items }
    ensures { few.new.items ≡ remove few.old.items at }
{
    few.remove(at);
}

/// Appends a property to the first ones.
fn push(few: &mut Vec<NamedProperty>, key: Key, property: Descriptor) -> Result<(), OutOfMemory>
    ensures ok { OnOk result (few.new.items ≡ few.old.items ++ (key, property) ∷ []) }
    ensures err { OnErr result (few.new.items ≡ few.old.items) }
{
    few.push(NamedProperty::new(key, property))?;
    Ok(())
}

/// Writes the property of a key among the hashed ones.
fn insert(
    many: &mut IndexMap<Key, Descriptor>,
    key: Key,
    property: Descriptor,
) -> Result<(), OutOfMemory>
    ensures ok { let same = same_key same_made_symbol in
        OnOk result (many.new.entries ≡ insert_entry same many.old.entries key property) }
    ensures err { OnErr result (many.new.entries ≡ many.old.entries) }
{
    many.insert(key, property)?;
    Ok(())
}

/// Replaces the property of a key among the hashed ones, if there is one. What is there is written again without memory.
#[tactic(auto, using(crate::proofs::Few_laws::inserted_again, crate::proofs::Few_laws::none_replaced))]
fn replace_hashed(many: &mut IndexMap<Key, Descriptor>, key: Key, property: Descriptor) -> bool
    ensures found { result ≡ is_some (lookup (same_key same_made_symbol key) many.old.entries) }
    ensures properties { let same = same_key same_made_symbol key in
        many.new.entries ≡ set_value same many.old.entries property }
{
    if !many.contains_key(&key) {
        return false;
    }
    many.insert(key, property).is_ok()
}

/// Appends those keys of the first ones that are symbols, or those that are none.
fn push_few(few: &[NamedProperty], symbols: bool, keys: &mut List<Key>) -> Result<(), OutOfMemory>
    ensures { let names = filter (chosen symbols) (keys_of few.now) in
        OnOk result (keys.new ≡ keys.old ++ names) }
{
    for entry in few {
        if is_chosen(entry.key(), symbols) {
            keys.push(copy_key(entry.key())?)?;
        }
    }
    Ok(())
}

/// Appends those of the hashed keys that are symbols, or those that are none.
fn push_many(
    many: &IndexMap<Key, Descriptor>,
    symbols: bool,
    keys: &mut List<Key>,
) -> Result<(), OutOfMemory>
    ensures { let names = filter (chosen symbols) (keys_of many.now.entries) in
        OnOk result (keys.new ≡ keys.old ++ names) }
{
    for key in many.keys() {
        if is_chosen(key, symbols) {
            keys.push(copy_key(key)?)?;
        }
    }
    Ok(())
}

/// Whether a key is a symbol, where symbols are wanted, or none, where none are.
fn is_chosen(key: &Key, symbols: bool) -> bool
    ensures { result ≡ chosen symbols key.now }
{
    let symbol = matches!(key, Key::Symbol(_));
    if symbols { symbol } else { !symbol }
}

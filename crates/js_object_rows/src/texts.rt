// What calls of texts answer.

use crate::fault::Fault;
use crate::shown::{push_count, push_number, push_units};
use crate::words::{bytes_of, number_of, text_of, two_of};
use js_text::utf8::from_utf8;
use std::alloc::Global;
use std::hash::{DefaultHasher, Hash, Hasher};

/// `utf8 BYTES`: the units of the text.
pub fn utf8(alloc: Global, out: &mut String, word: &str) -> Result<(), Fault> {
    let text = from_utf8(alloc, &bytes_of(alloc, word)?)?;
    push_units(alloc, out, &text)
}

/// `units TEXT`: its length and its units.
pub fn units(alloc: Global, out: &mut String, word: &str) -> Result<(), Fault> {
    let text = text_of(alloc, word)?;
    push_number(out, i64::from(text.len()))?;
    push_units(alloc, out, &text.copy()?)
}

/// `find TEXT PART FROM`: the least place there.
pub fn find(alloc: Global, out: &mut String, words: &str) -> Result<(), Fault> {
    let (text, words) = two_of(words)?;
    let (part, from) = two_of(words)?;
    let from = number_of(from)?;
    let place = text_of(alloc, text)?.find(&text_of(alloc, part)?, from);
    push_count(out, place)
}

/// The hash of a thing by the default hasher.
pub fn hash_of<T: Hash>(value: &T) -> u64 {
    let mut state = DefaultHasher::new();
    value.hash(&mut state);
    state.finish()
}

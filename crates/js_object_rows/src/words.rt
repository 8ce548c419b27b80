// How the lines write numbers, texts, keys, values and references.

use crate::fault::Fault;
use js_text::index::key_of_text;
use js_text::text::{Text, from_units};
use js_text::value::{Key, Symbol, Value};
use lava_base::ids::{CommonId, MadeSymbol, ObjId, PartyId, Ref};
use std::alloc::Global;

/// A number in decimal.
pub fn number_of(word: &str) -> Result<u32, Fault> {
    match word.parse::<u32>() {
        Ok(number) => Ok(number),
        Err(_) => Err(Fault::Line),
    }
}

/// Two words.
pub fn two_of(words: &str) -> Result<(&str, &str), Fault> {
    words.split_once(' ').ok_or(Fault::Line)
}

/// Appends a run: letters behind a `'`, or a number in hexadecimal.
fn push_run(units: &mut Vec<u16>, run: &str) -> Result<(), Fault> {
    if let Some(letters) = run.strip_prefix('\'') {
        for letter in letters.as_bytes() {
            units.push(u16::from(*letter))?;
        }
        return Ok(());
    }
    let Ok(unit) = u16::from_str_radix(run, 16) else {
        return Err(Fault::Line);
    };
    units.push(unit)?;
    Ok(())
}

/// Appends a run with a count behind a `*`, or one that stands once.
fn push_counted(units: &mut Vec<u16>, run: &str) -> Result<(), Fault> {
    let (run, count) = run.split_once('*').unwrap_or((run, "1"));
    for _ in 0..number_of(count)? {
        push_run(units, run)?;
    }
    Ok(())
}

/// Runs with a `+` between them, as units.
pub fn units_of(alloc: Global, word: &str) -> Result<Vec<u16>, Fault> {
    let mut units = Vec::new(alloc);
    for run in word.split('+') {
        push_counted(&mut units, run)?;
    }
    Ok(units)
}

/// The same as bytes.
pub fn bytes_of(alloc: Global, word: &str) -> Result<Vec<u8>, Fault> {
    let units = units_of(alloc, word)?;
    let mut bytes = Vec::new(alloc);
    for unit in &units {
        bytes.push(u8::try_from(*unit).unwrap_or(0))?;
    }
    Ok(bytes)
}

/// A text that is one piece.
fn piece_of(alloc: Global, word: &str) -> Result<Text, Fault> {
    Ok(from_units(alloc, &units_of(alloc, word)?)?)
}

/// Two texts joined.
pub fn joined(alloc: Global, front: &Text, back: &Text) -> Result<Text, Fault> {
    Ok(front.concat(alloc, back)?)
}

/// A text: pieces with a `|` between them, which are joined.
pub fn text_of(alloc: Global, word: &str) -> Result<Text, Fault> {
    match word.split_once('|') {
        None => piece_of(alloc, word),
        Some((front, back)) => joined(alloc, &piece_of(alloc, front)?, &piece_of(alloc, back)?),
    }
}

/// The numbers of a party and of what it made, with a `:` between them.
fn pair_of(word: &str) -> Result<(u32, u32), Fault> {
    let (party, id) = word.split_once(':').ok_or(Fault::Line)?;
    Ok((number_of(party)?, number_of(id)?))
}

/// A reference: to a common object as `c0`, or to one of a party as `1:0`.
pub fn reference_of(word: &str) -> Result<Ref, Fault> {
    if let Some(place) = word.strip_prefix('c') {
        return Ok(Ref::Common(CommonId(number_of(place)?)));
    }
    let (party, id) = pair_of(word)?;
    Ok(Ref::Own {
        party: PartyId(party),
        id: ObjId(id),
    })
}

/// A symbol: `iterator`, one that is registered as `for` and its text, or one that a party made as `1:0`.
fn symbol_of(alloc: Global, word: &str) -> Result<Symbol, Fault> {
    if word == "iterator" {
        return Ok(Symbol::Iterator);
    }
    if let Some(text) = word.strip_prefix("for") {
        return Ok(Symbol::Registered(text_of(alloc, text)?));
    }
    let (party, id) = pair_of(word)?;
    Ok(Symbol::Made(MadeSymbol {
        party: PartyId(party),
        id: ObjId(id),
    }))
}

/// A key: a symbol behind a `@`, or a text.
pub fn key_of(alloc: Global, word: &str) -> Result<Key, Fault> {
    match word.strip_prefix('@') {
        Some(symbol) => Ok(Key::Symbol(symbol_of(alloc, symbol)?)),
        None => Ok(key_of_text(text_of(alloc, word)?)),
    }
}

/// A value: a word of the language, an integer in decimal, an object behind a `#`, a symbol behind a `@`, or a text that begins with a `'`.
pub fn value_of(alloc: Global, word: &str) -> Result<Value, Fault> {
    match word {
        "undefined" => Ok(Value::Undefined),
        "null" => Ok(Value::Null),
        "true" => Ok(Value::Bool(true)),
        "false" => Ok(Value::Bool(false)),
        _ => value_with(alloc, word),
    }
}

/// A value that is no word of the language.
fn value_with(alloc: Global, word: &str) -> Result<Value, Fault> {
    if let Some(object) = word.strip_prefix('#') {
        return Ok(Value::Ref(reference_of(object)?));
    }
    if let Some(symbol) = word.strip_prefix('@') {
        return Ok(Value::Symbol(symbol_of(alloc, symbol)?));
    }
    if word.starts_with('\'') {
        return Ok(Value::Text(text_of(alloc, word)?));
    }
    match word.parse::<i64>() {
        Ok(integer) => Ok(Value::Int(integer)),
        Err(_) => Err(Fault::Line),
    }
}

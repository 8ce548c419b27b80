// The natives on texts that read their operands alone.

ghost use Rattle.std.specs.Prelude.{◌≡◌, ◌<◌, ◌≤◌, ◌++◌, List, ℕ, Option, map, length, IfOk, IfErr};
ghost use Rattle.js_text.specs.declared.fault.TextFault.TheVariants as TextFault;
ghost use Rattle.js_text.specs.declared.text.TheConstants.{MAX_UNITS};
ghost use Rattle.js_native.specs.NativeDecisions.{given, given_text};
ghost use Rattle.js_native.specs.TextNatives.{FindsFirst, are_texts, ascii_text, cased_unit, clamped, concat_texts, found_value, index_in, is_text, joined_texts, lower_unit, part_between, slice_text, text_of_value, unit_at, unit_of, upper_unit};

use crate::next::Next;
use js_desc::decision::{Decision, EndKind};
use js_desc::fault::FaultText;
use js_desc::reply::Reply;
use js_text::fault::TextFault;
use js_text::text::{Text, from_units};
use js_text::value::Value;
use lava_base::memory::OutOfMemory;
use std::alloc::Global;

/// `unitAt(s, i)`: the unit of a text at a place; outside the text the run ends (ECMA-262, String.prototype.charCodeAt).
pub fn unit_at(args: &[Value]) -> Decision<Next>
    ensures { result ≡ unit_at args.now }
{
    match args {
        [Value::Text(text), Value::Int(at)] => unit_of(text, *at),
        [_, _] => Decision::Fault(FaultText::CannotConvert),
        _ => Decision::Fault(FaultText::WrongKind),
    }
}

/// The unit of a text at a place.
fn unit_of(text: &Text, at: i64) -> Decision<Next>
    ensures { result ≡ unit_of text.now at }
{
    if at < 0 || at >= text.len() as i64 {
        return Decision::End(EndKind::Number);
    }
    let unit = text.unit(at as u32);
    Decision::Done(Reply::Value(Value::Int(unit as i64)))
}

/// A place, moved into a text.
fn clamped(at: i64, len: u32) -> u32
    ensures value { result ≡ clamped at len }
    ensures within { result ≤ len }
{
    if at < 0 {
        0
    } else if at >= len as i64 {
        len
    } else {
        at as u32
    }
}

/// `slice(s, a, b)`: the units of a text from one place up to another (ECMA-262, String.prototype.slice).
pub fn slice_text(alloc: Global, args: &[Value]) -> Result<Decision<Next>, OutOfMemory>
    ensures { IfOk result (λ d. d ≡ slice_text args.now) }
{
    match args {
        [Value::Text(text), Value::Int(from), Value::Int(to)] => {
            let part = part_between(alloc, text, *from, *to)?;
            Ok(Decision::Done(Reply::Value(Value::Text(part))))
        }
        [_, _, _] => Ok(Decision::Fault(FaultText::CannotConvert)),
        _ => Ok(Decision::Fault(FaultText::WrongKind)),
    }
}

/// The units from one place up to another, and none where that is not after it.
fn part_between(alloc: Global, text: &Text, from: i64, to: i64) -> Result<Text, OutOfMemory>
    ensures { IfOk result (λ part. part ≡ part_between text.now from to) }
{
    let len = text.len();
    let from = clamped(from, len);
    let to = clamped(to, len);
    if from < to {
        text.slice(alloc, from, to)
    } else {
        text.slice(alloc, 0, 0)
    }
}

/// `indexIn(s, t, from)`: the first place at `from` or after it where `t` stands in `s`, or -1 (ECMA-262, StringIndexOf).
pub fn index_in(args: &[Value]) -> Decision<Next>
    ensures { (find : List ℕ → List ℕ → ℕ → Option ℕ) → FindsFirst find
        → result ≡ index_in find args.now }
{
    match args {
        [Value::Text(text), Value::Text(part), Value::Int(from)] => first_place(text, part, *from),
        [_, _, _] => Decision::Fault(FaultText::CannotConvert),
        _ => Decision::Fault(FaultText::WrongKind),
    }
}

/// The first place of a part in a text.
#[tactic(auto, using(crate::proofs::Places_found::one_first_place))]
fn first_place(text: &Text, part: &Text, from: i64) -> Decision<Next>
    ensures { (find : List ℕ → List ℕ → ℕ → Option ℕ) → FindsFirst find
        → result ≡ given (found_value (find text.now part.now (clamped from (length text.now)))) }
{
    let found = text.find(part, clamped(from, text.len()));
    Decision::Done(Reply::Value(found_value(found)))
}

/// A place as an integer, or -1.
fn found_value(found: Option<u32>) -> Value
    ensures { result ≡ found_value found }
{
    match found {
        None => Value::Int(-1),
        Some(at) => Value::Int(at as i64),
    }
}

/// Whether all operands are texts.
#[tactic(auto, using(crate::proofs::Joined_laws::texts_step, crate::proofs::Joined_laws::texts_end))]
fn are_texts(args: &[Value]) -> bool
    ensures { result ≡ are_texts args.now }
{
    for value in args {
        if !is_text(value) {
            return false;
        }
    }
    true
}

/// Whether a value is a text.
fn is_text(value: &Value) -> bool
    ensures { result ≡ is_text value.now }
{
    match value {
        Value::Text(_) => true,
        _ => false,
    }
}

/// `concat(texts)`: all operands, which are texts, one after another (ECMA-262, String.prototype.concat). A text past the limit ends the run.
pub fn concat_texts(alloc: Global, args: &[Value]) -> Result<Decision<Next>, OutOfMemory>
    ensures { IfOk result (λ d. d ≡ concat_texts args.now) }
{
    if !are_texts(args) {
        return Ok(Decision::Fault(FaultText::CannotConvert));
    }
    match joined_texts(alloc, args) {
        Ok(text) => Ok(given_text(text)),
        Err(TextFault::TooLong) => Ok(Decision::End(EndKind::Text)),
        Err(_) => Err(OutOfMemory),
    }
}

/// A text is given. Each text there is keeps the limit.
fn given_text(text: Text) -> Decision<Next>
    ensures { result ≡ given_text text }
{
    // The length is read so that it is known to keep the limit.
    let _len = text.len();
    Decision::Done(Reply::Value(Value::Text(text)))
}

/// The texts one after another.
#[tactic(auto, using(crate::proofs::Joined_laws::joined_step, crate::proofs::Joined_laws::joined_all, crate::proofs::Joined_laws::joined_within))]
fn joined_texts(alloc: Global, args: &[Value]) -> Result<Text, TextFault>
    ensures text { IfOk result (λ text. text ≡ joined_texts args.now) }
    ensures too_long { IfErr result (λ fault.
        fault ≡ TextFault.TooLong → MAX_UNITS < length (joined_texts args.now)) }
{
    let mut joined = from_units(alloc, &[])?;
    for value in args {
        joined = with_text(alloc, joined, value)?;
    }
    Ok(joined)
}

/// A text with a value after it, if that is a text.
fn with_text(alloc: Global, front: Text, value: &Value) -> Result<Text, TextFault>
    ensures text { IfOk result (λ text. text ≡ front ++ text_of_value value.now) }
    ensures too_long { IfErr result (λ fault.
        fault ≡ TextFault.TooLong → MAX_UNITS < length (front ++ text_of_value value.now)) }
{
    match value {
        Value::Text(text) => front.concat(alloc, text),
        _ => Ok(front),
    }
}

/// `ascii(s, up)`: a text with its ASCII letters in upper case where `up` is true, and else in lower case.
pub fn ascii_text(alloc: Global, args: &[Value]) -> Result<Decision<Next>, OutOfMemory>
    ensures { IfOk result (λ d. d ≡ ascii_text args.now) }
{
    match args {
        [Value::Text(text), Value::Bool(up)] => {
            let cased = cased_text(alloc, text, *up)?;
            Ok(Decision::Done(Reply::Value(Value::Text(cased))))
        }
        [_, _] => Ok(Decision::Fault(FaultText::CannotConvert)),
        _ => Ok(Decision::Fault(FaultText::WrongKind)),
    }
}

/// A text in one case.
fn cased_text(alloc: Global, text: &Text, up: bool) -> Result<Text, OutOfMemory>
    ensures { IfOk result (λ cased. cased ≡ map (cased_unit up) text.now) }
{
    let units = cased_units(alloc, text.to_units(alloc)?.as_slice(), up)?;
    match from_units(alloc, &units) {
        Ok(cased) => Ok(cased),
        Err(_) => Err(OutOfMemory),
    }
}

/// Units in one case.
fn cased_units(alloc: Global, units: &[u16], up: bool) -> Result<Vec<u16>, OutOfMemory>
    ensures { IfOk result (λ cased. cased.items ≡ map (cased_unit up) units.now) }
{
    let mut cased = Vec::with_capacity(alloc, units.len())?;
    for unit in units {
        cased.push(cased_unit(*unit, up))?;
    }
    Ok(cased)
}

/// A unit in one case, if it is an ASCII letter.
fn cased_unit(unit: u16, up: bool) -> u16
    ensures { result ≡ cased_unit up unit }
{
    if up {
        upper_unit(unit)
    } else {
        lower_unit(unit)
    }
}

/// A lower-case ASCII letter in upper case.
fn upper_unit(unit: u16) -> u16
    ensures { result ≡ upper_unit unit }
{
    if 97 <= unit && unit <= 122 {
        unit - 32
    } else {
        unit
    }
}

/// An upper-case ASCII letter in lower case.
fn lower_unit(unit: u16) -> u16
    ensures { result ≡ lower_unit unit }
{
    if 65 <= unit && unit <= 90 {
        unit + 32
    } else {
        unit
    }
}

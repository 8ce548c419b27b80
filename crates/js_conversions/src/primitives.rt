// Primitive values as numbers and as texts.

ghost use Rattle.std.specs.Prelude.{◌≡◌, ℕ, ℤ, List, Option, IfOk};
ghost use Rattle.js_text.specs.declared.value.Value.TheVariants as value;
ghost use Rattle.js_conversions.specs.Primitives.{ReadsNumbers, given, number_of_truth, number_read, text_of_truth, to_number, to_property_key, to_string};

use crate::next::Next;
use js_desc::decision::{Decision, EndKind};
use js_desc::fault::FaultText;
use js_desc::reply::Reply;
use js_num::laws::one_number;
use js_num::safe::Safe;
use js_operations::names::{ascii_text, number_text};
use js_text::copy::copy_symbol;
use js_text::text::Text;
use js_text::value::Value;
use lava_base::memory::OutOfMemory;
use std::alloc::Global;

/// The number of a truth value.
fn number_of_truth(truth: bool) -> i64
    ensures { result ≡ number_of_truth truth }
{
    if truth { 1 } else { 0 }
}

/// Gives a number.
fn given_number(number: i64) -> Decision<Next>
    ensures { result ≡ given (value.Int number) }
{
    Decision::Done(Reply::Value(Value::Int(number)))
}

/// Gives a safe integer.
fn given_safe(number: Safe) -> Decision<Next>
    ensures { result ≡ given (value.Int number) }
{
    given_number(number.get())
}

/// The number that a text stands for; where it stands for none, the run ends (ECMA-262, StringToNumber).
#[tactic(auto, using(crate::proofs::Numbers_read::number_found, crate::proofs::Numbers_read::number_missing))]
fn number_of_text(alloc: Global, text: &Text) -> Result<Decision<Next>, OutOfMemory>
    ensures { (read : List ℕ → Option ℤ) → ReadsNumbers read
        → IfOk result (λ d. d ≡ number_read (read text.now)) }
{
    one_number();
    let units = text.to_units(alloc)?;
    match Safe::from_text(units.as_slice()) {
        Ok(number) => Ok(given_safe(number)),
        Err(_) => Ok(Decision::End(EndKind::Number)),
    }
}

/// A primitive value as a number (ECMA-262, ToNumber).
pub fn to_number(alloc: Global, value: &Value) -> Result<Decision<Next>, OutOfMemory>
    ensures { (read : List ℕ → Option ℤ) → ReadsNumbers read
        → IfOk result (λ d. d ≡ to_number read value.now) }
{
    match value {
        Value::Undefined => Ok(Decision::End(EndKind::Number)),
        Value::Null => Ok(Decision::Done(Reply::Value(Value::Int(0)))),
        Value::Bool(truth) => Ok(given_number(number_of_truth(*truth))),
        Value::Int(number) => Ok(given_number(*number)),
        Value::Text(text) => number_of_text(alloc, text),
        Value::Symbol(_) | Value::Ref(_) => Ok(Decision::Fault(FaultText::CannotConvert)),
    }
}

/// The text of a truth value.
fn text_of_truth(truth: bool) -> &'static str
    ensures { result.now ≡ text_of_truth truth }
{
    if truth { "true" } else { "false" }
}

/// A name in ASCII as a text that is given.
fn given_name(alloc: Global, name: &str) -> Result<Decision<Next>, OutOfMemory>
    ensures { IfOk result (λ d. d ≡ given (value.Text name.now)) }
{
    let text = ascii_text(alloc, name)?;
    Ok(Decision::Done(Reply::Value(Value::Text(text))))
}

/// A primitive value as a text (ECMA-262, ToString). Want of memory is answered too for a number that is no safe integer.
pub fn to_string(alloc: Global, value: &Value) -> Result<Decision<Next>, OutOfMemory>
    ensures { IfOk result (λ d. d ≡ to_string value.now) }
{
    match value {
        Value::Undefined => given_name(alloc, "undefined"),
        Value::Null => given_name(alloc, "null"),
        Value::Bool(truth) => given_name(alloc, text_of_truth(*truth)),
        Value::Int(number) => {
            let text = number_text(alloc, *number)?;
            Ok(Decision::Done(Reply::Value(Value::Text(text))))
        }
        Value::Text(text) => Ok(Decision::Done(Reply::Value(Value::Text(text.copy()?)))),
        Value::Symbol(_) | Value::Ref(_) => Ok(Decision::Fault(FaultText::CannotConvert)),
    }
}

/// A primitive value as a property key, which is a text or a symbol (ECMA-262, ToPropertyKey).
pub fn to_property_key(alloc: Global, value: &Value) -> Result<Decision<Next>, OutOfMemory>
    ensures { IfOk result (λ d. d ≡ to_property_key value.now) }
{
    match value {
        Value::Symbol(symbol) => {
            let symbol = copy_symbol(symbol)?;
            Ok(Decision::Done(Reply::Value(Value::Symbol(symbol))))
        }
        value => to_string(alloc, value),
    }
}

// Texts and property keys.

ghost use Rattle.std.specs.Prelude.{◌≡◌, IfOk, option_map};
ghost use Rattle.js_operation.specs.Computing.{both_texts, key_computed, key_of, text_converted, text_of, texts_of};

use js_desc::decision::Decision;
use js_desc::fault::FaultText;
use js_desc::reply::Reply;
use js_operation::js_conversions::next::Next;
use js_operation::js_conversions::primitives::to_string;
use js_operation::operation::Computed;
use js_text::copy::copy_symbol;
use js_text::index::key_of_text;
use js_text::text::Text;
use js_text::value::{Key, Value};
use lava_base::memory::OutOfMemory;
use std::alloc::Global;

/// What a conversion to a text gives.
fn text_converted(conversion: Decision<Next>) -> Computed<Text>
    ensures { result ≡ text_converted conversion }
{
    match conversion {
        Decision::Done(Reply::Value(Value::Text(text))) => Computed::Is(text),
        Decision::Fault(fault) => Computed::Fault(fault),
        Decision::End(end) => Computed::End(end),
        _ => Computed::Fault(FaultText::WrongKind),
    }
}

/// A value that is no object as a text (ECMA-262, ToString).
pub fn text_of(alloc: Global, value: &Value) -> Result<Computed<Text>, OutOfMemory>
    ensures { IfOk result (λ t. t ≡ text_of value.now) }
{
    match value {
        Value::Text(text) => Ok(Computed::Is(text.copy()?)),
        _ => Ok(text_converted(to_string(alloc, value)?)),
    }
}

/// Two values that are no objects as texts, the left one first (ECMA-262, ToString).
pub fn texts_of(
    alloc: Global,
    left: &Value,
    right: &Value,
) -> Result<Computed<(Text, Text)>, OutOfMemory>
    ensures { IfOk result (λ t. t ≡ texts_of left.now right.now) }
{
    let first = match text_of(alloc, left)? {
        Computed::Is(text) => text,
        Computed::Fault(fault) => return Ok(Computed::Fault(fault)),
        Computed::End(end) => return Ok(Computed::End(end)),
    };
    match text_of(alloc, right)? {
        Computed::Is(second) => Ok(Computed::Is((first, second))),
        Computed::Fault(fault) => Ok(Computed::Fault(fault)),
        Computed::End(end) => Ok(Computed::End(end)),
    }
}

/// The key that a text is.
fn key_computed(text: Computed<Text>) -> Computed<Key>
    ensures { result ≡ key_computed text }
{
    match text {
        Computed::Is(text) => Computed::Is(key_of_text(text)),
        Computed::Fault(fault) => Computed::Fault(fault),
        Computed::End(end) => Computed::End(end),
    }
}

/// A value that is no object as a property key (ECMA-262, ToPropertyKey).
pub fn key_of(alloc: Global, value: &Value) -> Result<Computed<Key>, OutOfMemory>
    ensures { IfOk result (λ k. k ≡ key_of value.now) }
{
    match value {
        Value::Symbol(symbol) => Ok(Computed::Is(Key::Symbol(copy_symbol(symbol)?))),
        _ => Ok(key_computed(text_of(alloc, value)?)),
    }
}

/// Two values that are both texts.
pub(crate) fn both_texts<'a>(left: &'a Value, right: &'a Value) -> Option<(&'a Text, &'a Text)>
    ensures { option_map (λ t. (t.0.now, t.1.now)) result ≡ both_texts left.now right.now }
{
    match (left, right) {
        (Value::Text(first), Value::Text(second)) => Some((first, second)),
        _ => None,
    }
}

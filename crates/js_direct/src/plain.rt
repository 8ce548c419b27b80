// Values that are copied as they are.

ghost use Rattle.std.specs.Prelude.{◌≡◌, IfSome};
ghost use Rattle.js_direct.specs.Direct.{value_of};

use js_text::value::Value;
use lava_base::ids::Ref;

/// A value that is no text and no symbol.
#[derive(Clone, Copy)]
pub enum Plain {
    Undefined,
    Null,
    Bool(bool),
    Int(i64),
    Ref(Ref),
}

/// The plain value that a value is, if it is one.
#[inline]
pub fn plain_of(value: &Value) -> Option<Plain>
    ensures { IfSome result (λ p. value_of p ≡ value.now) }
{
    match value {
        Value::Undefined => Some(Plain::Undefined),
        Value::Null => Some(Plain::Null),
        Value::Bool(truth) => Some(Plain::Bool(*truth)),
        Value::Int(number) => Some(Plain::Int(*number)),
        Value::Ref(reference) => Some(Plain::Ref(*reference)),
        _ => None,
    }
}

/// A plain value as a value.
#[inline]
pub fn as_value(plain: Plain) -> Value
    ensures { result ≡ value_of plain }
{
    match plain {
        Plain::Undefined => Value::Undefined,
        Plain::Null => Value::Null,
        Plain::Bool(truth) => Value::Bool(truth),
        Plain::Int(number) => Value::Int(number),
        Plain::Ref(reference) => Value::Ref(reference),
    }
}

// What is nullish.

ghost use Rattle.std.specs.Prelude.{◌≡◌};
ghost use Rattle.js_operation.specs.js_run.Truth.{is_nullish};

use js_text::value::Value;

/// Whether a value is undefined or null.
pub fn is_nullish(value: &Value) -> bool
    ensures { result ≡ is_nullish value.now }
{
    matches!(value, Value::Undefined | Value::Null)
}

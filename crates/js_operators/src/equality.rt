// Whether two values are equal.

ghost use Rattle.std.specs.Prelude.{◌≡◌, ℕ, ℤ, List, Option, IfOk};
ghost use Rattle.js_operation.specs.js_conversions.Primitives.{ReadsNumbers};
ghost use Rattle.js_text.specs.Naming.{naming_of};
ghost use Rattle.js_operation.specs.js_run.Truth.{is_nullish, is_strictly_equal};
ghost use Rattle.js_operation.specs.Computing.{is_loosely_equal, is_symbol, numbers_are_equal};

use crate::numbers::numbers_of;
use crate::texts::both_texts;
use js_operation::operation::Computed;
use js_text::same::is_same_value;
use js_text::value::Value;
use lava_base::memory::OutOfMemory;
use std::alloc::Global;

/// Whether a value is undefined or null.
pub fn is_nullish(value: &Value) -> bool
    ensures { result ≡ is_nullish value.now }
{
    matches!(value, Value::Undefined | Value::Null)
}

/// Whether two values are equal without any conversion (ECMA-262, IsStrictlyEqual).
pub fn is_strictly_equal(left: &Value, right: &Value) -> bool
    ensures { (me : ℕ) → result ≡ is_strictly_equal (naming_of me) left.now right.now }
{
    is_same_value(left, right)
}

/// Whether a value is a symbol.
fn is_symbol(value: &Value) -> bool
    ensures { result ≡ is_symbol value.now }
{
    matches!(value, Value::Symbol(_))
}

/// Whether the numbers of two values are equal, of which the left one is neither undefined nor null nor a symbol (ECMA-262, IsLooselyEqual, steps 5 to 10).
fn numbers_are_equal(
    alloc: Global,
    left: &Value,
    right: &Value,
) -> Result<Computed<bool>, OutOfMemory>
    ensures { (read : List ℕ → Option ℤ) → ReadsNumbers read
        → IfOk result (λ b. b ≡ numbers_are_equal read left.now right.now) }
{
    if is_nullish(right) || is_symbol(right) {
        return Ok(Computed::Is(false));
    }
    match numbers_of(alloc, left, right)? {
        Computed::Is((first, second)) => Ok(Computed::Is(first == second)),
        Computed::Fault(fault) => Ok(Computed::Fault(fault)),
        Computed::End(end) => Ok(Computed::End(end)),
    }
}

/// Whether two values are equal, where none is an object (ECMA-262, IsLooselyEqual).
pub fn is_loosely_equal(
    alloc: Global,
    left: &Value,
    right: &Value,
) -> Result<Computed<bool>, OutOfMemory>
    ensures { (read : List ℕ → Option ℤ) → ReadsNumbers read
        → IfOk result (λ b. b ≡ is_loosely_equal read left.now right.now) }
{
    if is_nullish(left) {
        return Ok(Computed::Is(is_nullish(right)));
    }
    if is_symbol(left) {
        return Ok(Computed::Is(is_same_value(left, right)));
    }
    match both_texts(left, right) {
        Some((first, second)) => Ok(Computed::Is(first.is_same(second))),
        None => numbers_are_equal(alloc, left, right),
    }
}

// The order of values that are no objects.

ghost use Rattle.std.specs.Prelude.{◌≡◌, ℕ, ℤ, List, Option, IfOk};
ghost use Rattle.js_operation.specs.js_conversions.Primitives.{ReadsNumbers};
ghost use Rattle.js_operation.specs.Computing.{is_less_than, numbers_are_less};

use crate::numbers::numbers_of;
use crate::texts::both_texts;
use js_operation::operation::Computed;
use js_text::value::Value;
use lava_base::memory::OutOfMemory;
use std::alloc::Global;

/// Whether the number of the left value is less than that of the right one (ECMA-262, Number::lessThan).
fn numbers_are_less(
    alloc: Global,
    left: &Value,
    right: &Value,
) -> Result<Computed<bool>, OutOfMemory>
    ensures { (read : List ℕ → Option ℤ) → ReadsNumbers read
        → IfOk result (λ b. b ≡ numbers_are_less read left.now right.now) }
{
    match numbers_of(alloc, left, right)? {
        Computed::Is((first, second)) => Ok(Computed::Is(first < second)),
        Computed::Fault(fault) => Ok(Computed::Fault(fault)),
        Computed::End(end) => Ok(Computed::End(end)),
    }
}

/// Whether one value is less than another, where none is an object: two texts go by their units, and else the numbers decide (ECMA-262, IsLessThan, steps 3 and 4).
pub fn is_less_than(
    alloc: Global,
    left: &Value,
    right: &Value,
) -> Result<Computed<bool>, OutOfMemory>
    ensures { (read : List ℕ → Option ℤ) → ReadsNumbers read
        → IfOk result (λ b. b ≡ is_less_than read left.now right.now) }
{
    match both_texts(left, right) {
        Some((first, second)) => Ok(Computed::Is(first.compare(second).is_lt())),
        None => numbers_are_less(alloc, left, right),
    }
}

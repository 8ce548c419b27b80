// Sums, of numbers and of texts.

ghost use Rattle.std.specs.Prelude.{◌≡◌, ◌++◌, ℕ, ℤ, List, Option, IfOk};
ghost use Rattle.js_operation.specs.js_conversions.Primitives.{ReadsNumbers};
ghost use Rattle.js_operation.specs.js_run.Operators.{either_is_text};
ghost use Rattle.js_operation.specs.Operating.{added, joined, text_or_end};

use crate::numbers::calculate;
use crate::texts::texts_of;
use js_desc::decision::EndKind;
use js_operation::operation::{Computed, Operation, number_operation};
use js_text::fault::TextFault;
use js_text::text::Text;
use js_text::value::Value;
use js_tree::operator::BinaryOperator;
use lava_base::memory::OutOfMemory;
use std::alloc::Global;

/// Makes the text of one text and then another; one past the limit ends the run.
fn concat(alloc: Global, first: &Text, second: &Text) -> Result<Operation, OutOfMemory>
    ensures { IfOk result (λ o. o ≡ text_or_end (first.now ++ second.now)) }
{
    match first.concat(alloc, second) {
        Ok(text) => Ok(Operation::Text(text)),
        Err(TextFault::TooLong) => Ok(Operation::End(EndKind::Text)),
        Err(_) => Err(OutOfMemory),
    }
}

/// Makes the text of two values that are no objects (ECMA-262, ApplyStringOrNumericBinaryOperator, step 1.c).
fn joined(alloc: Global, left: &Value, right: &Value) -> Result<Operation, OutOfMemory>
    ensures { IfOk result (λ o. o ≡ joined left.now right.now) }
{
    match texts_of(alloc, left, right)? {
        Computed::Is((first, second)) => concat(alloc, &first, &second),
        Computed::Fault(fault) => Ok(Operation::Fault(fault)),
        Computed::End(end) => Ok(Operation::End(end)),
    }
}

/// Whether one of two values is a text.
fn either_is_text(left: &Value, right: &Value) -> bool
    ensures { result ≡ either_is_text left.now right.now }
{
    matches!(left, Value::Text(_)) || matches!(right, Value::Text(_))
}

/// Adds two values that are no objects (ECMA-262, ApplyStringOrNumericBinaryOperator, of `+`).
pub(crate) fn added(alloc: Global, left: &Value, right: &Value) -> Result<Operation, OutOfMemory>
    ensures { (read : List ℕ → Option ℤ) → ReadsNumbers read
        → IfOk result (λ o. o ≡ added read left.now right.now) }
{
    if either_is_text(left, right) {
        return joined(alloc, left, right);
    }
    Ok(number_operation(calculate(alloc, BinaryOperator::Add, left, right)?))
}

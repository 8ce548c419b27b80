// Binary operators on two numbers, which convert nothing.

ghost use Rattle.std.specs.Prelude.{◌≡◌, IfOk};
ghost use Rattle.js_text.specs.declared.value.Value.TheVariants.{Int};
ghost use Rattle.js_operation.specs.js_run.Operators.{binary_value};
ghost use Rattle.js_operation.specs.Deeds.{Does};
ghost use Rattle.js_operation.specs.Operating.{integer_operation};

use crate::numbers::numeric;
use js_desc::fault::FaultText;
use js_operation::operation::{Operation, flag, number_operation};
use js_tree::operator::BinaryOperator;
use lava_base::memory::OutOfMemory;

/// What a binary operator does with two numbers.
#[inline]
fn integer_step(operator: BinaryOperator, left: i64, right: i64) -> Result<Operation, OutOfMemory>
    ensures { IfOk result (λ o. o ≡ integer_operation operator left right) }
{
    match operator {
        BinaryOperator::Less => Ok(flag(false, left < right)),
        BinaryOperator::Greater => Ok(flag(false, right < left)),
        BinaryOperator::LessOrEqual => Ok(flag(true, right < left)),
        BinaryOperator::GreaterOrEqual => Ok(flag(true, left < right)),
        BinaryOperator::LooselyEqual | BinaryOperator::StrictlyEqual => {
            Ok(flag(false, left == right))
        }
        BinaryOperator::LooselyUnequal | BinaryOperator::StrictlyUnequal => {
            Ok(flag(true, left == right))
        }
        BinaryOperator::Instanceof => Ok(Operation::Fault(FaultText::NotAFunction)),
        BinaryOperator::In => Ok(Operation::Fault(FaultText::NotAnObject)),
        _ => Ok(number_operation(numeric(operator, left, right)?)),
    }
}

/// What a binary operator does with two numbers, in a constant number of steps but for `**` (ECMA-262, ApplyStringOrNumericBinaryOperator, IsLessThan, IsStrictlyEqual). Want of memory is answered too where one is no safe integer.
#[inline]
pub fn integer_operation(
    operator: BinaryOperator,
    left: i64,
    right: i64,
) -> Result<Operation, OutOfMemory>
    ensures exact { IfOk result (λ o. o ≡ integer_operation operator left right) }
    ensures does { IfOk result (Does (λ n s. binary_value n s operator (Int left) (Int right))) }
{
    integer_step(operator, left, right)
}

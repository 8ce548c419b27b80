// What operators do once an object became a primitive value.

ghost use Rattle.std.specs.Prelude.{◌≡◌, ℕ, ℤ, List, Option, IfOk};
ghost use Rattle.js_operation.specs.js_conversions.Primitives.{ReadsNumbers};
ghost use Rattle.js_operation.specs.Deeds.{Does, rest_deed};
ghost use Rattle.js_operation.specs.Operating.{converted, key_converted};

use crate::binary::{left_primitive, primitive_binary};
use crate::equality::is_loosely_equal;
use crate::objects::has_key;
use crate::unary::primitive_unary;
use js_desc::fault::FaultText;
use js_operation::operation::{Operation, Rest, flag_operation};
use js_text::value::Value;
use lava_base::memory::OutOfMemory;
use std::alloc::Global;

/// Asks the object that is held for a property whose key is a value.
fn key_converted(alloc: Global, held: &Value, value: &Value) -> Result<Operation, OutOfMemory>
    ensures { IfOk result (λ o. o ≡ key_converted held.now value.now) }
{
    match held {
        Value::Ref(object) => has_key(alloc, value, *object),
        _ => Ok(Operation::Fault(FaultText::NotAnObject)),
    }
}

/// Goes on with what an object became.
fn converted_step(
    alloc: Global,
    rest: Rest,
    held: &Value,
    value: Value,
) -> Result<Operation, OutOfMemory>
    ensures { (read : List ℕ → Option ℤ) → ReadsNumbers read
        → IfOk result (λ o. o ≡ converted read rest held.now value) }
{
    match rest {
        Rest::Unary(operator) => primitive_unary(alloc, operator, &value),
        Rest::Left(operator) => left_primitive(alloc, operator, value, held),
        Rest::Right(operator) => primitive_binary(alloc, operator, held, &value),
        Rest::Equal { negated } => {
            Ok(flag_operation(negated, is_loosely_equal(alloc, &value, held)?))
        }
        Rest::Key => key_converted(alloc, held, &value),
    }
}

/// Goes on with the primitive value, or the property key as a value, that an object became.
pub fn converted(
    alloc: Global,
    rest: Rest,
    held: &Value,
    value: Value,
) -> Result<Operation, OutOfMemory>
    ensures exact { (read : List ℕ → Option ℤ) → ReadsNumbers read
        → IfOk result (λ o. o ≡ converted read rest held.now value) }
    ensures does { IfOk result (Does (λ n s. rest_deed n s rest held.now value)) }
{
    converted_step(alloc, rest, held, value)
}

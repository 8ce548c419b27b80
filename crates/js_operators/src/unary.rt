// Unary operators.

ghost use Rattle.std.specs.Prelude.{◌≡◌, ℕ, ℤ, negsuc, List, Option, IfOk};
ghost use Rattle.js_operation.specs.js_conversions.Primitives.{ReadsNumbers};
ghost use Rattle.js_num.specs.Bits.{bitwise};
ghost use Rattle.js_num.specs.declared.bits.BitOp.TheVariants as BitOp;
ghost use Rattle.js_text.specs.declared.value.Value.TheVariants as value;
ghost use Rattle.js_operation.specs.Deeds.{Does};
ghost use Rattle.js_operation.specs.Operating.{primitive_unary, type_of, unary_by, unary_numeric, unary_operation};
ghost use Rattle.js_operation.specs.declared.operation.Operation.TheVariants as operation;
ghost use Rattle.js_operation.specs.js_run.Operators.{unary_value};
ghost use Rattle.js_operation.specs.js_run.Truth.{to_boolean};

use crate::numbers::{number_of, safe};
use js_num::bits::BitOp;
use js_num::safe::Safe;
use js_operation::js_operations::names::ascii_text;
use js_operation::operation::{Computed, Look, Operation, Rest, object_of};
use js_text::value::Value;
use js_tree::operator::UnaryOperator;
use lava_base::ids::Ref;
use lava_base::memory::OutOfMemory;
use std::alloc::Global;

/// The integer whose bits are the opposite ones (ECMA-262, Number::bitwiseNOT).
fn bitwise_not(number: Safe) -> Result<Safe, OutOfMemory>
    ensures { IfOk result (λ n. n ≡ bitwise BitOp.Xor number (negsuc 0)) }
{
    Ok(number.bits(BitOp::Xor, safe(-1)?))
}

/// What an operator gives for a number (ECMA-262, Number::unaryMinus, Number::bitwiseNOT). Want of memory is answered too where it is no safe integer.
fn unary_numeric(operator: UnaryOperator, number: i64) -> Result<i64, OutOfMemory>
    ensures { IfOk result (λ n. n ≡ unary_numeric operator number) }
{
    match operator {
        UnaryOperator::Minus => Ok(-safe(number)?.get()),
        UnaryOperator::BitwiseNot => Ok(bitwise_not(safe(number)?)?.get()),
        _ => Ok(number),
    }
}

/// What an operator on numbers gives for a value that is no object (ECMA-262, Unary Operators).
pub(crate) fn primitive_unary(
    alloc: Global,
    operator: UnaryOperator,
    value: &Value,
) -> Result<Operation, OutOfMemory>
    ensures { (read : List ℕ → Option ℤ) → ReadsNumbers read
        → IfOk result (λ o. o ≡ primitive_unary read operator value.now) }
{
    match number_of(alloc, value)? {
        Computed::Is(number) => Ok(Operation::Value(Value::Int(unary_numeric(operator, number)?))),
        Computed::Fault(fault) => Ok(Operation::Fault(fault)),
        Computed::End(end) => Ok(Operation::End(end)),
    }
}

/// What an operator on numbers does with its operand.
fn unary_by(
    alloc: Global,
    operator: UnaryOperator,
    value: &Value,
    object: Option<Ref>,
) -> Result<Operation, OutOfMemory>
    ensures { (read : List ℕ → Option ℤ) → ReadsNumbers read
        → IfOk result (λ o. o ≡ unary_by read operator value.now object) }
{
    match object {
        Some(object) => Ok(Operation::Converts {
            object,
            rest: Rest::Unary(operator),
            held: Value::Undefined,
        }),
        None => primitive_unary(alloc, operator, value),
    }
}

/// Gives a text in ASCII.
pub(crate) fn given_name(alloc: Global, name: &str) -> Result<Operation, OutOfMemory>
    ensures { IfOk result (λ o. o ≡ operation.Value (value.Text name.now)) }
{
    Ok(Operation::Value(Value::Text(ascii_text(alloc, name)?)))
}

/// Gives the name of a value's type (ECMA-262, The typeof Operator).
fn type_of(alloc: Global, value: &Value) -> Result<Operation, OutOfMemory>
    ensures { IfOk result (λ o. o ≡ type_of value.now) }
{
    match value {
        Value::Undefined => given_name(alloc, "undefined"),
        Value::Null => given_name(alloc, "object"),
        Value::Bool(_) => given_name(alloc, "boolean"),
        Value::Int(_) => given_name(alloc, "number"),
        Value::Text(_) => given_name(alloc, "string"),
        Value::Symbol(_) => given_name(alloc, "symbol"),
        Value::Ref(object) => Ok(Operation::Looks {
            object: *object,
            look: Look::Typeof,
            held: Value::Undefined,
        }),
    }
}

/// A value as a truth value (ECMA-262, ToBoolean).
pub fn to_boolean(value: &Value) -> bool
    ensures { result ≡ to_boolean value.now }
{
    match value {
        Value::Undefined | Value::Null => false,
        Value::Bool(truth) => *truth,
        Value::Int(number) => *number != 0,
        Value::Text(text) => text.len() != 0,
        Value::Symbol(_) | Value::Ref(_) => true,
    }
}

/// What a unary operator does with its operand.
fn unary_step(
    alloc: Global,
    operator: UnaryOperator,
    value: &Value,
) -> Result<Operation, OutOfMemory>
    ensures { (read : List ℕ → Option ℤ) → ReadsNumbers read
        → IfOk result (λ o. o ≡ unary_operation read operator value.now) }
{
    match operator {
        UnaryOperator::Typeof => type_of(alloc, value),
        UnaryOperator::LogicalNot => Ok(Operation::Value(Value::Bool(!to_boolean(value)))),
        UnaryOperator::Void => Ok(Operation::Value(Value::Undefined)),
        UnaryOperator::Delete => Ok(Operation::Value(Value::Bool(true))),
        _ => unary_by(alloc, operator, value, object_of(value)),
    }
}

/// What a unary operator does with its operand (ECMA-262, Unary Operators). Want of memory is answered too where the operand is a number that is no safe integer.
pub fn unary_operation(
    alloc: Global,
    operator: UnaryOperator,
    value: &Value,
) -> Result<Operation, OutOfMemory>
    ensures exact { (read : List ℕ → Option ℤ) → ReadsNumbers read
        → IfOk result (λ o. o ≡ unary_operation read operator value.now) }
    ensures does { IfOk result (Does (λ n s. unary_value n s operator value.now)) }
{
    unary_step(alloc, operator, value)
}

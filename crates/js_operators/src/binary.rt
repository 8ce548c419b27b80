// Binary operators.

ghost use Rattle.std.specs.Prelude.{◌≡◌, ℕ, ℤ, List, Option, IfOk};
ghost use Rattle.js_operation.specs.js_conversions.Primitives.{ReadsNumbers};
ghost use Rattle.js_operation.specs.js_run.Operators.{binary_value};
ghost use Rattle.js_operation.specs.Deeds.{Does};
ghost use Rattle.js_operation.specs.Operating.{binary_operation, left_by, left_primitive, loose_by, object_by, primitive_binary, primitive_by, right_by, strict_equality, takes_numbers};

use crate::equality::{is_loosely_equal, is_nullish};
use crate::numbers::{calculate, number_of};
use crate::objects::{in_object, instance_of};
use crate::order::is_less_than;
use crate::sums::added;
use js_operation::operation::{
    Computed, Operation, Rest, flag, flag_operation, number_operation, number_value, object_of,
};
use js_text::same::is_same_value;
use js_text::value::Value;
use js_tree::operator::BinaryOperator;
use lava_base::ids::Ref;
use lava_base::memory::OutOfMemory;
use std::alloc::Global;

/// What an operator does with two operands that are no objects (ECMA-262, EvaluateStringOrNumericBinaryExpression, Relational Operators).
pub(crate) fn primitive_binary(
    alloc: Global,
    operator: BinaryOperator,
    left: &Value,
    right: &Value,
) -> Result<Operation, OutOfMemory>
    ensures { (read : List ℕ → Option ℤ) → ReadsNumbers read
        → IfOk result (λ o. o ≡ primitive_binary read operator left.now right.now) }
{
    match operator {
        BinaryOperator::Add => added(alloc, left, right),
        BinaryOperator::Less => Ok(flag_operation(false, is_less_than(alloc, left, right)?)),
        BinaryOperator::Greater => Ok(flag_operation(false, is_less_than(alloc, right, left)?)),
        BinaryOperator::LessOrEqual => Ok(flag_operation(true, is_less_than(alloc, right, left)?)),
        BinaryOperator::GreaterOrEqual => {
            Ok(flag_operation(true, is_less_than(alloc, left, right)?))
        }
        _ => Ok(number_operation(calculate(alloc, operator, left, right)?)),
    }
}

/// Whether an operator makes its operands numbers, each before it looks at the next.
fn takes_numbers(operator: BinaryOperator) -> bool
    ensures { result ≡ takes_numbers operator }
{
    !matches!(
        operator,
        BinaryOperator::Add
            | BinaryOperator::Less
            | BinaryOperator::Greater
            | BinaryOperator::LessOrEqual
            | BinaryOperator::GreaterOrEqual
    )
}

/// What an operator does with its right operand, where the left one is no object.
fn right_by(
    alloc: Global,
    operator: BinaryOperator,
    left: Value,
    right: &Value,
    object: Option<Ref>,
) -> Result<Operation, OutOfMemory>
    ensures { (read : List ℕ → Option ℤ) → ReadsNumbers read
        → IfOk result (λ o. o ≡ right_by read operator left right.now object) }
{
    match object {
        Some(object) => Ok(Operation::Converts {
            object,
            rest: Rest::Right(operator),
            held: left,
        }),
        None => primitive_binary(alloc, operator, &left, right),
    }
}

/// What an operator does with its operands, where the left one is no object.
pub(crate) fn left_primitive(
    alloc: Global,
    operator: BinaryOperator,
    left: Value,
    right: &Value,
) -> Result<Operation, OutOfMemory>
    ensures { (read : List ℕ → Option ℤ) → ReadsNumbers read
        → IfOk result (λ o. o ≡ left_primitive read operator left right.now) }
{
    if !takes_numbers(operator) {
        return right_by(alloc, operator, left, right, object_of(right));
    }
    match number_value(number_of(alloc, &left)?) {
        Computed::Is(number) => right_by(alloc, operator, number, right, object_of(right)),
        Computed::Fault(fault) => Ok(Operation::Fault(fault)),
        Computed::End(end) => Ok(Operation::End(end)),
    }
}

/// What an operator does with its operands.
fn left_by(
    alloc: Global,
    operator: BinaryOperator,
    left: Value,
    right: Value,
    object: Option<Ref>,
) -> Result<Operation, OutOfMemory>
    ensures { (read : List ℕ → Option ℤ) → ReadsNumbers read
        → IfOk result (λ o. o ≡ left_by read operator left right object) }
{
    match object {
        Some(object) => Ok(Operation::Converts {
            object,
            rest: Rest::Left(operator),
            held: right,
        }),
        None => left_primitive(alloc, operator, left, &right),
    }
}

/// Whether an object and a value are equal (ECMA-262, IsLooselyEqual).
fn object_by(negated: bool, object: Ref, value: Value, other: Option<Ref>) -> Operation
    ensures { result ≡ object_by negated object value other }
{
    if let Some(other) = other {
        return flag(negated, object.is_same(other));
    }
    if is_nullish(&value) {
        return flag(negated, false);
    }
    Operation::Converts {
        object,
        rest: Rest::Equal { negated },
        held: value,
    }
}

/// Whether a value that is no object and another one are equal (ECMA-262, IsLooselyEqual).
fn primitive_by(
    alloc: Global,
    negated: bool,
    left: Value,
    right: &Value,
    object: Option<Ref>,
) -> Result<Operation, OutOfMemory>
    ensures { (read : List ℕ → Option ℤ) → ReadsNumbers read
        → IfOk result (λ o. o ≡ primitive_by read negated left right.now object) }
{
    match object {
        Some(object) => {
            let other = object_of(&left);
            Ok(object_by(negated, object, left, other))
        }
        None => Ok(flag_operation(negated, is_loosely_equal(alloc, &left, right)?)),
    }
}

/// Whether two values are equal (ECMA-262, IsLooselyEqual).
fn loose_by(
    alloc: Global,
    negated: bool,
    left: Value,
    right: Value,
    object: Option<Ref>,
) -> Result<Operation, OutOfMemory>
    ensures { (read : List ℕ → Option ℤ) → ReadsNumbers read
        → IfOk result (λ o. o ≡ loose_by read negated left right object) }
{
    let other = object_of(&right);
    match object {
        Some(object) => Ok(object_by(negated, object, right, other)),
        None => primitive_by(alloc, negated, left, &right, other),
    }
}

/// Whether two values are equal without any conversion (ECMA-262, IsStrictlyEqual).
fn strict_equality(negated: bool, left: &Value, right: &Value) -> Operation
    ensures { result ≡ strict_equality negated left.now right.now }
{
    flag(negated, is_same_value(left, right))
}

/// What a binary operator does with its operands.
fn binary_step(
    alloc: Global,
    operator: BinaryOperator,
    left: Value,
    right: Value,
) -> Result<Operation, OutOfMemory>
    ensures { (read : List ℕ → Option ℤ) → ReadsNumbers read
        → IfOk result (λ o. o ≡ binary_operation read operator left right) }
{
    let object = object_of(&left);
    match operator {
        BinaryOperator::Instanceof => Ok(instance_of(left, &right)),
        BinaryOperator::In => in_object(alloc, &left, &right),
        BinaryOperator::LooselyEqual => loose_by(alloc, false, left, right, object),
        BinaryOperator::LooselyUnequal => loose_by(alloc, true, left, right, object),
        BinaryOperator::StrictlyEqual => Ok(strict_equality(false, &left, &right)),
        BinaryOperator::StrictlyUnequal => Ok(strict_equality(true, &left, &right)),
        _ => left_by(alloc, operator, left, right, object),
    }
}

/// What a binary operator does with its operands (ECMA-262, EvaluateStringOrNumericBinaryExpression, Relational Operators, Equality Operators). Want of memory is answered too where an operand is a number that is no safe integer.
pub fn binary_operation(
    alloc: Global,
    operator: BinaryOperator,
    left: Value,
    right: Value,
) -> Result<Operation, OutOfMemory>
    ensures exact { (read : List ℕ → Option ℤ) → ReadsNumbers read
        → IfOk result (λ o. o ≡ binary_operation read operator left right) }
    ensures does { IfOk result (Does (λ n s. binary_value n s operator left right)) }
{
    binary_step(alloc, operator, left, right)
}

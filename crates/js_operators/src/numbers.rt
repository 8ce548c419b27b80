// Numbers, and what operators calculate with them.

ghost use Rattle.std.specs.Prelude.{◌≡◌, ℕ, ℤ, List, Option, IfOk, IfSome};
ghost use Rattle.js_operation.specs.js_conversions.Primitives.{ReadsNumbers};
ghost use Rattle.js_operation.specs.js_run.Operators.{divide, numeric, remainder};
ghost use Rattle.js_operation.specs.Computing.{calculate, number_converted, number_of, number_or_end, numbers_of, safe_or_end};
ghost use Rattle.js_operation.specs.declared.operation.Computed.TheVariants.{Is};
ghost use Rattle.lava_base.specs.SafeIntegers.{IsSafe};

use js_desc::decision::{Decision, EndKind};
use js_desc::fault::FaultText;
use js_desc::reply::Reply;
use js_num::bits::BitOp;
use js_num::safe::{NotSafe, Safe};
use js_operation::js_conversions::next::Next;
use js_operation::js_conversions::primitives::to_number;
use js_operation::operation::Computed;
use js_text::value::Value;
use js_tree::operator::BinaryOperator;
use lava_base::memory::OutOfMemory;
use std::alloc::Global;

/// A number, where it is safe.
#[inline]
fn safe_or_end(number: Result<Safe, NotSafe>) -> Computed<i64>
    ensures { result ≡ safe_or_end number }
{
    match number {
        Ok(number) => Computed::Is(number.get()),
        Err(_) => Computed::End(EndKind::Number),
    }
}

/// The quotient of two integers, where it is an integer (ECMA-262, Number::divide).
fn quotient(dividend: i64, divisor: i64) -> Option<i64>
    requires { IsSafe dividend }
    ensures { result ≡ divide dividend divisor }
{
    if divisor == 0 || dividend % divisor != 0 {
        return None;
    }
    Some(dividend / divisor)
}

/// The quotient of two numbers, where it is a safe integer (ECMA-262, Number::divide).
fn divide(left: Safe, right: Safe) -> Result<Safe, NotSafe>
    ensures { safe_or_end result ≡ number_or_end (divide left right) }
{
    match quotient(left.get(), right.get()) {
        Some(number) => Safe::new(number),
        None => Err(NotSafe),
    }
}

/// The remainder of two numbers (ECMA-262, Number::remainder).
fn remainder(left: Safe, right: Safe) -> Result<Safe, NotSafe>
    ensures { safe_or_end result ≡ number_or_end (remainder left right) }
{
    let (dividend, divisor) = (left.get(), right.get());
    if divisor == 0 {
        return Err(NotSafe);
    }
    Safe::new(dividend % divisor)
}

/// What an operator on two numbers gives, where that is safe (ECMA-262, Number::exponentiate to Number::bitwiseOR).
fn operate(operator: BinaryOperator, left: Safe, right: Safe) -> Result<Safe, NotSafe>
    ensures { safe_or_end result ≡ number_or_end (numeric operator left right) }
{
    match operator {
        BinaryOperator::Exponentiate => left.pow(right),
        BinaryOperator::Multiply => left.mul(right),
        BinaryOperator::Divide => divide(left, right),
        BinaryOperator::Remainder => remainder(left, right),
        BinaryOperator::Add => left.add(right),
        BinaryOperator::Subtract => left.sub(right),
        BinaryOperator::LeftShift => Ok(left.bits(BitOp::Shl, right)),
        BinaryOperator::SignedRightShift => Ok(left.bits(BitOp::Shr, right)),
        BinaryOperator::UnsignedRightShift => Ok(left.bits(BitOp::ShrUnsigned, right)),
        BinaryOperator::BitwiseAnd => Ok(left.bits(BitOp::And, right)),
        BinaryOperator::BitwiseXor => Ok(left.bits(BitOp::Xor, right)),
        BinaryOperator::BitwiseOr => Ok(left.bits(BitOp::Or, right)),
        _ => Err(NotSafe),
    }
}

/// The number, which is a safe one. Want of memory is answered too where it is not.
#[inline]
pub(crate) fn safe(number: i64) -> Result<Safe, OutOfMemory>
    ensures { IfOk result (λ safe. safe ≡ number) }
{
    match Safe::new(number) {
        Ok(safe) => Ok(safe),
        Err(_) => Err(OutOfMemory),
    }
}

/// What an operator on two numbers gives; a result that is no safe integer ends the run (ECMA-262, ApplyStringOrNumericBinaryOperator). Want of memory is answered too where an operand is no safe integer.
#[inline]
pub fn numeric(
    operator: BinaryOperator,
    left: i64,
    right: i64,
) -> Result<Computed<i64>, OutOfMemory>
    ensures { IfOk result (λ n. n ≡ number_or_end (numeric operator left right)) }
{
    let left = safe(left)?;
    let right = safe(right)?;
    Ok(safe_or_end(operate(operator, left, right)))
}

/// The same where it is a number, and none else: nothing else is made. None is answered too where an operand is no safe integer.
#[inline]
#[tactic(auto, using(crate::proofs::Safe_numbers::number_given))]
pub fn number_by(operator: BinaryOperator, left: i64, right: i64) -> Option<i64>
    ensures { IfSome result (λ n. number_or_end (numeric operator left right) ≡ Is n) }
{
    let Ok(left) = Safe::new(left) else {
        return None;
    };
    let Ok(right) = Safe::new(right) else {
        return None;
    };
    match operate(operator, left, right) {
        Ok(number) => Some(number.get()),
        Err(_) => None,
    }
}

/// What a conversion to a number gives.
fn number_converted(conversion: Decision<Next>) -> Computed<i64>
    ensures { result ≡ number_converted conversion }
{
    match conversion {
        Decision::Done(Reply::Value(Value::Int(number))) => Computed::Is(number),
        Decision::Fault(fault) => Computed::Fault(fault),
        Decision::End(end) => Computed::End(end),
        _ => Computed::Fault(FaultText::WrongKind),
    }
}

/// A value that is no object as a number (ECMA-262, ToNumber).
pub fn number_of(alloc: Global, value: &Value) -> Result<Computed<i64>, OutOfMemory>
    ensures { (read : List ℕ → Option ℤ) → ReadsNumbers read
        → IfOk result (λ n. n ≡ number_of read value.now) }
{
    match value {
        Value::Int(number) => Ok(Computed::Is(*number)),
        _ => Ok(number_converted(to_number(alloc, value)?)),
    }
}

/// Two values that are no objects as numbers, the left one first (ECMA-262, ToNumber).
pub fn numbers_of(
    alloc: Global,
    left: &Value,
    right: &Value,
) -> Result<Computed<(i64, i64)>, OutOfMemory>
    ensures { (read : List ℕ → Option ℤ) → ReadsNumbers read
        → IfOk result (λ n. n ≡ numbers_of read left.now right.now) }
{
    let first = match number_of(alloc, left)? {
        Computed::Is(number) => number,
        Computed::Fault(fault) => return Ok(Computed::Fault(fault)),
        Computed::End(end) => return Ok(Computed::End(end)),
    };
    match number_of(alloc, right)? {
        Computed::Is(second) => Ok(Computed::Is((first, second))),
        Computed::Fault(fault) => Ok(Computed::Fault(fault)),
        Computed::End(end) => Ok(Computed::End(end)),
    }
}

/// What an operator on numbers gives for two values that are no objects (ECMA-262, ApplyStringOrNumericBinaryOperator, steps 3 to 8).
pub fn calculate(
    alloc: Global,
    operator: BinaryOperator,
    left: &Value,
    right: &Value,
) -> Result<Computed<i64>, OutOfMemory>
    ensures { (read : List ℕ → Option ℤ) → ReadsNumbers read
        → IfOk result (λ n. n ≡ calculate read operator left.now right.now) }
{
    match numbers_of(alloc, left, right)? {
        Computed::Is((first, second)) => numeric(operator, first, second),
        Computed::Fault(fault) => Ok(Computed::Fault(fault)),
        Computed::End(end) => Ok(Computed::End(end)),
    }
}

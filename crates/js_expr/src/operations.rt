// Unary, update, binary and logical expressions, and the conditional.

ghost use Rattle.std.specs.Prelude.{◌≡◌, IfOk};
ghost use Rattle.js_expr.specs.Operations as spec;

use crate::expressions::expression_phrase;
use crate::operators::{binary_operator, logical_operator, unary_operator, update_operator};
use js_phrase::phrase::Phrase;
use js_phrase::places::place_of;
use js_phrase::queue::Queue;
use js_tree::tree::Expr;
use lava_base::memory::OutOfMemory;
use std::alloc::Global;

/// An operator and its operand (ECMA-262, UnaryExpression).
pub fn unary(alloc: Global, parts: &mut Queue<Phrase>) -> Result<Phrase, OutOfMemory>
    ensures { IfOk result (λ p. p ≡ spec.unary parts.old) }
{
    let token = parts.token();
    let operand = parts.expression(alloc)?;
    let unary = Expr::Unary {
        place: token.start,
        operator: unary_operator(token.kind),
        operand,
    };
    expression_phrase(alloc, unary)
}

/// `++` or `--` and its operand (ECMA-262, UpdateExpression).
pub fn prefix_update(alloc: Global, parts: &mut Queue<Phrase>) -> Result<Phrase, OutOfMemory>
    ensures { IfOk result (λ p. p ≡ spec.prefix_update parts.old) }
{
    let token = parts.token();
    let operand = parts.expression(alloc)?;
    let update = Expr::Update {
        place: token.start,
        operator: update_operator(token.kind),
        prefix: true,
        operand,
    };
    expression_phrase(alloc, update)
}

/// `++` or `--` behind its operand (ECMA-262, UpdateExpression).
pub fn postfix_update(alloc: Global, parts: &mut Queue<Phrase>) -> Result<Phrase, OutOfMemory>
    ensures { IfOk result (λ p. p ≡ spec.postfix_update parts.old) }
{
    let operand = parts.expression(alloc)?;
    let operator = update_operator(parts.token().kind);
    let update = Expr::Update {
        place: place_of(operand.get()),
        operator,
        prefix: false,
        operand,
    };
    expression_phrase(alloc, update)
}

/// Two operands that are both evaluated, and the operator between them (ECMA-262, ExponentiationExpression to BitwiseORExpression).
pub fn binary(alloc: Global, parts: &mut Queue<Phrase>) -> Result<Phrase, OutOfMemory>
    ensures { IfOk result (λ p. p ≡ spec.binary parts.old) }
{
    let left = parts.expression(alloc)?;
    let operator = binary_operator(parts.token().kind);
    let right = parts.expression(alloc)?;
    let binary = Expr::Binary {
        place: place_of(left.get()),
        operator,
        left,
        right,
    };
    expression_phrase(alloc, binary)
}

/// Two operands, and between them `&&`, `||` or `??` (ECMA-262, LogicalANDExpression, LogicalORExpression, CoalesceExpression).
pub fn logical(alloc: Global, parts: &mut Queue<Phrase>) -> Result<Phrase, OutOfMemory>
    ensures { IfOk result (λ p. p ≡ spec.logical parts.old) }
{
    let left = parts.expression(alloc)?;
    let operator = logical_operator(parts.token().kind);
    let right = parts.expression(alloc)?;
    let logical = Expr::Logical {
        place: place_of(left.get()),
        operator,
        left,
        right,
    };
    expression_phrase(alloc, logical)
}

/// ECMA-262, ConditionalExpression.
pub fn conditional(alloc: Global, parts: &mut Queue<Phrase>) -> Result<Phrase, OutOfMemory>
    ensures { IfOk result (λ p. p ≡ spec.conditional parts.old) }
{
    let test = parts.expression(alloc)?;
    parts.skip();
    let consequent = parts.expression(alloc)?;
    parts.skip();
    let alternate = parts.expression(alloc)?;
    let conditional = Expr::Conditional {
        place: place_of(test.get()),
        test,
        consequent,
        alternate,
    };
    expression_phrase(alloc, conditional)
}

// Expressions with commas between them.

ghost use Rattle.std.specs.Prelude.{◌≡◌, IfOk};
ghost use Rattle.js_expr.specs.Commas as spec;

use js_phrase::phrase::Phrase;
use js_phrase::places::place_of;
use js_phrase::queue::Queue;
use js_tree::tree::Expr;
use lava_base::memory::OutOfMemory;
use sqlite_items::{Boxed, Items};
use std::alloc::Global;

/// Whether an expression is one with commas, which is in no parentheses.
fn is_comma(expression: &Expr) -> bool
    ensures { result ≡ spec.is_comma expression.now }
{
    matches!(expression, Expr::Comma { .. })
}

/// An expression with commas, with one operand more.
fn extended(
    alloc: Global,
    expression: Boxed<Expr>,
    operand: Boxed<Expr>,
) -> Result<Boxed<Expr>, OutOfMemory>
    ensures { IfOk result (λ e. e ≡ spec.extended expression operand) }
{
    match expression.into_inner() {
        Expr::Comma {
            place,
            mut operands,
        } => {
            operands.push(operand)?;
            Ok(Boxed::new(alloc, Expr::Comma { place, operands })?)
        }
        other => Ok(Boxed::new(alloc, other)?),
    }
}

/// Two operands.
fn pair(alloc: Global, left: Boxed<Expr>, right: Boxed<Expr>) -> Result<Boxed<Expr>, OutOfMemory>
    ensures { IfOk result (λ e. e ≡ spec.pair left right) }
{
    let place = place_of(left.get());
    let mut operands = Items::new(alloc);
    operands.push(left)?;
    operands.push(right)?;
    Ok(Boxed::new(alloc, Expr::Comma { place, operands })?)
}

/// ECMA-262, Expression.
pub fn comma_expression(alloc: Global, parts: &mut Queue<Phrase>) -> Result<Phrase, OutOfMemory>
    ensures { IfOk result (λ p. p ≡ spec.comma_expression parts.old) }
{
    let left = parts.expression(alloc)?;
    parts.skip();
    let right = parts.expression(alloc)?;
    Ok(Phrase::Expression(with_operand(alloc, left, right)?))
}

/// An operand behind a comma: it belongs to the expression before it where that has commas.
fn with_operand(
    alloc: Global,
    left: Boxed<Expr>,
    right: Boxed<Expr>,
) -> Result<Boxed<Expr>, OutOfMemory>
    ensures { IfOk result (λ e. e ≡ spec.with_operand left right) }
{
    if is_comma(left.get()) {
        extended(alloc, left, right)
    } else {
        pair(alloc, left, right)
    }
}

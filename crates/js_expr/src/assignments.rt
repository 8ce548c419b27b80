// Assignments.

ghost use Rattle.std.specs.Prelude.{◌≡◌, IfOk};
ghost use Rattle.js_expr.specs.Assignments as spec;

use crate::expressions::expression_phrase;
use crate::operators::assignment_operator;
use js_cover::targets::target_of;
use js_phrase::phrase::Phrase;
use js_phrase::places::place_of;
use js_phrase::queue::Queue;
use js_tree::tree::{Expr, Pattern};
use lava_base::memory::OutOfMemory;
use lava_base::place::Place;
use std::alloc::Global;

/// The place of a pattern's first token.
fn pattern_place(pattern: &Pattern) -> Place
    ensures { result ≡ spec.pattern_place pattern.now }
{
    match pattern {
        Pattern::Bound(name) => name.place,
        Pattern::Target(target) => place_of(target.get()),
        Pattern::ObjectPattern { place, .. } => *place,
        Pattern::ArrayPattern { place, .. } => *place,
    }
}

/// A target, `=` and a value (ECMA-262, AssignmentExpression).
pub fn assignment(alloc: Global, parts: &mut Queue<Phrase>) -> Result<Phrase, OutOfMemory>
    ensures { IfOk result (λ p. p ≡ spec.assignment parts.old) }
{
    let target = target_of(alloc, parts.next())?;
    parts.skip();
    let value = parts.expression(alloc)?;
    let assignment = Expr::Assign {
        place: pattern_place(target.get()),
        target,
        value,
    };
    expression_phrase(alloc, assignment)
}

/// A target, an operator with `=` and a value (ECMA-262, AssignmentExpression).
pub fn operator_assignment(alloc: Global, parts: &mut Queue<Phrase>) -> Result<Phrase, OutOfMemory>
    ensures { IfOk result (λ p. p ≡ spec.operator_assignment parts.old) }
{
    let target = parts.expression(alloc)?;
    let operator = assignment_operator(parts.token().kind);
    let value = parts.expression(alloc)?;
    let assignment = Expr::OperatorAssign {
        place: place_of(target.get()),
        operator,
        target,
        value,
    };
    expression_phrase(alloc, assignment)
}

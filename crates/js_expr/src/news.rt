// `new` and `super`.

ghost use Rattle.std.specs.Prelude.{◌≡◌, IfOk};
ghost use Rattle.js_tree.specs.declared.tree.LinkStep.{out-LinkStep};
ghost use Rattle.js_expr.specs.News as spec;

use crate::expressions::expression_phrase;
use crate::names::identifier;
use js_phrase::phrase::Phrase;
use js_phrase::queue::Queue;
use js_tree::tree::{Argument, Expr, LinkStep};
use lava_base::memory::OutOfMemory;
use lava_base::place::Place;
use sqlite_items::{Boxed, Items};
use std::alloc::Global;

/// `new.target` (ECMA-262, NewTarget).
pub fn new_target(alloc: Global, parts: &mut Queue<Phrase>) -> Result<Phrase, OutOfMemory>
    ensures { IfOk result (λ p. p ≡ spec.new_target parts.old) }
{
    let place = parts.token().start;
    expression_phrase(alloc, Expr::NewTarget { place })
}

/// `new` without arguments (ECMA-262, NewExpression).
pub fn new_expression(alloc: Global, parts: &mut Queue<Phrase>) -> Result<Phrase, OutOfMemory>
    ensures { IfOk result (λ p. p ≡ spec.new_expression parts.old) }
{
    let place = parts.token().start;
    let callee = parts.expression(alloc)?;
    let arguments = Items::new(alloc);
    let made = Expr::New {
        place,
        callee,
        arguments,
    };
    expression_phrase(alloc, made)
}

/// A `new` without arguments, with these behind it.
fn with_arguments(
    alloc: Global,
    expression: Boxed<Expr>,
    arguments: Items<Argument>,
) -> Result<Boxed<Expr>, OutOfMemory>
    ensures { IfOk result (λ e. e ≡ spec.with_arguments expression arguments) }
{
    match expression.into_inner() {
        Expr::New { place, callee, .. } => {
            let made = Expr::New {
                place,
                callee,
                arguments,
            };
            Ok(Boxed::new(alloc, made)?)
        }
        other => Ok(Boxed::new(alloc, other)?),
    }
}

/// `new` with arguments (ECMA-262, MemberExpression).
pub fn new_with_arguments(alloc: Global, parts: &mut Queue<Phrase>) -> Result<Phrase, OutOfMemory>
    ensures { IfOk result (λ p. p ≡ spec.new_with_arguments parts.old) }
{
    let expression = parts.expression(alloc)?;
    parts.skip();
    let arguments = parts.arguments(alloc)?;
    Ok(Phrase::Expression(with_arguments(alloc, expression, arguments)?))
}

/// `.` and a name behind `super` (ECMA-262, SuperProperty).
pub fn super_name(
    alloc: Global,
    source: &[u8],
    parts: &mut Queue<Phrase>,
) -> Result<Phrase, OutOfMemory>
    ensures { IfOk result (λ p. p ≡ spec.super_name source.now parts.old) }
{
    parts.skip();
    let name = identifier(alloc, source, parts.token())?;
    Ok(Phrase::Step(LinkStep::MemberLink(name)))
}

/// `super` and what stands behind it.
fn super_at(place: Place, step: LinkStep) -> Expr
    ensures { result ≡ spec.super_at place (out-LinkStep step) }
{
    match step {
        LinkStep::MemberLink(name) => Expr::SuperMember { place, name },
        LinkStep::IndexLink(key) => Expr::SuperIndex { place, key },
        LinkStep::CallLink(arguments) => Expr::SuperCall { place, arguments },
    }
}

/// ECMA-262, SuperProperty and SuperCall.
pub fn super_expression(alloc: Global, parts: &mut Queue<Phrase>) -> Result<Phrase, OutOfMemory>
    ensures { IfOk result (λ p. p ≡ spec.super_expression parts.old) }
{
    let place = parts.token().start;
    let step = parts.step(alloc)?;
    expression_phrase(alloc, super_at(place, step))
}

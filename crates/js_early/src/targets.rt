// Rules of expressions, and of what is assigned.

ghost use Rattle.std.specs.Prelude.{◌≡◌, ◌++◌, OnOk};
ghost use Rattle.js_early.specs.Rules as spec;
ghost use Rattle.js_names.specs.Lists.{from_option};

use crate::context::EarlyContext;
use crate::fault::{EarlyFault, EarlyRule, put, unless};
use crate::names::{binding, is_reserved};
use js_names::bound::TREE_DEPTH;
use js_tree::operator::UnaryOperator;
use js_tree::tree::{Expr, Pattern};
use js_walk::places::place_of;
use lava_base::memory::OutOfMemory;
use lava_base::place::Place;
use sqlite_items::{Boxed, Items};

#[cycle(inner)]
fn inner_to(depth: usize, expression: &Expr) -> &Expr
    ensures { result.now ≡ spec.inner_to depth expression.now }
{
    if depth == 0 {
        return expression;
    }
    inner_row(depth - 1, expression)
}

#[cycle(inner)]
fn inner_row(depth: usize, expression: &Expr) -> &Expr
    ensures { result.now ≡ spec.inner_row (spec.inner_to depth) expression.now }
{
    match expression {
        Expr::Parenthesized { inner, .. } => inner_to(depth, inner.get()),
        _ => expression,
    }
}

/// An expression without the parentheses round it.
#[tactic(auto, unfolding(crate::specs::Rules::inner))]
fn inner(expression: &Expr) -> &Expr
    ensures { result.now ≡ spec.inner expression.now }
{
    inner_to(TREE_DEPTH, expression)
}

fn is_simple(expression: &Expr) -> bool
    ensures { result ≡ spec.is_simple expression.now }
{
    match expression {
        Expr::Name(_) => true,
        Expr::Member { .. } => true,
        Expr::Index { .. } => true,
        Expr::SuperMember { .. } => true,
        Expr::SuperIndex { .. } => true,
        _ => false,
    }
}

fn is_reserved_name(expression: &Expr) -> bool
    ensures { result ≡ spec.is_reserved_name expression.now }
{
    match expression {
        Expr::Name(identifier) => is_reserved(&identifier.name),
        _ => false,
    }
}

fn is_name(expression: &Expr) -> bool
    ensures { result ≡ spec.is_name expression.now }
{
    match expression {
        Expr::Name(_) => true,
        _ => false,
    }
}

fn bare_target(
    place: Place,
    expression: &Expr,
    out: &mut Items<EarlyFault>,
) -> Result<(), OutOfMemory>
    ensures { OnOk result (out.new ≡ out.old ++ spec.bare_target place expression.now) }
{
    unless(is_simple(expression), EarlyRule::Assignment, place, out)?;
    unless(
        !is_reserved_name(expression),
        EarlyRule::Binding,
        place,
        out,
    )
}

fn target(place: Place, expression: &Expr, out: &mut Items<EarlyFault>) -> Result<(), OutOfMemory>
    ensures { OnOk result (out.new ≡ out.old ++ spec.target place expression.now) }
{
    bare_target(place, inner(expression), out)
}

fn deleted(
    operator: UnaryOperator,
    place: Place,
    operand: &Expr,
    out: &mut Items<EarlyFault>,
) -> Result<(), OutOfMemory>
    ensures { OnOk result (out.new ≡ out.old ++ spec.deleted operator place operand.now) }
{
    match operator {
        UnaryOperator::Delete => unless(!is_name(inner(operand)), EarlyRule::Delete, place, out),
        _ => Ok(()),
    }
}

/// Appends what is wrong with an expression by itself.
pub(crate) fn expression_faults(
    context: EarlyContext,
    expression: &Expr,
    out: &mut Items<EarlyFault>,
) -> Result<(), OutOfMemory>
    ensures { OnOk result (out.new ≡ out.old ++ spec.expression_faults context expression.now) }
{
    match expression {
        Expr::NewTarget { place } => unless(context.new_target, EarlyRule::NewTarget, *place, out),
        Expr::SuperMember { place, .. } => {
            unless(context.super_property, EarlyRule::Super, *place, out)
        }
        Expr::SuperIndex { place, .. } => {
            unless(context.super_property, EarlyRule::Super, *place, out)
        }
        Expr::SuperCall { place, .. } => unless(context.super_call, EarlyRule::Super, *place, out),
        Expr::Unary {
            place,
            operator,
            operand,
        } => deleted(*operator, *place, operand.get(), out),
        _ => Ok(()),
    }
}

/// Appends what is wrong with what an update or an assignment changes.
pub(crate) fn update_faults(
    context: EarlyContext,
    place: Place,
    expression: &Expr,
    out: &mut Items<EarlyFault>,
) -> Result<(), OutOfMemory>
    ensures { OnOk result (out.new ≡ out.old ++ spec.update_faults context place expression.now) }
{
    target(place, expression, out)?;
    expression_faults(context, expression, out)
}

fn rest_target(pattern: &Pattern, out: &mut Items<EarlyFault>) -> Result<(), OutOfMemory>
    ensures { OnOk result (out.new ≡ out.old ++ spec.rest_target pattern.now) }
{
    match pattern {
        Pattern::Bound(_) => Ok(()),
        Pattern::Target(_) => Ok(()),
        Pattern::ObjectPattern { place, .. } => put(EarlyRule::Assignment, *place, out),
        Pattern::ArrayPattern { place, .. } => put(EarlyRule::Assignment, *place, out),
    }
}

fn maybe_rest_target(
    slot: &Option<Boxed<Pattern>>,
    out: &mut Items<EarlyFault>,
) -> Result<(), OutOfMemory>
    ensures { OnOk result (out.new ≡ out.old ++ from_option spec.rest_target slot.now) }
{
    match slot {
        None => Ok(()),
        Some(pattern) => rest_target(pattern.get(), out),
    }
}

/// Appends what is wrong with a pattern by itself.
pub(crate) fn pattern_faults(
    context: EarlyContext,
    pattern: &Pattern,
    out: &mut Items<EarlyFault>,
) -> Result<(), OutOfMemory>
    ensures { OnOk result (out.new ≡ out.old ++ spec.pattern_faults context pattern.now) }
{
    match pattern {
        Pattern::Bound(identifier) => binding(identifier, out),
        Pattern::Target(expression) => {
            let expression = expression.get();
            update_faults(context, place_of(expression), expression, out)
        }
        Pattern::ObjectPattern { rest, .. } => maybe_rest_target(rest, out),
        Pattern::ArrayPattern { .. } => Ok(()),
    }
}

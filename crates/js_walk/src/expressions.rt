// What stands below expressions.

ghost use Rattle.std.specs.Prelude.{◌≡◌, [], ◌∷◌, ◌++◌, true, OnOk};
ghost use Rattle.js_walk.specs.Parts.{Adds, ExpressionPart, PatternPart, UpdatePart};
ghost use Rattle.js_walk.specs.Parts as spec;
ghost use Rattle.js_names.specs.Lists.{flat, from_option};

use crate::paths::is_path;
use crate::subtree::{Subtree, add};
use js_tree::tree::{Argument, ArrayElement, Expr, Link, LinkStep, Pattern, Property, PropertyKey};
use lava_base::memory::OutOfMemory;
use lava_base::place::Place;
use sqlite_items::{Boxed, Items};

pub(crate) fn operand<'a>(
    expression: &'a Expr,
    out: &mut Items<Subtree<'a>>,
) -> Result<(), OutOfMemory>
    ensures { OnOk result (Adds out.old out.new (spec.operand expression.now)) }
{
    add(Subtree::Expression(expression), out)
}

pub(crate) fn maybe_operand<'a>(
    expression: &'a Option<Boxed<Expr>>,
    out: &mut Items<Subtree<'a>>,
) -> Result<(), OutOfMemory>
    ensures { OnOk result (Adds out.old out.new (from_option spec.operand expression.now)) }
{
    match expression {
        None => Ok(()),
        Some(expression) => operand(expression.get(), out),
    }
}

fn two_operands<'a>(
    a: &'a Expr,
    b: &'a Expr,
    out: &mut Items<Subtree<'a>>,
) -> Result<(), OutOfMemory>
    ensures { OnOk result (Adds out.old out.new (spec.two_operands a.now b.now)) }
{
    operand(a, out)?;
    operand(b, out)
}

fn three_operands<'a>(
    a: &'a Expr,
    b: &'a Expr,
    c: &'a Expr,
    out: &mut Items<Subtree<'a>>,
) -> Result<(), OutOfMemory>
    ensures { OnOk result (Adds out.old out.new
        (spec.operand a.now ++ spec.two_operands b.now c.now)) }
{
    operand(a, out)?;
    two_operands(b, c, out)
}

fn operands<'a>(
    mut list: &'a [Boxed<Expr>],
    out: &mut Items<Subtree<'a>>,
) -> Result<(), OutOfMemory>
    ensures { OnOk result (Adds out.old out.new (flat spec.operand list.entry.now)) }
{
    while let [first, rest @ ..] = list {
        operand(first.get(), out)?;
        list = rest;
    }
    Ok(())
}

fn argument<'a>(argument: &'a Argument, out: &mut Items<Subtree<'a>>) -> Result<(), OutOfMemory>
    ensures { OnOk result (Adds out.old out.new (spec.argument argument.now)) }
{
    match argument {
        Argument::Operand(expression) => operand(expression.get(), out),
        Argument::SpreadArgument(expression) => operand(expression.get(), out),
    }
}

fn arguments<'a>(mut list: &'a [Argument], out: &mut Items<Subtree<'a>>) -> Result<(), OutOfMemory>
    ensures { OnOk result (Adds out.old out.new (flat spec.argument list.entry.now)) }
{
    while let [first, rest @ ..] = list {
        argument(first, out)?;
        list = rest;
    }
    Ok(())
}

fn applied<'a>(
    callee: &'a Expr,
    list: &'a [Argument],
    out: &mut Items<Subtree<'a>>,
) -> Result<(), OutOfMemory>
    ensures { OnOk result (Adds out.old out.new
        (spec.operand callee.now ++ flat spec.argument list.now)) }
{
    operand(callee, out)?;
    arguments(list, out)
}

fn array_element<'a>(
    element: &'a ArrayElement,
    out: &mut Items<Subtree<'a>>,
) -> Result<(), OutOfMemory>
    ensures { OnOk result (Adds out.old out.new (spec.array_element element.now)) }
{
    match element {
        ArrayElement::Hole => Ok(()),
        ArrayElement::Element(expression) => operand(expression.get(), out),
        ArrayElement::SpreadElement(expression) => operand(expression.get(), out),
    }
}

fn array_elements<'a>(
    mut list: &'a [ArrayElement],
    out: &mut Items<Subtree<'a>>,
) -> Result<(), OutOfMemory>
    ensures { OnOk result (Adds out.old out.new (flat spec.array_element list.entry.now)) }
{
    while let [first, rest @ ..] = list {
        array_element(first, out)?;
        list = rest;
    }
    Ok(())
}

pub(crate) fn key<'a>(key: &'a PropertyKey, out: &mut Items<Subtree<'a>>) -> Result<(), OutOfMemory>
    ensures { OnOk result (Adds out.old out.new (spec.key key.now)) }
{
    match key {
        PropertyKey::Named(_) => Ok(()),
        PropertyKey::Numbered { .. } => Ok(()),
        PropertyKey::Computed { key, .. } => operand(key.get(), out),
    }
}

fn property<'a>(property: &'a Property, out: &mut Items<Subtree<'a>>) -> Result<(), OutOfMemory>
    ensures { OnOk result (Adds out.old out.new (spec.property property.now)) }
{
    match property {
        Property::Valued { key: name, value } => {
            key(name, out)?;
            operand(value.get(), out)
        }
        Property::Defined {
            key: name,
            function,
        } => {
            key(name, out)?;
            add(Subtree::Function(false, function.get()), out)
        }
        Property::SpreadProperty(expression) => operand(expression.get(), out),
        Property::Initialized { default, .. } => operand(default.get(), out),
    }
}

fn properties<'a>(mut list: &'a [Property], out: &mut Items<Subtree<'a>>) -> Result<(), OutOfMemory>
    ensures { OnOk result (Adds out.old out.new (flat spec.property list.entry.now)) }
{
    while let [first, rest @ ..] = list {
        property(first, out)?;
        list = rest;
    }
    Ok(())
}

fn link<'a>(link: &'a Link, out: &mut Items<Subtree<'a>>) -> Result<(), OutOfMemory>
    ensures { OnOk result (Adds out.old out.new (spec.link link.now)) }
{
    match &link.step {
        LinkStep::MemberLink(_) => Ok(()),
        LinkStep::IndexLink(expression) => operand(expression.get(), out),
        LinkStep::CallLink(list) => arguments(list.as_slice(), out),
    }
}

fn links<'a>(mut list: &'a [Link], out: &mut Items<Subtree<'a>>) -> Result<(), OutOfMemory>
    ensures { OnOk result (Adds out.old out.new (flat spec.link list.entry.now)) }
{
    while let [first, rest @ ..] = list {
        link(first, out)?;
        list = rest;
    }
    Ok(())
}

fn chain_base<'a>(base: &'a Expr, out: &mut Items<Subtree<'a>>) -> Result<(), OutOfMemory>
    ensures { OnOk result (Adds out.old out.new (spec.chain_base base.now)) }
{
    if is_path(base) {
        return Ok(());
    }
    operand(base, out)
}

fn chain<'a>(
    base: &'a Expr,
    list: &'a [Link],
    out: &mut Items<Subtree<'a>>,
) -> Result<(), OutOfMemory>
    ensures { OnOk result (Adds out.old out.new
        (spec.chain_base base.now ++ flat spec.link list.now)) }
{
    chain_base(base, out)?;
    links(list, out)
}

fn assigned<'a>(
    target: &'a Pattern,
    value: &'a Expr,
    out: &mut Items<Subtree<'a>>,
) -> Result<(), OutOfMemory>
    ensures { OnOk result (Adds out.old out.new
        (PatternPart true target.now ∷ ExpressionPart value.now ∷ [])) }
{
    add(Subtree::Pattern(true, target), out)?;
    operand(value, out)
}

fn changed<'a>(
    place: Place,
    target: &'a Expr,
    value: &'a Expr,
    out: &mut Items<Subtree<'a>>,
) -> Result<(), OutOfMemory>
    ensures { OnOk result (Adds out.old out.new
        (UpdatePart place target.now ∷ ExpressionPart value.now ∷ [])) }
{
    add(Subtree::Update(place, target), out)?;
    operand(value, out)
}

/// What stands below an expression that is no path.
fn expression_row<'a>(expression: &'a Expr, out: &mut Items<Subtree<'a>>) -> Result<(), OutOfMemory>
    ensures { OnOk result (Adds out.old out.new (spec.expression_row expression.now)) }
{
    match expression {
        Expr::Template { substitutions, .. } => operands(substitutions.as_slice(), out),
        Expr::Array { elements, .. } => array_elements(elements.as_slice(), out),
        Expr::Object {
            properties: list,
            ..
        } => properties(list.as_slice(), out),
        Expr::Function(function) => add(Subtree::Function(false, function.get()), out),
        Expr::Class(class) => add(Subtree::Class(class.get()), out),
        Expr::Parenthesized { inner, .. } => operand(inner.get(), out),
        Expr::Member { object, .. } => operand(object.get(), out),
        Expr::Index { object, key, .. } => two_operands(object.get(), key.get(), out),
        Expr::SuperIndex { key, .. } => operand(key.get(), out),
        Expr::Call {
            callee,
            arguments: list,
            ..
        } => applied(callee.get(), list.as_slice(), out),
        Expr::SuperCall {
            arguments: list,
            ..
        } => arguments(list.as_slice(), out),
        Expr::New {
            callee,
            arguments: list,
            ..
        } => applied(callee.get(), list.as_slice(), out),
        Expr::Chain { base, links, .. } => chain(base.get(), links.as_slice(), out),
        Expr::Unary { operand: inner, .. } => operand(inner.get(), out),
        Expr::Update { place, operand, .. } => add(Subtree::Update(*place, operand.get()), out),
        Expr::Binary { left, right, .. } => two_operands(left.get(), right.get(), out),
        Expr::Logical { left, right, .. } => two_operands(left.get(), right.get(), out),
        Expr::Conditional {
            test,
            consequent,
            alternate,
            ..
        } => { three_operands(test.get(), consequent.get(), alternate.get(), out) }
        Expr::Assign { target, value, .. } => assigned(target.get(), value.get(), out),
        Expr::OperatorAssign {
            place,
            target,
            value,
            ..
        } => { changed(*place, target.get(), value.get(), out) }
        Expr::Comma { operands: list, .. } => operands(list.as_slice(), out),
        _ => Ok(()),
    }
}

pub(crate) fn expression_parts<'a>(
    expression: &'a Expr,
    out: &mut Items<Subtree<'a>>,
) -> Result<(), OutOfMemory>
    ensures { OnOk result (Adds out.old out.new (spec.expression_parts expression.now)) }
{
    if is_path(expression) {
        return Ok(());
    }
    expression_row(expression, out)
}

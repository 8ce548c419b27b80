// Members and calls, and chains of them with `?.`.

ghost use Rattle.std.specs.Prelude.{◌≡◌, false, IfOk};
ghost use Rattle.js_expr.specs.Members as spec;

use crate::names::identifier;
use js_phrase::phrase::Phrase;
use js_phrase::places::place_of;
use js_phrase::queue::Queue;
use js_tree::tree::{Argument, Expr, Identifier, Link, LinkStep};
use lava_base::memory::OutOfMemory;
use sqlite_items::{Boxed, Items};
use std::alloc::Global;

/// Whether an expression is a chain with `?.`, which is in no parentheses.
fn is_chain(expression: &Expr) -> bool
    ensures { result ≡ spec.is_chain expression.now }
{
    matches!(expression, Expr::Chain { .. })
}

/// A chain with one link more.
fn with_link(alloc: Global, chain: Boxed<Expr>, link: Link) -> Result<Boxed<Expr>, OutOfMemory>
    ensures { IfOk result (λ e. e ≡ spec.with_link chain link) }
{
    match chain.into_inner() {
        Expr::Chain {
            place,
            base,
            mut links,
        } => {
            links.push(link)?;
            Ok(Boxed::new(alloc, Expr::Chain { place, base, links })?)
        }
        other => Ok(Boxed::new(alloc, other)?),
    }
}

/// A chain with one step more, in front of which there is no `?.`.
fn with_step(alloc: Global, chain: Boxed<Expr>, step: LinkStep) -> Result<Boxed<Expr>, OutOfMemory>
    ensures { IfOk result (λ e. e ≡ spec.with_link chain (spec.link false step)) }
{
    let optional = false;
    with_link(alloc, chain, Link { optional, step })
}

/// `.` and a name behind an expression (ECMA-262, MemberExpression and OptionalChain).
fn member(alloc: Global, object: Boxed<Expr>, name: Identifier) -> Result<Boxed<Expr>, OutOfMemory>
    ensures { IfOk result (λ e. e ≡ spec.member object name) }
{
    if is_chain(object.get()) {
        return with_step(alloc, object, LinkStep::MemberLink(name));
    }
    let place = place_of(object.get());
    let member = Expr::Member {
        place,
        object,
        name,
    };
    Ok(Boxed::new(alloc, member)?)
}

/// A key between brackets behind an expression (ECMA-262, MemberExpression and OptionalChain).
fn index(alloc: Global, object: Boxed<Expr>, key: Boxed<Expr>) -> Result<Boxed<Expr>, OutOfMemory>
    ensures { IfOk result (λ e. e ≡ spec.index object key) }
{
    if is_chain(object.get()) {
        return with_step(alloc, object, LinkStep::IndexLink(key));
    }
    let place = place_of(object.get());
    Ok(Boxed::new(alloc, Expr::Index { place, object, key })?)
}

/// Arguments behind an expression (ECMA-262, CallExpression and OptionalChain).
fn call(
    alloc: Global,
    callee: Boxed<Expr>,
    arguments: Items<Argument>,
) -> Result<Boxed<Expr>, OutOfMemory>
    ensures { IfOk result (λ e. e ≡ spec.call callee arguments) }
{
    if is_chain(callee.get()) {
        return with_step(alloc, callee, LinkStep::CallLink(arguments));
    }
    let place = place_of(callee.get());
    let call = Expr::Call {
        place,
        callee,
        arguments,
    };
    Ok(Boxed::new(alloc, call)?)
}

/// `?.` and a step behind an expression that is no chain.
fn new_chain(alloc: Global, base: Boxed<Expr>, link: Link) -> Result<Boxed<Expr>, OutOfMemory>
    ensures { IfOk result (λ e. e ≡ spec.new_chain base link) }
{
    let place = place_of(base.get());
    let mut links = Items::new(alloc);
    links.push(link)?;
    Ok(Boxed::new(alloc, Expr::Chain { place, base, links })?)
}

/// `?.` and a step behind an expression (ECMA-262, OptionalExpression).
fn optional(alloc: Global, base: Boxed<Expr>, step: LinkStep) -> Result<Boxed<Expr>, OutOfMemory>
    ensures { IfOk result (λ e. e ≡ spec.optional base step) }
{
    let optional = true;
    let link = Link { optional, step };
    if is_chain(base.get()) {
        with_link(alloc, base, link)
    } else {
        new_chain(alloc, base, link)
    }
}

/// An expression, `.` and a name (ECMA-262, MemberExpression).
pub fn member_name(
    alloc: Global,
    source: &[u8],
    parts: &mut Queue<Phrase>,
) -> Result<Phrase, OutOfMemory>
    ensures { IfOk result (λ p. p ≡ spec.member_name source.now parts.old) }
{
    let object = parts.expression(alloc)?;
    parts.skip();
    let name = identifier(alloc, source, parts.token())?;
    Ok(Phrase::Expression(member(alloc, object, name)?))
}

/// An expression and a key between brackets (ECMA-262, MemberExpression).
pub fn member_key(alloc: Global, parts: &mut Queue<Phrase>) -> Result<Phrase, OutOfMemory>
    ensures { IfOk result (λ p. p ≡ spec.member_key parts.old) }
{
    let object = parts.expression(alloc)?;
    parts.skip();
    let key = parts.expression(alloc)?;
    Ok(Phrase::Expression(index(alloc, object, key)?))
}

/// ECMA-262, CallExpression.
pub fn call_expression(alloc: Global, parts: &mut Queue<Phrase>) -> Result<Phrase, OutOfMemory>
    ensures { IfOk result (λ p. p ≡ spec.call_expression parts.old) }
{
    let callee = parts.expression(alloc)?;
    parts.skip();
    let arguments = parts.arguments(alloc)?;
    Ok(Phrase::Expression(call(alloc, callee, arguments)?))
}

/// ECMA-262, OptionalExpression.
pub fn optional_expression(alloc: Global, parts: &mut Queue<Phrase>) -> Result<Phrase, OutOfMemory>
    ensures { IfOk result (λ p. p ≡ spec.optional_expression parts.old) }
{
    let base = parts.expression(alloc)?;
    parts.skip();
    let step = parts.step(alloc)?;
    Ok(Phrase::Expression(optional(alloc, base, step)?))
}

/// A name behind `?.` (ECMA-262, OptionalChain).
pub fn optional_name(
    alloc: Global,
    source: &[u8],
    parts: &mut Queue<Phrase>,
) -> Result<Phrase, OutOfMemory>
    ensures { IfOk result (λ p. p ≡ spec.optional_name source.now parts.old) }
{
    let name = identifier(alloc, source, parts.token())?;
    Ok(Phrase::Step(LinkStep::MemberLink(name)))
}

/// A key between brackets behind `?.` or `super` (ECMA-262, OptionalChain and SuperProperty).
pub fn key_step(alloc: Global, parts: &mut Queue<Phrase>) -> Result<Phrase, OutOfMemory>
    ensures { IfOk result (λ p. p ≡ spec.key_step parts.old) }
{
    parts.skip();
    let key = parts.expression(alloc)?;
    Ok(Phrase::Step(LinkStep::IndexLink(key)))
}

/// Arguments behind `?.` or `super` (ECMA-262, OptionalChain and SuperCall).
pub fn call_step(alloc: Global, parts: &mut Queue<Phrase>) -> Result<Phrase, OutOfMemory>
    ensures { IfOk result (λ p. p ≡ spec.call_step parts.old) }
{
    parts.skip();
    let arguments = parts.arguments(alloc)?;
    Ok(Phrase::Step(LinkStep::CallLink(arguments)))
}

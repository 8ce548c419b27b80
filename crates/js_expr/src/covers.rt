// What stands between parentheses: an expression, or the parameters of an arrow function.

ghost use Rattle.std.specs.Prelude.{◌≡◌, IfOk};
ghost use Rattle.js_expr.specs.Covers as spec;

use js_phrase::covers::with_operand;
use js_phrase::phrase::{Cover, Phrase};
use js_phrase::phrases::parenthesized;
use js_phrase::queue::Queue;
use js_tree::tree::{Expr, Pattern};
use lava_base::memory::OutOfMemory;
use lava_base::place::Place;
use sqlite_items::Boxed;
use std::alloc::Global;

/// `...` and what it binds (ECMA-262, CoverParenthesizedExpressionAndArrowParameterList).
pub fn cover_rest(alloc: Global, parts: &mut Queue<Phrase>) -> Result<Phrase, OutOfMemory>
    ensures { IfOk result (λ p. p ≡ spec.cover_rest parts.old) }
{
    parts.skip();
    Ok(Phrase::Rest(parts.pattern(alloc)?))
}

/// The operands with one more.
fn with_more(alloc: Global, cover: Cover, operand: Boxed<Expr>) -> Result<Cover, OutOfMemory>
    ensures { IfOk result (λ c. c ≡ spec.with_more cover operand) }
{
    let Cover {
        place,
        operands,
        rest,
    } = cover;
    let operands = with_operand(alloc, operands, operand)?;
    Ok(Cover {
        place,
        operands,
        rest,
    })
}

/// The operands with this behind `...`.
fn with_rest(cover: Cover, pattern: Boxed<Pattern>) -> Cover
    ensures { result ≡ spec.with_rest cover pattern }
{
    let Cover {
        place,
        operands,
        ..
    } = cover;
    let rest = Some(pattern);
    Cover {
        place,
        operands,
        rest,
    }
}

/// The operands with what stands behind a comma: one operand more, `...` or nothing.
fn extended(alloc: Global, cover: Cover, phrase: Phrase) -> Result<Cover, OutOfMemory>
    ensures { IfOk result (λ c. c ≡ spec.extended cover phrase) }
{
    match phrase {
        Phrase::Expression(operand) => with_more(alloc, cover, operand),
        Phrase::Covered(inner) => {
            let operand = parenthesized(alloc, inner)?;
            with_more(alloc, cover, operand)
        }
        Phrase::Rest(pattern) => Ok(with_rest(cover, pattern)),
        other => {
            other.discard();
            Ok(cover)
        }
    }
}

/// A comma between parentheses, with what stands before and behind it.
pub fn cover_comma(alloc: Global, parts: &mut Queue<Phrase>) -> Result<Phrase, OutOfMemory>
    ensures { IfOk result (λ p. p ≡ spec.cover_comma parts.old) }
{
    let head = parts.cover(alloc)?;
    parts.skip();
    let cover = extended(alloc, head, parts.next())?;
    Ok(Phrase::Operands(Boxed::new(alloc, cover)?))
}

/// The same at a place.
fn at_place(place: Place, cover: Cover) -> Cover
    ensures { result ≡ spec.at_place place cover }
{
    let Cover { operands, rest, .. } = cover;
    Cover {
        place,
        operands,
        rest,
    }
}

/// ECMA-262, CoverParenthesizedExpressionAndArrowParameterList.
pub fn cover_parenthesized(alloc: Global, parts: &mut Queue<Phrase>) -> Result<Phrase, OutOfMemory>
    ensures { IfOk result (λ p. p ≡ spec.cover_parenthesized parts.old) }
{
    let place = parts.token().start;
    let cover = at_place(place, parts.cover(alloc)?);
    Ok(Phrase::Covered(Boxed::new(alloc, cover)?))
}

// Array literals.

ghost use Rattle.std.specs.Prelude.{◌≡◌, IfOk};
ghost use Rattle.js_expr.specs.Arrays as spec;

use js_phrase::phrase::Phrase;
use js_phrase::queue::Queue;
use lava_base::memory::OutOfMemory;
use std::alloc::Global;

/// `...` and an expression: an element, a property or an argument (ECMA-262, SpreadElement, PropertyDefinition, ArgumentList).
pub fn spread(alloc: Global, parts: &mut Queue<Phrase>) -> Result<Phrase, OutOfMemory>
    ensures { IfOk result (λ p. p ≡ spec.spread parts.old) }
{
    parts.skip();
    Ok(Phrase::Spread(parts.expression(alloc)?))
}

/// A comma, and the element behind it (ECMA-262, ElementList).
pub fn comma_element(alloc: Global, parts: &mut Queue<Phrase>) -> Result<Phrase, OutOfMemory>
    ensures { IfOk result (λ p. p ≡ spec.comma_element parts.old) }
{
    parts.skip();
    Ok(Phrase::Slot(parts.slot(alloc)?))
}

/// ECMA-262, ArrayLiteral.
pub fn array_literal(alloc: Global, parts: &mut Queue<Phrase>) -> Result<Phrase, OutOfMemory>
    ensures { IfOk result (λ p. p ≡ spec.array_literal parts.old) }
{
    let place = parts.token().start;
    Ok(Phrase::Expression(parts.array(alloc, place)?))
}

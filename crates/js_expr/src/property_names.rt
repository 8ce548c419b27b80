// Property names.

ghost use Rattle.std.specs.Prelude.{◌≡◌, IfOk};
ghost use Rattle.js_expr.specs.PropertyNames as spec;

use crate::literals::string_text;
use crate::names::{bytes_of, identifier};
use crate::numbers::number_of;
use js_phrase::phrase::Phrase;
use js_phrase::queue::Queue;
use js_tree::tree::{Identifier, PropertyKey};
use lava_base::memory::OutOfMemory;
use std::alloc::Global;

/// An IdentifierName (ECMA-262, LiteralPropertyName).
pub fn word_name(
    alloc: Global,
    source: &[u8],
    parts: &mut Queue<Phrase>,
) -> Result<Phrase, OutOfMemory>
    ensures { IfOk result (λ p. p ≡ spec.word_name source.now parts.old) }
{
    let name = identifier(alloc, source, parts.token())?;
    Ok(Phrase::Key(PropertyKey::Named(name)))
}

/// A StringLiteral, by its value (ECMA-262, LiteralPropertyName).
pub fn string_name(
    alloc: Global,
    source: &[u8],
    parts: &mut Queue<Phrase>,
) -> Result<Phrase, OutOfMemory>
    ensures { IfOk result (λ p. p ≡ spec.string_name source.now parts.old) }
{
    let token = parts.token();
    let name = string_text(alloc, source, token)?;
    let place = token.start;
    Ok(Phrase::Key(PropertyKey::Named(Identifier { place, name })))
}

/// A NumericLiteral (ECMA-262, LiteralPropertyName).
pub fn numeric_name(
    alloc: Global,
    source: &[u8],
    parts: &mut Queue<Phrase>,
) -> Result<Phrase, OutOfMemory>
    ensures { IfOk result (λ p. p ≡ spec.numeric_name source.now parts.old) }
{
    let token = parts.token();
    let value = number_of(alloc, bytes_of(source, token))?;
    let place = token.start;
    Ok(Phrase::Key(PropertyKey::Numbered { place, value }))
}

/// ECMA-262, ComputedPropertyName.
pub fn computed_property_name(
    alloc: Global,
    parts: &mut Queue<Phrase>,
) -> Result<Phrase, OutOfMemory>
    ensures { IfOk result (λ p. p ≡ spec.computed_property_name parts.old) }
{
    let place = parts.token().start;
    let key = parts.expression(alloc)?;
    Ok(Phrase::Key(PropertyKey::Computed { place, key }))
}

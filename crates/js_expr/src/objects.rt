// Object literals.

ghost use Rattle.std.specs.Prelude.{◌≡◌, IfOk};
ghost use Rattle.js_expr.specs.Objects as spec;

use crate::names::identifier;
use js_phrase::phrase::Phrase;
use js_phrase::phrases::expression_of;
use js_phrase::queue::Queue;
use js_tree::tree::{Expr, Function, Identifier, Property, PropertyKey};
use lava_base::memory::OutOfMemory;
use lava_base::place::Place;
use sqlite_items::Boxed;
use std::alloc::Global;

/// `:` and a value (ECMA-262, PropertyDefinition).
pub fn property_value(alloc: Global, parts: &mut Queue<Phrase>) -> Result<Phrase, OutOfMemory>
    ensures { IfOk result (λ p. p ≡ spec.property_value parts.old) }
{
    parts.skip();
    Ok(Phrase::Expression(parts.expression(alloc)?))
}

/// ECMA-262, CoverInitializedName: its `=` and the expression.
pub fn cover_initialized_name(
    alloc: Global,
    parts: &mut Queue<Phrase>,
) -> Result<Phrase, OutOfMemory>
    ensures { IfOk result (λ p. p ≡ spec.cover_initialized_name parts.old) }
{
    parts.skip();
    Ok(Phrase::Initializer(parts.expression(alloc)?))
}

/// A property, as a phrase.
fn property_phrase(alloc: Global, property: Property) -> Result<Phrase, OutOfMemory>
    ensures { IfOk result (λ p. p ≡ Phrase.Property property) }
{
    Ok(Phrase::Property(Boxed::new(alloc, property)?))
}

/// The place of a key's first token.
pub fn key_place(key: &PropertyKey) -> Place
    ensures { result ≡ spec.key_place key.now }
{
    match key {
        PropertyKey::Named(name) => name.place,
        PropertyKey::Numbered { place, .. } => *place,
        PropertyKey::Computed { place, .. } => *place,
    }
}

/// The function of a method, at the place where the method begins.
pub fn moved_function(
    alloc: Global,
    place: Place,
    function: Boxed<Function>,
) -> Result<Boxed<Function>, OutOfMemory>
    ensures { IfOk result (λ f. f ≡ spec.moved_function place function) }
{
    let mut function = function.into_inner();
    function.place = place;
    Ok(Boxed::new(alloc, function)?)
}

/// A method with this key.
fn defined(
    alloc: Global,
    key: PropertyKey,
    function: Boxed<Function>,
) -> Result<Property, OutOfMemory>
    ensures { IfOk result (λ p. p ≡ spec.defined key function) }
{
    let function = moved_function(alloc, key_place(&key), function)?;
    Ok(Property::Defined { key, function })
}

/// A value with this key.
fn valued(alloc: Global, key: PropertyKey, value: Phrase) -> Result<Property, OutOfMemory>
    ensures { IfOk result (λ p. p ≡ spec.valued key value) }
{
    let value = expression_of(alloc, value)?;
    Ok(Property::Valued { key, value })
}

/// A property with this key: a method where a function stands behind it, or else a value.
fn keyed(alloc: Global, key: PropertyKey, tail: Phrase) -> Result<Property, OutOfMemory>
    ensures { IfOk result (λ p. p ≡ spec.keyed key tail) }
{
    match tail {
        Phrase::Function(function) => defined(alloc, key, function),
        other => valued(alloc, key, other),
    }
}

/// A name alone, which is the key and the value.
fn shorthand(alloc: Global, name: Identifier) -> Result<Property, OutOfMemory>
    ensures { IfOk result (λ p. p ≡ spec.shorthand name) }
{
    let key = Identifier {
        place: name.place,
        name: name.name.copy()?,
    };
    Ok(Property::Valued {
        key: PropertyKey::Named(key),
        value: Boxed::new(alloc, Expr::Name(name))?,
    })
}

/// A property with this name, which may stand alone or with `=`.
fn named(alloc: Global, name: Identifier, tail: Phrase) -> Result<Property, OutOfMemory>
    ensures { IfOk result (λ p. p ≡ spec.named name tail) }
{
    match tail {
        Phrase::Absent => shorthand(alloc, name),
        Phrase::Initializer(default) => Ok(Property::Initialized { name, default }),
        other => keyed(alloc, PropertyKey::Named(name), other),
    }
}

/// A property that begins with a name (ECMA-262, PropertyDefinition).
pub fn named_property(
    alloc: Global,
    source: &[u8],
    parts: &mut Queue<Phrase>,
) -> Result<Phrase, OutOfMemory>
    ensures { IfOk result (λ p. p ≡ spec.named_property source.now parts.old) }
{
    let name = identifier(alloc, source, parts.token())?;
    let property = named(alloc, name, parts.next())?;
    property_phrase(alloc, property)
}

/// A property that begins with another key (ECMA-262, PropertyDefinition).
pub fn keyed_property(alloc: Global, parts: &mut Queue<Phrase>) -> Result<Phrase, OutOfMemory>
    ensures { IfOk result (λ p. p ≡ spec.keyed_property parts.old) }
{
    let key = parts.key();
    let property = keyed(alloc, key, parts.next())?;
    property_phrase(alloc, property)
}

/// ECMA-262, ObjectLiteral.
pub fn object_literal(alloc: Global, parts: &mut Queue<Phrase>) -> Result<Phrase, OutOfMemory>
    ensures { IfOk result (λ p. p ≡ spec.object_literal parts.old) }
{
    let place = parts.token().start;
    Ok(Phrase::Expression(parts.object(alloc, place)?))
}

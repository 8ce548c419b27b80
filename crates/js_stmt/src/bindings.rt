// Bindings: names and patterns that declarations and parameters bind.

ghost use Rattle.std.specs.Prelude.{◌≡◌, IfOk};
ghost use Rattle.js_stmt.specs.Bindings as spec;

use js_expr::names::identifier;
use js_phrase::phrase::Phrase;
use js_phrase::queue::Queue;
use js_tree::tree::{Expr, Identifier, Pattern, PatternElement, PatternField, PropertyKey};
use lava_base::memory::OutOfMemory;
use sqlite_items::Boxed;
use std::alloc::Global;

/// A name that is bound (ECMA-262, BindingIdentifier), or that labels (ECMA-262, LabelIdentifier).
pub fn binding_identifier(
    alloc: Global,
    source: &[u8],
    parts: &mut Queue<Phrase>,
) -> Result<Phrase, OutOfMemory>
    ensures { IfOk result (λ p. p ≡ spec.binding_identifier source.now parts.old) }
{
    Ok(Phrase::Name(identifier(alloc, source, parts.token())?))
}

/// `=` and an expression (ECMA-262, Initializer).
pub fn initializer(alloc: Global, parts: &mut Queue<Phrase>) -> Result<Phrase, OutOfMemory>
    ensures { IfOk result (λ p. p ≡ spec.initializer parts.old) }
{
    parts.skip();
    Ok(Phrase::Initializer(parts.expression(alloc)?))
}

/// A name or pattern and its default (ECMA-262, BindingElement), declared too (ECMA-262, VariableDeclaration).
pub fn binding_element(alloc: Global, parts: &mut Queue<Phrase>) -> Result<Phrase, OutOfMemory>
    ensures { IfOk result (λ p. p ≡ spec.binding_element parts.old) }
{
    let pattern = parts.pattern(alloc)?;
    let default = parts.default();
    Ok(Phrase::Element(PatternElement { pattern, default }))
}

/// `...` and what it binds, of an array (ECMA-262, BindingRestElement) or an object (ECMA-262, BindingRestProperty).
pub fn binding_rest(alloc: Global, parts: &mut Queue<Phrase>) -> Result<Phrase, OutOfMemory>
    ensures { IfOk result (λ p. p ≡ spec.binding_rest parts.old) }
{
    parts.skip();
    Ok(Phrase::Rest(parts.pattern(alloc)?))
}

/// What stands behind a comma, a colon or a parenthesis.
pub fn second_part(parts: &mut Queue<Phrase>) -> Phrase
    ensures { result ≡ spec.second_part parts.old }
{
    parts.skip();
    parts.next()
}

/// A name that is the key and is bound.
fn bound_field(
    alloc: Global,
    name: Identifier,
    default: Option<Boxed<Expr>>,
) -> Result<PatternField, OutOfMemory>
    ensures { IfOk result (λ f. f ≡ spec.bound_field name default) }
{
    let key = PropertyKey::Named(Identifier {
        place: name.place,
        name: name.name.copy()?,
    });
    let pattern = Boxed::new(alloc, Pattern::Bound(name))?;
    let element = PatternElement { pattern, default };
    Ok(PatternField { key, element })
}

/// A field that begins with a name.
fn named_field(alloc: Global, name: Identifier, behind: Phrase) -> Result<PatternField, OutOfMemory>
    ensures { IfOk result (λ f. f ≡ spec.named_field name behind) }
{
    match behind {
        Phrase::Element(element) => Ok(PatternField {
            key: PropertyKey::Named(name),
            element,
        }),
        Phrase::Initializer(default) => bound_field(alloc, name, Some(default)),
        other => {
            other.discard();
            bound_field(alloc, name, None)
        }
    }
}

/// A property of a pattern that begins with a name (ECMA-262, BindingProperty).
pub fn named_binding_property(
    alloc: Global,
    source: &[u8],
    parts: &mut Queue<Phrase>,
) -> Result<Phrase, OutOfMemory>
    ensures { IfOk result (λ p. p ≡ spec.named_binding_property source.now parts.old) }
{
    let name = identifier(alloc, source, parts.token())?;
    let field = named_field(alloc, name, parts.next())?;
    Ok(Phrase::Field(Boxed::new(alloc, field)?))
}

/// A property of a pattern that begins with another key (ECMA-262, BindingProperty).
pub fn keyed_binding_property(
    alloc: Global,
    parts: &mut Queue<Phrase>,
) -> Result<Phrase, OutOfMemory>
    ensures { IfOk result (λ p. p ≡ spec.keyed_binding_property parts.old) }
{
    let key = parts.key();
    let element = parts.element(alloc)?;
    let field = PatternField { key, element };
    Ok(Phrase::Field(Boxed::new(alloc, field)?))
}

/// A pattern of fields (ECMA-262, ObjectBindingPattern).
pub fn object_binding_pattern(
    alloc: Global,
    parts: &mut Queue<Phrase>,
) -> Result<Phrase, OutOfMemory>
    ensures { IfOk result (λ p. p ≡ spec.object_binding_pattern parts.old) }
{
    let place = parts.token().start;
    Ok(Phrase::Pattern(parts.object_pattern(alloc, place)?))
}

/// A pattern of elements (ECMA-262, ArrayBindingPattern).
pub fn array_binding_pattern(
    alloc: Global,
    parts: &mut Queue<Phrase>,
) -> Result<Phrase, OutOfMemory>
    ensures { IfOk result (λ p. p ≡ spec.array_binding_pattern parts.old) }
{
    let place = parts.token().start;
    Ok(Phrase::Pattern(parts.array_pattern(alloc, place)?))
}

/// The element behind a comma, or a hole (ECMA-262, BindingElisionElement).
pub fn comma_binding_element(parts: &mut Queue<Phrase>) -> Phrase
    ensures { result ≡ spec.comma_binding_element parts.old }
{
    parts.skip();
    match parts.next() {
        Phrase::Element(element) => Phrase::Element(element),
        other => {
            other.discard();
            Phrase::Hole
        }
    }
}

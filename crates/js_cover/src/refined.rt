// The pattern that an expression covers.

ghost use Rattle.std.specs.Prelude.{◌≡◌, ◌++◌, false, IfOk, OnOk};
ghost use Rattle.js_cover.specs.Refined as spec;

use js_phrase::literals::is_spread;
use js_phrase::queue::Queue;
use js_tree::tree::{
    ArrayElement, Expr, Identifier, Pattern, PatternElement, PatternField, Property, PropertyKey,
};
use lava_base::memory::OutOfMemory;
use lava_base::place::Place;
use sqlite_items::{Boxed, Items};
use std::alloc::Global;

/// Down to so many levels literals are looked into for patterns: as many as a source has at most.
pub const MAX_LEVELS: u32 = 256;

/// The pattern that an expression covers (ECMA-262, DestructuringAssignmentTarget).
#[tactic(auto, using(crate::proofs::Refined_laws::refined_whole))]
pub fn refined(alloc: Global, expression: Boxed<Expr>) -> Result<Boxed<Pattern>, OutOfMemory>
    ensures { IfOk result (λ p. p ≡ spec.refined_to MAX_LEVELS expression) }
{
    if is_covered(expression.get()) {
        refined_to(alloc, expression.into_inner(), MAX_LEVELS)
    } else {
        Ok(Boxed::new(alloc, Pattern::Target(expression))?)
    }
}

/// Whether it is a name, or a literal that a pattern covers.
fn is_covered(expression: &Expr) -> bool
    ensures { result ≡ spec.is_covered expression.now }
{
    match expression {
        Expr::Name(_) => true,
        Expr::Object { properties, .. } => covers_object(properties.as_slice()),
        Expr::Array { elements, .. } => covers_array(elements.as_slice()),
        _ => false,
    }
}

fn target(alloc: Global, expression: Expr) -> Result<Boxed<Pattern>, OutOfMemory>
    ensures { IfOk result (λ p. p ≡ spec.target expression) }
{
    let expression = Boxed::new(alloc, expression)?;
    Ok(Boxed::new(alloc, Pattern::Target(expression))?)
}

#[cycle(refinement)]
#[tactic(auto, using(crate::proofs::Refined_laws::refined_none, crate::proofs::Refined_laws::refined_whole, crate::proofs::Refined_laws::refined_covered))]
fn refined_to(alloc: Global, expression: Expr, levels: u32) -> Result<Boxed<Pattern>, OutOfMemory>
    ensures { IfOk result (λ p. p ≡ spec.refined_to levels expression) }
{
    if levels == 0 {
        return target(alloc, expression);
    }
    if is_covered(&expression) {
        covered(alloc, expression, levels - 1)
    } else {
        target(alloc, expression)
    }
}

/// The pattern of a name, or of a literal that a pattern covers.
#[cycle(refinement)]
fn covered(alloc: Global, expression: Expr, levels: u32) -> Result<Boxed<Pattern>, OutOfMemory>
    ensures { IfOk result (λ p. p ≡ spec.covered (spec.refined_to levels) expression) }
{
    match expression {
        Expr::Name(name) => Ok(Boxed::new(alloc, Pattern::Bound(name))?),
        Expr::Object { place, properties } => object_covered(alloc, place, properties, levels),
        Expr::Array { place, elements } => array_covered(alloc, place, elements, levels),
        other => target(alloc, other),
    }
}

#[cycle(refinement)]
fn object_covered(
    alloc: Global,
    place: Place,
    properties: Items<Property>,
    levels: u32,
) -> Result<Boxed<Pattern>, OutOfMemory>
    ensures { IfOk result (λ p. p ≡ spec.object_covered (spec.refined_to levels) place properties) }
{
    let mut fields = Items::new(alloc);
    let mut rest = None;
    let mut left = Queue::of(alloc, properties)?;
    while let Some(property) = left.pop() {
        add_property(alloc, property, levels, &mut fields, &mut rest)?;
    }
    let pattern = Pattern::ObjectPattern {
        place,
        fields,
        rest,
    };
    Ok(Boxed::new(alloc, pattern)?)
}

#[cycle(refinement)]
fn array_covered(
    alloc: Global,
    place: Place,
    elements: Items<ArrayElement>,
    levels: u32,
) -> Result<Boxed<Pattern>, OutOfMemory>
    ensures { IfOk result (λ p. p ≡ spec.array_covered (spec.refined_to levels) place elements) }
{
    let mut slots = Items::new(alloc);
    let mut rest = None;
    let mut left = Queue::of(alloc, elements)?;
    while let Some(element) = left.pop() {
        add_slot(alloc, element, levels, &mut slots, &mut rest)?;
    }
    let pattern = Pattern::ArrayPattern {
        place,
        elements: slots,
        rest,
    };
    Ok(Boxed::new(alloc, pattern)?)
}

#[cycle(refinement)]
fn add_property(
    alloc: Global,
    property: Property,
    levels: u32,
    fields: &mut Items<PatternField>,
    rest: &mut Option<Boxed<Pattern>>,
) -> Result<(), OutOfMemory>
    ensures fields { OnOk result (fields.new
        ≡ fields.old ++ spec.fields_of (spec.refined_to levels) property) }
    ensures rest { OnOk result (rest.new ≡ spec.with_rest_property rest.old property) }
{
    match property {
        Property::Valued { key, value } => {
            let element = element(alloc, value.into_inner(), levels)?;
            Ok(fields.push(PatternField { key, element })?)
        }
        Property::Initialized { name, default } => {
            let field = initialized_field(alloc, name, default)?;
            Ok(fields.push(field)?)
        }
        Property::SpreadProperty(spread) => {
            let pattern = simple(alloc, spread.into_inner())?;
            *rest = Some(pattern);
            Ok(())
        }
        Property::Defined { .. } => Ok(()),
    }
}

/// The field of a name with a default, which is the key and is bound.
fn initialized_field(
    alloc: Global,
    name: Identifier,
    default: Boxed<Expr>,
) -> Result<PatternField, OutOfMemory>
    ensures { IfOk result (λ f. f ≡ spec.initialized_field name default) }
{
    let key = Identifier {
        place: name.place,
        name: name.name.copy()?,
    };
    let element = PatternElement {
        pattern: Boxed::new(alloc, Pattern::Bound(name))?,
        default: Some(default),
    };
    Ok(PatternField {
        key: PropertyKey::Named(key),
        element,
    })
}

/// What `...` of an object pattern holds: a name, or a target that is no pattern.
fn simple(alloc: Global, expression: Expr) -> Result<Boxed<Pattern>, OutOfMemory>
    ensures { IfOk result (λ p. p ≡ spec.simple expression) }
{
    match expression {
        Expr::Name(name) => Ok(Boxed::new(alloc, Pattern::Bound(name))?),
        other => target(alloc, other),
    }
}

#[cycle(refinement)]
fn add_slot(
    alloc: Global,
    element: ArrayElement,
    levels: u32,
    slots: &mut Items<Option<PatternElement>>,
    rest: &mut Option<Boxed<Pattern>>,
) -> Result<(), OutOfMemory>
    ensures slots { OnOk result (slots.new
        ≡ slots.old ++ spec.slots_of (spec.refined_to levels) element) }
    ensures rest { OnOk result (rest.new
        ≡ spec.with_rest_element (spec.refined_to levels) rest.old element) }
{
    match element {
        ArrayElement::Hole => Ok(slots.push(None)?),
        ArrayElement::Element(value) => {
            let element = self::element(alloc, value.into_inner(), levels)?;
            Ok(slots.push(Some(element))?)
        }
        ArrayElement::SpreadElement(spread) => {
            let pattern = refined_to(alloc, spread.into_inner(), levels)?;
            *rest = Some(pattern);
            Ok(())
        }
    }
}

/// A target with its default, if it is an assignment.
#[cycle(refinement)]
pub(crate) fn element(
    alloc: Global,
    value: Expr,
    levels: u32,
) -> Result<PatternElement, OutOfMemory>
    ensures { IfOk result (λ x. x ≡ spec.element (spec.refined_to levels) value) }
{
    match value {
        Expr::Assign { target, value, .. } => Ok(PatternElement {
            pattern: target,
            default: Some(value),
        }),
        other => Ok(PatternElement {
            pattern: refined_to(alloc, other, levels)?,
            default: None,
        }),
    }
}

/// Whether these properties may stand in an object pattern: none is a method, and none stands behind `...`.
fn covers_object(properties: &[Property]) -> bool
    ensures { result ≡ spec.covers_object false properties.now }
{
    let mut ended = false;
    let mut left = properties;
    while let [first, rest @ ..] = left {
        if ended || is_method(first) {
            return false;
        }
        ended = is_rest(first);
        left = rest;
    }
    true
}

fn is_method(property: &Property) -> bool
    ensures { result ≡ spec.is_method property.now }
{
    matches!(property, Property::Defined { .. })
}

fn is_rest(property: &Property) -> bool
    ensures { result ≡ spec.is_rest property.now }
{
    matches!(property, Property::SpreadProperty(_))
}

/// Whether these elements may stand in an array pattern: none stands behind `...`.
fn covers_array(elements: &[ArrayElement]) -> bool
    ensures { result ≡ spec.covers_array false elements.now }
{
    let mut ended = false;
    let mut left = elements;
    while let [first, rest @ ..] = left {
        if ended {
            return false;
        }
        ended = is_spread(first);
        left = rest;
    }
    true
}

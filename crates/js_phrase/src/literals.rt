// Array and object literals.

ghost use Rattle.std.specs.Prelude.{◌≡◌, ◌++◌, [], IfOk, OnOk};
ghost use Rattle.js_phrase.specs.Literals as spec;

use crate::lasts::take_last;
use crate::phrase::Phrase;
use crate::queue::Queue;
use js_tree::tree::{ArrayElement, ClassMember, Expr, Property};
use lava_base::memory::OutOfMemory;
use lava_base::place::Place;
use sqlite_items::{Boxed, Items};
use std::alloc::Global;

/// What stands at the end of the parts of an object literal.
#[derive(Clone, Copy)]
pub enum Ending {
    Other,
    /// `...` with its expression.
    Spread,
    /// A comma behind that.
    Comma,
}

impl Queue<Phrase> {
    /// Takes all that is left as an array literal; `place` is that of the `[`.
    pub fn array(&mut self, alloc: Global, place: Place) -> Result<Boxed<Expr>, OutOfMemory>
        ensures all { IfOk result (λ e. e ≡ spec.array place self.old) }
        ensures rest { OnOk result (self.new ≡ []) }
    {
        let mut slots = Items::new(alloc);
        let first = self.slot(alloc)?;
        slots.push(first)?;
        while let Some(phrase) = self.pop() {
            add_slot(phrase, &mut slots)?;
        }
        array_of(alloc, place, slots)
    }

    /// Takes all that is left as an object literal; `place` is that of the `{`.
    pub fn object(&mut self, alloc: Global, place: Place) -> Result<Boxed<Expr>, OutOfMemory>
        ensures all { IfOk result (λ e. e ≡ spec.object place self.old) }
        ensures rest { OnOk result (self.new ≡ []) }
    {
        let mut properties = Items::new(alloc);
        let mut ending = Ending::Other;
        while let Some(phrase) = self.pop() {
            ending = after(ending, &phrase);
            add_property(phrase, &mut properties)?;
        }
        let literal = Boxed::new(alloc, Expr::Object { place, properties })?;
        sealed(alloc, matches!(ending, Ending::Comma), place, literal)
    }
}

fn sealed(
    alloc: Global,
    is_sealed: bool,
    place: Place,
    literal: Boxed<Expr>,
) -> Result<Boxed<Expr>, OutOfMemory>
    ensures { IfOk result (λ e. e ≡ spec.sealed is_sealed place literal) }
{
    if is_sealed {
        let inner = literal;
        Ok(Boxed::new(alloc, Expr::Parenthesized { place, inner })?)
    } else {
        Ok(literal)
    }
}

fn add_slot(phrase: Phrase, slots: &mut Items<ArrayElement>) -> Result<(), OutOfMemory>
    ensures { OnOk result (slots.new ≡ slots.old ++ spec.later_slot phrase) }
{
    match phrase {
        Phrase::Slot(element) => Ok(slots.push(element)?),
        other => {
            other.discard();
            Ok(())
        }
    }
}

fn array_of(
    alloc: Global,
    place: Place,
    mut slots: Items<ArrayElement>,
) -> Result<Boxed<Expr>, OutOfMemory>
    ensures { IfOk result (λ e. e ≡ spec.array_of place slots) }
{
    match take_last(&mut slots) {
        None => Ok(Boxed::new(
            alloc,
            Expr::Array {
                place,
                elements: slots,
            },
        )?),
        Some(ArrayElement::Hole) => array_before_comma(alloc, place, slots),
        Some(last) => {
            slots.push(last)?;
            Ok(Boxed::new(
                alloc,
                Expr::Array {
                    place,
                    elements: slots,
                },
            )?)
        }
    }
}

fn array_before_comma(
    alloc: Global,
    place: Place,
    elements: Items<ArrayElement>,
) -> Result<Boxed<Expr>, OutOfMemory>
    ensures { IfOk result (λ e. e ≡ spec.array_before_comma place elements) }
{
    let ends_with_spread = ends_with_spread(elements.as_slice());
    let literal = Boxed::new(alloc, Expr::Array { place, elements })?;
    sealed(alloc, ends_with_spread, place, literal)
}

fn ends_with_spread(elements: &[ArrayElement]) -> bool
    ensures { result ≡ spec.ends_with_spread elements.now }
{
    let mut ended = false;
    let mut left = elements;
    while let [first, rest @ ..] = left {
        ended = is_spread(first);
        left = rest;
    }
    ended
}

/// Whether `...` stands before an element.
pub fn is_spread(element: &ArrayElement) -> bool
    ensures { result ≡ spec.is_spread element.now }
{
    matches!(element, ArrayElement::SpreadElement(_))
}

fn add_property(phrase: Phrase, properties: &mut Items<Property>) -> Result<(), OutOfMemory>
    ensures { OnOk result (properties.new ≡ properties.old ++ spec.property_of phrase) }
{
    match phrase {
        Phrase::Property(property) => Ok(properties.push(property.into_inner())?),
        Phrase::Member(member) => {
            let ClassMember { key, function, .. } = member.into_inner();
            Ok(properties.push(Property::Defined { key, function })?)
        }
        Phrase::Spread(spread) => Ok(properties.push(Property::SpreadProperty(spread))?),
        other => {
            other.discard();
            Ok(())
        }
    }
}

fn after(ending: Ending, phrase: &Phrase) -> Ending
    ensures { result ≡ spec.after ending phrase.now }
{
    match (ending, phrase) {
        (_, Phrase::Spread(_)) => Ending::Spread,
        (Ending::Spread, Phrase::Token(_)) => Ending::Comma,
        (Ending::Comma, Phrase::Token(_) | Phrase::Absent) => Ending::Comma,
        _ => Ending::Other,
    }
}

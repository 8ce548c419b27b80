// Patterns that bind names.

ghost use Rattle.std.specs.Prelude.{◌≡◌, ◌++◌, [], None, IfOk, OnOk};
ghost use Rattle.js_phrase.specs.BindingPatterns as spec;
ghost use Rattle.js_phrase.specs.Lists as list;

use crate::lasts::take_last;
use crate::phrase::Phrase;
use crate::queue::Queue;
use js_tree::tree::{Pattern, PatternElement, PatternField};
use lava_base::memory::OutOfMemory;
use lava_base::place::Place;
use sqlite_items::{Boxed, Items};
use std::alloc::Global;

impl Queue<Phrase> {
    /// Takes all that is left as the fields of an object pattern; `place` is that of the `{`.
    pub fn object_pattern(
        &mut self,
        alloc: Global,
        place: Place,
    ) -> Result<Boxed<Pattern>, OutOfMemory>
        ensures all { IfOk result (λ p. p ≡ spec.object_pattern place self.old) }
        ensures rest { OnOk result (self.new ≡ []) }
    {
        let mut fields = Items::new(alloc);
        let mut rest = None;
        while let Some(phrase) = self.pop() {
            add_field(phrase, &mut fields, &mut rest)?;
        }
        let pattern = Pattern::ObjectPattern {
            place,
            fields,
            rest,
        };
        Ok(Boxed::new(alloc, pattern)?)
    }

    /// Takes all that is left as the elements of an array pattern; `place` is that of the `[`.
    pub fn array_pattern(
        &mut self,
        alloc: Global,
        place: Place,
    ) -> Result<Boxed<Pattern>, OutOfMemory>
        ensures all { IfOk result (λ p. p ≡ spec.array_pattern place self.old) }
        ensures rest { OnOk result (self.new ≡ []) }
    {
        let mut slots = Items::new(alloc);
        let mut rest = None;
        add_first_slot(self.next(), &mut slots, &mut rest)?;
        while let Some(phrase) = self.pop() {
            add_slot(phrase, &mut slots, &mut rest)?;
        }
        array_pattern_with(alloc, place, slots, rest)
    }
}

fn add_field(
    phrase: Phrase,
    fields: &mut Items<PatternField>,
    rest: &mut Option<Boxed<Pattern>>,
) -> Result<(), OutOfMemory>
    ensures fields { OnOk result (fields.new ≡ fields.old ++ list.field_of phrase) }
    ensures rest { OnOk result (rest.new ≡ list.with_rest rest.old phrase) }
{
    match phrase {
        Phrase::Field(field) => Ok(fields.push(field.into_inner())?),
        Phrase::Rest(pattern) => {
            *rest = Some(pattern);
            Ok(())
        }
        other => {
            other.discard();
            Ok(())
        }
    }
}

fn add_first_slot(
    phrase: Phrase,
    slots: &mut Items<Option<PatternElement>>,
    rest: &mut Option<Boxed<Pattern>>,
) -> Result<(), OutOfMemory>
    ensures slots { OnOk result (slots.new ≡ slots.old ++ spec.first_slot phrase) }
    ensures rest { OnOk result (rest.new ≡ list.with_rest rest.old phrase) }
{
    match phrase {
        Phrase::Absent => Ok(slots.push(None)?),
        other => add_slot(other, slots, rest),
    }
}

fn add_slot(
    phrase: Phrase,
    slots: &mut Items<Option<PatternElement>>,
    rest: &mut Option<Boxed<Pattern>>,
) -> Result<(), OutOfMemory>
    ensures slots { OnOk result (slots.new ≡ slots.old ++ spec.later_slot phrase) }
    ensures rest { OnOk result (rest.new ≡ list.with_rest rest.old phrase) }
{
    match phrase {
        Phrase::Element(element) => Ok(slots.push(Some(element))?),
        Phrase::Hole => Ok(slots.push(None)?),
        Phrase::Rest(pattern) => {
            *rest = Some(pattern);
            Ok(())
        }
        other => {
            other.discard();
            Ok(())
        }
    }
}

fn array_pattern_with(
    alloc: Global,
    place: Place,
    slots: Items<Option<PatternElement>>,
    rest: Option<Boxed<Pattern>>,
) -> Result<Boxed<Pattern>, OutOfMemory>
    ensures { IfOk result (λ p. p ≡ spec.array_pattern_with place slots rest) }
{
    let elements = match &rest {
        None => trimmed(slots)?,
        Some(_) => slots,
    };
    let pattern = Pattern::ArrayPattern {
        place,
        elements,
        rest,
    };
    Ok(Boxed::new(alloc, pattern)?)
}

fn trimmed(
    mut slots: Items<Option<PatternElement>>,
) -> Result<Items<Option<PatternElement>>, OutOfMemory>
    ensures { IfOk result (λ l. l ≡ spec.trimmed slots) }
{
    if let Some(Some(element)) = take_last(&mut slots) {
        slots.push(Some(element))?;
    }
    Ok(slots)
}

// What stands below patterns.

ghost use Rattle.std.specs.Prelude.{◌≡◌, ◌++◌, OnOk};
ghost use Rattle.js_walk.specs.Parts.{Adds};
ghost use Rattle.js_walk.specs.Parts as spec;
ghost use Rattle.js_names.specs.Lists.{flat, from_option};

use crate::expressions::{expression_parts, key, maybe_operand};
use crate::subtree::{Subtree, add};
use js_tree::tree::{Pattern, PatternElement, PatternField};
use lava_base::memory::OutOfMemory;
use sqlite_items::{Boxed, Items};

pub(crate) fn element<'a>(
    assigns: bool,
    element: &'a PatternElement,
    out: &mut Items<Subtree<'a>>,
) -> Result<(), OutOfMemory>
    ensures { OnOk result (Adds out.old out.new (spec.element assigns element.now)) }
{
    add(Subtree::Pattern(assigns, element.pattern.get()), out)?;
    maybe_operand(&element.default, out)
}

pub(crate) fn elements<'a>(
    assigns: bool,
    mut list: &'a [PatternElement],
    out: &mut Items<Subtree<'a>>,
) -> Result<(), OutOfMemory>
    ensures { OnOk result (Adds out.old out.new (flat (spec.element assigns) list.entry.now)) }
{
    while let [first, rest @ ..] = list {
        element(assigns, first, out)?;
        list = rest;
    }
    Ok(())
}

fn maybe_element<'a>(
    assigns: bool,
    slot: &'a Option<PatternElement>,
    out: &mut Items<Subtree<'a>>,
) -> Result<(), OutOfMemory>
    ensures { OnOk result (Adds out.old out.new (spec.maybe_element assigns slot.now)) }
{
    match slot {
        None => Ok(()),
        Some(found) => element(assigns, found, out),
    }
}

fn maybe_elements<'a>(
    assigns: bool,
    mut list: &'a [Option<PatternElement>],
    out: &mut Items<Subtree<'a>>,
) -> Result<(), OutOfMemory>
    ensures { OnOk result (Adds out.old out.new
        (flat (spec.maybe_element assigns) list.entry.now)) }
{
    while let [first, rest @ ..] = list {
        maybe_element(assigns, first, out)?;
        list = rest;
    }
    Ok(())
}

fn field<'a>(
    assigns: bool,
    field: &'a PatternField,
    out: &mut Items<Subtree<'a>>,
) -> Result<(), OutOfMemory>
    ensures { OnOk result (Adds out.old out.new (spec.field assigns field.now)) }
{
    key(&field.key, out)?;
    element(assigns, &field.element, out)
}

fn fields<'a>(
    assigns: bool,
    mut list: &'a [PatternField],
    out: &mut Items<Subtree<'a>>,
) -> Result<(), OutOfMemory>
    ensures { OnOk result (Adds out.old out.new (flat (spec.field assigns) list.entry.now)) }
{
    while let [first, rest @ ..] = list {
        field(assigns, first, out)?;
        list = rest;
    }
    Ok(())
}

pub(crate) fn maybe_pattern<'a>(
    assigns: bool,
    pattern: &'a Option<Boxed<Pattern>>,
    out: &mut Items<Subtree<'a>>,
) -> Result<(), OutOfMemory>
    ensures { OnOk result (Adds out.old out.new (from_option (spec.pattern assigns) pattern.now)) }
{
    match pattern {
        None => Ok(()),
        Some(pattern) => add(Subtree::Pattern(assigns, pattern.get()), out),
    }
}

pub(crate) fn pattern_parts<'a>(
    assigns: bool,
    pattern: &'a Pattern,
    out: &mut Items<Subtree<'a>>,
) -> Result<(), OutOfMemory>
    ensures { OnOk result (Adds out.old out.new (spec.pattern_parts assigns pattern.now)) }
{
    match pattern {
        Pattern::Bound(_) => Ok(()),
        Pattern::Target(expression) => expression_parts(expression.get(), out),
        Pattern::ObjectPattern {
            fields: list,
            rest,
            ..
        } => {
            fields(assigns, list.as_slice(), out)?;
            maybe_pattern(assigns, rest, out)
        }
        Pattern::ArrayPattern { elements, rest, .. } => {
            maybe_elements(assigns, elements.as_slice(), out)?;
            maybe_pattern(assigns, rest, out)
        }
    }
}

// Rules of jumps and labels.

ghost use Rattle.std.specs.Prelude.{◌≡◌, ◌++◌, OnOk};
ghost use Rattle.js_early.specs.Rules as spec;

use crate::context::{EarlyContext, EarlyLabel};
use crate::fault::{EarlyFault, EarlyRule, unless};
use js_text::text::Text;
use js_tree::tree::{Identifier, Stmt};
use lava_base::memory::OutOfMemory;
use lava_base::place::Place;
use sqlite_items::Items;

fn has_label(name: &Text, mut list: &[EarlyLabel]) -> bool
    ensures { result ≡ spec.has_label name.now list.entry.now }
{
    while let [first, rest @ ..] = list {
        if first.name.is_same(name) {
            return true;
        }
        list = rest;
    }
    false
}

fn has_loop_label(name: &Text, mut list: &[EarlyLabel]) -> bool
    ensures { result ≡ spec.has_loop_label name.now list.entry.now }
{
    while let [first, rest @ ..] = list {
        if first.is_loop && first.name.is_same(name) {
            return true;
        }
        list = rest;
    }
    false
}

/// Appends a fault where a `break` has no target.
pub(crate) fn break_faults(
    context: EarlyContext,
    labels: &[EarlyLabel],
    place: Place,
    label: &Option<Identifier>,
    out: &mut Items<EarlyFault>,
) -> Result<(), OutOfMemory>
    ensures { OnOk result (out.new
        ≡ out.old ++ spec.break_faults context labels.now place label.now) }
{
    match label {
        None => unless(
            context.in_loop || context.in_switch,
            EarlyRule::Break,
            place,
            out,
        ),
        Some(found) => unless(has_label(&found.name, labels), EarlyRule::Break, place, out),
    }
}

/// Appends a fault where a `continue` has no target.
pub(crate) fn continue_faults(
    context: EarlyContext,
    labels: &[EarlyLabel],
    place: Place,
    label: &Option<Identifier>,
    out: &mut Items<EarlyFault>,
) -> Result<(), OutOfMemory>
    ensures { OnOk result (out.new
        ≡ out.old ++ spec.continue_faults context labels.now place label.now) }
{
    match label {
        None => unless(context.in_loop, EarlyRule::Continue, place, out),
        Some(found) => {
            unless(
                has_loop_label(&found.name, labels),
                EarlyRule::Continue,
                place,
                out,
            )
        }
    }
}

fn is_function(statement: &Stmt) -> bool
    ensures { result ≡ spec.is_function statement.now }
{
    match statement {
        Stmt::FunctionDeclaration(_) => true,
        _ => false,
    }
}

/// Appends a fault for a label inside a label of its name, and for one before a function.
pub(crate) fn label_faults(
    labels: &[EarlyLabel],
    label: &Identifier,
    body: &Stmt,
    out: &mut Items<EarlyFault>,
) -> Result<(), OutOfMemory>
    ensures { OnOk result (out.new ≡ out.old ++ spec.label_faults labels.now label.now body.now) }
{
    unless(
        !has_label(&label.name, labels),
        EarlyRule::Label,
        label.place,
        out,
    )?;
    unless(!is_function(body), EarlyRule::Function, label.place, out)
}

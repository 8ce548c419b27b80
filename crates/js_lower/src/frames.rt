// The scopes of bodies, and the slots that start as undefined.

ghost use Rattle.std.specs.Prelude.{◌≡◌, ◌+◌, ◌++◌, ◌∷◌, [], map, length, drop, codes, true, false, IfOk, OnOk, Some, None};
ghost use Rattle.js_names.specs.Lists.{flat};
ghost use Rattle.js_names.specs.Names as names;
ghost use Rattle.js_names.specs.Scopes.{with_names};
ghost use Rattle.js_term.specs.declared.term.Jump.TheVariants as jump;
ghost use Rattle.js_term.specs.declared.term.Term.TheVariants as term;
ghost use Rattle.js_term.specs.declared.term.TemplateKind.TheVariants as template;
ghost use Rattle.js_lower_table.specs.Values as values;
ghost use Rattle.js_lower_table.specs.Entries.{given, origin};
ghost use Rattle.js_lower_table.specs.Entries as entries;
ghost use Rattle.js_lower_table.specs.Expressions as expressions;
ghost use Rattle.js_lower_table.specs.Statements as statements;
ghost use Rattle.js_lower_table.specs.Templates as spec;
ghost use Rattle.js_lower_table.specs.Nests.{Nests};
ghost use Rattle.js_lower_table.specs.Table.{low};
ghost use Rattle.js_lower_table.specs.Table as table;

use js_frames::frame::{Frame, SlotName};
use js_lower_stmt::frames::{hidden_slot, variable_slot};
use js_lower_table::words::{after, count};
use js_names::bound::parameter_names;
use js_names::declared::DeclaredName;
use js_names::scope::{NameScope, scope_of as name_scope_of};
use js_names::vars::{body_names, var_declared_names};
use js_text::text::Text;
use js_tree::tree::{Body, Expr, Function, Module, Pattern, PatternElement, SourceKind, Stmt};
use lava_base::memory::OutOfMemory;
use sqlite_items::{Boxed, Items};
use std::alloc::Global;

fn parameter_slot(alloc: Global, pattern: &Pattern) -> Result<SlotName, OutOfMemory>
    ensures { IfOk result (λ made. made ≡ spec.parameter_slot pattern.now) }
{
    match pattern {
        Pattern::Bound(identifier) => variable_slot(&identifier.name),
        _ => hidden_slot(alloc),
    }
}

fn parameter_slots(
    alloc: Global,
    mut list: &[PatternElement],
    out: &mut Frame,
) -> Result<(), OutOfMemory>
    ensures { OnOk result (out.new ≡ out.old ++ spec.parameter_slots list.entry.now) }
{
    while let [first, rest @ ..] = list {
        out.push(parameter_slot(alloc, first.pattern.get())?)?;
        list = rest;
    }
    Ok(())
}

fn rest_slots(
    alloc: Global,
    rest: &Option<Boxed<Pattern>>,
    out: &mut Frame,
) -> Result<(), OutOfMemory>
    ensures { OnOk result (out.new ≡ out.old ++ spec.rest_slots rest.now) }
{
    match rest {
        None => Ok(()),
        Some(pattern) => out.push(parameter_slot(alloc, pattern.get())?),
    }
}

fn argument_slots(alloc: Global, function: &Function) -> Result<Frame, OutOfMemory>
    ensures { IfOk result (λ made. made ≡ spec.argument_slots function.now) }
{
    let mut frame = Frame::new(alloc);
    parameter_slots(alloc, function.parameters.as_slice(), &mut frame)?;
    rest_slots(alloc, &function.rest, &mut frame)?;
    Ok(frame)
}

pub fn parameter_frame(alloc: Global, function: &Function) -> Result<Frame, OutOfMemory>
    ensures { IfOk result (λ made. made ≡ spec.parameter_frame function.now) }
{
    let mut declared = Items::new(alloc);
    parameter_names(function, &mut declared)?;
    let mut frame = argument_slots(alloc, function)?;
    frame.add_all(declared.as_slice())?;
    Ok(frame)
}

/// The statements of a body.
pub fn own_statements(function: &Function) -> &[Boxed<Stmt>]
    ensures { result.now ≡ spec.own_statements function.now }
{
    match &function.body {
        Body::Statements(list) => list.as_slice(),
        Body::Concise(_) => &[],
    }
}

pub fn body_frame(alloc: Global, first: Frame, list: &[Boxed<Stmt>]) -> Result<Frame, OutOfMemory>
    ensures { IfOk result (λ made. made ≡ spec.body_frame first list.now) }
{
    let mut declared = Items::new(alloc);
    body_names(list, &mut declared)?;
    let mut frame = first;
    frame.add_all(declared.as_slice())?;
    Ok(frame)
}

fn all_vars(mut list: &[Boxed<Stmt>], out: &mut Items<DeclaredName>) -> Result<(), OutOfMemory>
    ensures { OnOk result (out.new ≡ out.old ++ spec.var_names list.entry.now) }
{
    while let [first, rest @ ..] = list {
        var_declared_names(first.get(), out)?;
        list = rest;
    }
    Ok(())
}

fn var_scope(alloc: Global, list: &[Boxed<Stmt>]) -> Result<NameScope, OutOfMemory>
    ensures { IfOk result (λ made. made ≡ with_names [] (spec.var_names list.now)) }
{
    let mut declared = Items::new(alloc);
    all_vars(list, &mut declared)?;
    name_scope_of(alloc, declared.as_slice())
}

fn after_first(list: &[SlotName], first: usize) -> &[SlotName]
    ensures { result.now ≡ drop first list.now }
{
    if first < list.len() {
        return &list[first..];
    }
    &[]
}

fn var_slots(
    alloc: Global,
    vars: &NameScope,
    first: usize,
    mut list: &[SlotName],
) -> Result<Items<u32>, OutOfMemory>
    ensures { IfOk result (λ made. made ≡ spec.var_slots vars.now first list.entry.now) }
{
    let mut done = Items::new(alloc);
    let mut at = first;
    while let [slot, rest @ ..] = list {
        if vars.has(&slot.name) {
            done.push(count(at)?)?;
        }
        at = after(at)?;
        list = rest;
    }
    Ok(done)
}

/// The slots of a body that start as undefined, where so many stand before its own.
#[tactic(auto, using(crate::proofs::Var_laws::var_slots_once))]
pub fn undefined_slots(
    alloc: Global,
    first: usize,
    frame: &Frame,
    list: &[Boxed<Stmt>],
) -> Result<Items<u32>, OutOfMemory>
    ensures { let vars = spec.var_names list.now in
        IfOk result (λ made. made ≡ spec.var_slots vars first (drop first frame.now)) }
{
    let vars = var_scope(alloc, list)?;
    let own = after_first(frame.as_slice(), first);
    var_slots(alloc, &vars, first, own)
}

// The scopes of blocks, loops, `switch` and `catch`.

ghost use Rattle.std.specs.Prelude.{◌≡◌, ◌+◌, ◌++◌, ◌∷◌, [], pos, negsuc, map, length, codes, true, false, IfOk, OnOk, Some, None};
ghost use Rattle.std.specs.Option.{option_map};
ghost use Rattle.js_names.specs.Lists.{flat};
ghost use Rattle.js_names.specs.Names as names;
ghost use Rattle.js_frames.specs.Frames.{with_names};
ghost use Rattle.js_term.specs.declared.term.Jump.TheVariants as jump;
ghost use Rattle.js_term.specs.declared.term.Term.TheVariants as term;
ghost use Rattle.js_term.specs.declared.term.TemplateKind.TheVariants as template;
ghost use Rattle.js_lower_table.specs.Values as values;
ghost use Rattle.js_lower_table.specs.Entries.{given, origin};
ghost use Rattle.js_lower_table.specs.Entries as entries;
ghost use Rattle.js_lower_table.specs.Expressions as expressions;
ghost use Rattle.js_lower_table.specs.Statements as spec;
ghost use Rattle.js_lower_table.specs.Nests.{Nests};
ghost use Rattle.js_lower_table.specs.Table.{low};
ghost use Rattle.js_lower_table.specs.declared.commons.TheConstants.{FOR_IN, OPEN};

use js_frames::frame::{Frame, Referent, SlotName, frame_of};
use js_lower_table::words::word;
use js_names::bound::{binding_lexicals, bound_names, declaration_lexicals};
use js_names::lexical::{block_names, cases_names};
use js_text::text::Text;
use js_tree::tree::{
    Catch, Class, Clause, Declaration, DeclarationKind, Expr, ForInit, ForTarget, Function,
    Identifier, Pattern, PatternElement, Stmt,
};
use lava_base::memory::OutOfMemory;
use sqlite_items::{Boxed, Items};
use std::alloc::Global;

/// A slot that has no name of the source.
pub fn hidden_slot(alloc: Global) -> Result<SlotName, OutOfMemory>
    ensures { IfOk result (λ made. made ≡ spec.hidden_slot) }
{
    let name = word(alloc, b"")?;
    Ok(SlotName {
        name,
        referent: Referent::Constant,
    })
}

/// The slot of a variable.
pub fn variable_slot(name: &Text) -> Result<SlotName, OutOfMemory>
    ensures { IfOk result (λ made. made ≡ spec.variable_slot name.now) }
{
    let name = name.copy()?;
    Ok(SlotName {
        name,
        referent: Referent::Variable,
    })
}

pub fn block_frame(alloc: Global, list: &[Boxed<Stmt>]) -> Result<Frame, OutOfMemory>
    ensures { IfOk result (λ made. made ≡ spec.block_frame list.now) }
{
    let mut declared = Items::new(alloc);
    block_names(list, &mut declared)?;
    frame_of(alloc, declared.as_slice())
}

pub fn for_frame(alloc: Global, declaration: &Declaration) -> Result<Frame, OutOfMemory>
    ensures { IfOk result (λ made. made ≡ spec.for_frame declaration.now) }
{
    let mut declared = Items::new(alloc);
    declaration_lexicals(declaration, &mut declared)?;
    frame_of(alloc, declared.as_slice())
}

fn binding_frame(
    alloc: Global,
    kind: DeclarationKind,
    pattern: &Pattern,
) -> Result<Frame, OutOfMemory>
    ensures { IfOk result (λ made.
        made ≡ with_names [] (names.binding_lexicals kind pattern.now)) }
{
    let mut declared = Items::new(alloc);
    binding_lexicals(kind, pattern, &mut declared)?;
    frame_of(alloc, declared.as_slice())
}

pub fn target_frame(alloc: Global, target: &ForTarget) -> Result<Frame, OutOfMemory>
    ensures { IfOk result (λ made. made ≡ spec.target_frame target.now) }
{
    match target {
        ForTarget::ForBinding { kind, pattern } => binding_frame(alloc, *kind, pattern.get()),
        ForTarget::ForAssignment(_) => Ok(Frame::new(alloc)),
    }
}

fn two_hidden(alloc: Global) -> Result<Frame, OutOfMemory>
    ensures { IfOk result (λ made. made ≡ spec.hidden_slot ∷ spec.hidden_slot ∷ []) }
{
    let mut frame = Frame::new(alloc);
    frame.push(hidden_slot(alloc)?)?;
    frame.push(hidden_slot(alloc)?)?;
    Ok(frame)
}

pub fn switch_frame(alloc: Global, list: &[Clause]) -> Result<Frame, OutOfMemory>
    ensures { IfOk result (λ made. made ≡ spec.switch_frame list.now) }
{
    let mut declared = Items::new(alloc);
    cases_names(list, &mut declared)?;
    let mut frame = two_hidden(alloc)?;
    frame.add_all(declared.as_slice())?;
    Ok(frame)
}

pub fn catch_frame(alloc: Global, pattern: &Pattern) -> Result<Frame, OutOfMemory>
    ensures { IfOk result (λ made. made ≡ spec.catch_frame pattern.now) }
{
    let mut declared = Items::new(alloc);
    bound_names(false, pattern, &mut declared)?;
    frame_of(alloc, declared.as_slice())
}

pub fn caught_name(alloc: Global, name: &Text) -> Result<Frame, OutOfMemory>
    ensures { IfOk result (λ made. made ≡ spec.variable_slot name.now ∷ []) }
{
    let mut frame = Frame::new(alloc);
    frame.push(variable_slot(name)?)?;
    Ok(frame)
}

pub fn is_var(kind: DeclarationKind) -> bool
    ensures { result ≡ names.is_var kind }
{
    match kind {
        DeclarationKind::Var => true,
        DeclarationKind::Let => false,
        DeclarationKind::Const => false,
    }
}

pub fn target_assigned(target: &ForTarget) -> bool
    ensures { result ≡ spec.target_assigned target.now }
{
    match target {
        ForTarget::ForBinding { kind, .. } => is_var(*kind),
        ForTarget::ForAssignment(_) => true,
    }
}

pub fn target_pattern(target: &ForTarget) -> &Pattern
    ensures { result.now ≡ spec.target_pattern target.now }
{
    match target {
        ForTarget::ForBinding { pattern, .. } => pattern.get(),
        ForTarget::ForAssignment(pattern) => pattern.get(),
    }
}

// Modules, evaluated texts, JSON modules and functions of the prelude.

ghost use Rattle.std.specs.Prelude.{◌≡◌, ◌+◌, ◌-◌, ◌++◌, ◌∷◌, [], map, length, true, false, IfOk, OnOk, Some, None, codes};
ghost use Rattle.std.specs.Option.{option_map};
ghost use Rattle.js_names.specs.Lists.{flat};
ghost use Rattle.js_term.specs.declared.term.Term.TheVariants as term;
ghost use Rattle.js_term.specs.declared.term.Part.TheVariants as part;
ghost use Rattle.js_term.specs.declared.term.TemplateKind.TheVariants as template;
ghost use Rattle.js_term_stack.specs.Stacks.{extended, extended_parts, function_part, on_one, on_list, taken, taken_pending};
ghost use Rattle.js_term_stack.specs.declared.piece.Piece.TheVariants as piece;
ghost use Rattle.js_term_stack.specs.declared.pending.Pending.TheVariants as pending;
ghost use Rattle.js_lower_table.specs.Values as values;
ghost use Rattle.js_lower_table.specs.Entries.{given, origin};
ghost use Rattle.js_lower_table.specs.Entries as entries;
ghost use Rattle.js_lower_table.specs.Nests.{Nests};
ghost use Rattle.js_lower_table.specs.Table.{low};
ghost use Rattle.js_term.specs.declared.term.Jump.TheVariants as jump;
ghost use Rattle.js_term_stack.specs.Stacks.{taken_list};
ghost use Rattle.js_lower_table.specs.Statements as stmts;
ghost use Rattle.js_lower_table.specs.Templates as spec;
ghost use Rattle.js_lower.specs.Helpers as helpers;
ghost use Rattle.js_lower_table.specs.declared.commons.TheConstants.{JSON_PARSE};
ghost use Rattle.js_lower_table.specs.Table as table;

use crate::below::lower_stmt;
use crate::entries::lower_to;
use crate::frames::{body_frame, undefined_slots};
use crate::templates::{return_value, template_row};
use js_frames::frame::{Frame, Referent, SlotName};
use js_frames::scopes::Scopes;
use js_lower_stmt::blocks::{hoist_all, list};
use js_lower_table::commons::JSON_PARSE;
use js_lower_table::lowerer::Lowerer;
use js_lower_table::task::{LOWERING_DEPTH, Task};
use js_lower_table::values::{call_common_on, word_term};
use js_lower_table::words::{count, word};
use js_term::term::{Template, TemplateKind, Term};
use js_term_stack::stack::Stack;
use js_text::text::Text;
use js_tree::tree::{Function, Module, SourceKind, Stmt};
use lava_base::memory::OutOfMemory;
use sqlite_items::{Boxed, Items};
use std::alloc::Global;

fn variable(alloc: Global, name: &[u8]) -> Result<SlotName, OutOfMemory>
    ensures { IfOk result (λ made. made ≡ stmts.variable_slot name.now) }
{
    let name = word(alloc, name)?;
    Ok(SlotName {
        name,
        referent: Referent::Variable,
    })
}

fn module_slots(alloc: Global) -> Result<Frame, OutOfMemory>
    ensures { IfOk result (λ made. made ≡ helpers.module_slots) }
{
    let mut frame = Frame::new(alloc);
    frame.push(variable(alloc, b"exports")?)?;
    frame.push(variable(alloc, b"require")?)?;
    frame.push(variable(alloc, b"module")?)?;
    Ok(frame)
}

fn text_slots(alloc: Global) -> Result<Frame, OutOfMemory>
    ensures { IfOk result (λ made. made ≡ helpers.text_slots) }
{
    let mut frame = Frame::new(alloc);
    frame.push(variable(alloc, b"require")?)?;
    Ok(frame)
}

fn source_template(
    alloc: Global,
    kind: TemplateKind,
    slots: usize,
    undefined: Items<u32>,
    body: Boxed<Term>,
) -> Result<Template, OutOfMemory>
    ensures { IfOk result (λ made. made ≡ helpers.source_template kind slots undefined body) }
{
    let slots = count(slots)?;
    let name = word(alloc, b"")?;
    Ok(Template {
        kind,
        name,
        length: 0,
        params: 0,
        rest: false,
        slots,
        undefined,
        body,
    })
}

fn shape(
    alloc: Global,
    first: Frame,
    list: &[Boxed<Stmt>],
) -> Result<(Frame, Items<u32>), OutOfMemory>
    ensures { IfOk result (λ made.
        made ≡ (spec.body_frame first list.now, spec.undefined_slots first list.now)) }
{
    let before = first.len();
    let frame = body_frame(alloc, first, list)?;
    let undefined = undefined_slots(alloc, before, &frame, list)?;
    Ok((frame, undefined))
}

fn module_body<F: Fn(usize, &mut Scopes, &mut Stack, Task<'_>) -> Result<(), OutOfMemory>>(
    lowerer: &Lowerer<F>,
    scopes: &mut Scopes,
    terms: &mut Stack,
    frame: Frame,
    statements: &[Boxed<Stmt>],
) -> Result<(), OutOfMemory>
    requires { Nests lowerer.now.depth (F.pre lowerer.now.low) (F.post lowerer.now.low) }
    ensures ok { let b = low lowerer.now.depth in
        let made = term.Seq (stmts.list b (frame ∷ scopes.old) statements.now) in
        OnOk result (terms.new ≡ piece.OneTerm made ∷ terms.old) }
    ensures kept { OnOk result (scopes.new ≡ scopes.old) }
{
    scopes.open(frame)?;
    terms.begin()?;
    list(lowerer, scopes, terms, statements)?;
    scopes.close();
    terms.seq()
}

fn last_statement<F: Fn(usize, &mut Scopes, &mut Stack, Task<'_>) -> Result<(), OutOfMemory>>(
    lowerer: &Lowerer<F>,
    scopes: &mut Scopes,
    terms: &mut Stack,
    tree: &Stmt,
) -> Result<(), OutOfMemory>
    requires { Nests lowerer.now.depth (F.pre lowerer.now.low) (F.post lowerer.now.low) }
    ensures ok { let b = low lowerer.now.depth in
        let made = spec.last_statement b scopes.old tree.now in
        OnOk result (terms.new ≡ extended made terms.old) }
    ensures kept { OnOk result (scopes.new ≡ scopes.old) }
{
    match tree {
        Stmt::Expression(value) => {
            return_value(lowerer, scopes, terms, value.get())?;
            terms.append()
        }
        _ => lower_stmt(lowerer, scopes, terms, tree),
    }
}

#[tactic(auto, using(js_term_stack::specs::Stack_laws::extended_none, js_term_stack::specs::Stack_laws::extended_twice))]
fn text_statements<F: Fn(usize, &mut Scopes, &mut Stack, Task<'_>) -> Result<(), OutOfMemory>>(
    lowerer: &Lowerer<F>,
    scopes: &mut Scopes,
    terms: &mut Stack,
    mut list: &[Boxed<Stmt>],
) -> Result<(), OutOfMemory>
    requires { Nests lowerer.now.depth (F.pre lowerer.now.low) (F.post lowerer.now.low) }
    ensures ok { let b = low lowerer.now.depth in
        let made = spec.text_statements b scopes.old list.entry.now in
        OnOk result (terms.new ≡ extended made terms.old) }
    ensures kept { OnOk result (scopes.new ≡ scopes.old) }
{
    while let [first, rest @ ..] = list {
        match rest {
            [] => return last_statement(lowerer, scopes, terms, first.get()),
            [_, ..] => lower_stmt(lowerer, scopes, terms, first.get())?,
        }
        list = rest;
    }
    Ok(())
}

fn text_body<F: Fn(usize, &mut Scopes, &mut Stack, Task<'_>) -> Result<(), OutOfMemory>>(
    lowerer: &Lowerer<F>,
    scopes: &mut Scopes,
    terms: &mut Stack,
    frame: Frame,
    statements: &[Boxed<Stmt>],
) -> Result<(), OutOfMemory>
    requires { Nests lowerer.now.depth (F.pre lowerer.now.low) (F.post lowerer.now.low) }
    ensures ok { let b = low lowerer.now.depth in
        let made = (let inner = frame ∷ scopes.old in term.Seq
        (flat (stmts.hoisted b inner) statements.now ++
        spec.text_statements b inner statements.now)) in
        OnOk result (terms.new ≡ piece.OneTerm made ∷ terms.old) }
    ensures kept { OnOk result (scopes.new ≡ scopes.old) }
{
    scopes.open(frame)?;
    terms.begin()?;
    hoist_all(lowerer, scopes, terms, statements)?;
    text_statements(lowerer, scopes, terms, statements)?;
    scopes.close();
    terms.seq()
}

fn module_template(
    alloc: Global,
    depth: usize,
    list: &[Boxed<Stmt>],
) -> Result<Template, OutOfMemory>
    ensures { let b = low depth in
        IfOk result (λ made. made ≡ spec.module_template b list.now) }
{
    let lowerer = Lowerer {
        depth,
        low: lower_to,
    };
    let (frame, undefined) = shape(alloc, module_slots(alloc)?, list)?;
    let slots = frame.len();
    let mut scopes = Scopes::new(alloc);
    let mut terms = Stack::new(alloc);
    module_body(&lowerer, &mut scopes, &mut terms, frame, list)?;
    let body = terms.take_term()?;
    source_template(alloc, TemplateKind::Module, slots, undefined, body)
}

fn text_template(alloc: Global, depth: usize, list: &[Boxed<Stmt>]) -> Result<Template, OutOfMemory>
    ensures { let b = low depth in
        IfOk result (λ made. made ≡ spec.text_template b list.now) }
{
    let lowerer = Lowerer {
        depth,
        low: lower_to,
    };
    let (frame, undefined) = shape(alloc, text_slots(alloc)?, list)?;
    let slots = frame.len();
    let mut scopes = Scopes::new(alloc);
    let mut terms = Stack::new(alloc);
    text_body(&lowerer, &mut scopes, &mut terms, frame, list)?;
    let body = terms.take_term()?;
    source_template(alloc, TemplateKind::Text, slots, undefined, body)
}

/// The template of a module or an evaluated text.
#[tactic(auto, unfolding(js_lower_table::specs::Table::source_template_of))]
pub fn lower(alloc: Global, source: &Module) -> Result<Template, OutOfMemory>
    ensures { IfOk result (λ made. made ≡ table.source_template_of source.now) }
{
    let list = source.body.as_slice();
    match source.kind {
        SourceKind::Module => module_template(alloc, LOWERING_DEPTH, list),
        SourceKind::EvaluatedText => text_template(alloc, LOWERING_DEPTH, list),
    }
}

fn built_to(
    alloc: Global,
    depth: usize,
    frame: Frame,
    kind: TemplateKind,
    name: &Text,
    function: &Function,
) -> Result<Template, OutOfMemory>
    ensures { let b = low depth in
        IfOk result (λ made. made ≡ spec.template_row b (frame ∷ []) kind name.now function.now) }
{
    let lowerer = Lowerer {
        depth,
        low: lower_to,
    };
    let mut scopes = Scopes::new(alloc);
    scopes.open(frame)?;
    let mut terms = Stack::new(alloc);
    template_row(
        &lowerer,
        &mut scopes,
        &mut terms,
        kind,
        Some(name),
        function,
    )?;
    let made = terms.take_template()?;
    Ok(made.into_inner())
}

/// The template of a function of the prelude, whose text declares the names of a frame.
#[tactic(auto, unfolding(js_lower_table::specs::Table::built_template))]
pub fn lower_built(
    alloc: Global,
    frame: Frame,
    kind: TemplateKind,
    name: &Text,
    function: &Function,
) -> Result<Template, OutOfMemory>
    ensures { IfOk result (λ made. made ≡ table.built_template frame kind name.now function.now) }
{
    built_to(alloc, LOWERING_DEPTH, frame, kind, name, function)
}

fn json_body(terms: &mut Stack, source: &Text) -> Result<(), OutOfMemory>
    ensures { OnOk result (terms.new ≡ piece.OneTerm (term.Put (term.Local 0 2)
        (values.text (codes "exports"))
        (values.call_common JSON_PARSE (values.text source.now ∷ []))) ∷ terms.old) }
{
    terms.local(0, 2)?;
    word_term(terms, b"exports")?;
    terms.text_of(source)?;
    call_common_on(terms, JSON_PARSE)?;
    terms.put()
}

/// The template of a module whose source is JSON.
pub fn lower_json(alloc: Global, source: &Text) -> Result<Template, OutOfMemory>
    ensures { IfOk result (λ made. made ≡ helpers.json_template source.now) }
{
    let mut terms = Stack::new(alloc);
    json_body(&mut terms, source)?;
    let body = terms.take_term()?;
    source_template(alloc, TemplateKind::Module, 3, Items::new(alloc), body)
}

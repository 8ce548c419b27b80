// The templates of functions.

ghost use Rattle.std.specs.Prelude.{◌≡◌, ◌+◌, ◌-◌, ◌++◌, ◌∷◌, [], map, length, true, false, IfOk, OnOk, Some, None, codes};
ghost use Rattle.std.specs.Option.{option_map};
ghost use Rattle.js_names.specs.Lists.{flat};
ghost use Rattle.js_term.specs.declared.term.Term.TheVariants as term;
ghost use Rattle.js_term.specs.declared.term.Part.TheVariants as part;
ghost use Rattle.js_term.specs.declared.term.TemplateKind.TheVariants as template;
ghost use Rattle.js_term_stack.specs.Stacks.{extended, extended_parts, function_part, on_one, on_list, taken, taken_pending};
ghost use Rattle.js_term_stack.specs.declared.piece.Piece.TheVariants as piece;
ghost use Rattle.js_term_stack.specs.declared.pending.Pending.TheVariants as pending;
ghost use Rattle.js_lower_table.specs.Values as values;
ghost use Rattle.js_lower_table.specs.Entries.{given, origin};
ghost use Rattle.js_lower_table.specs.Entries as entries;
ghost use Rattle.js_lower_table.specs.Nests.{Nests};
ghost use Rattle.js_lower_table.specs.Table.{low};
ghost use Rattle.js_tree.specs.declared.tree.Function.{out-Function};
ghost use Rattle.js_term.specs.declared.term.Jump.TheVariants as jump;
ghost use Rattle.js_term_stack.specs.Stacks.{taken_list};
ghost use Rattle.js_lower_table.specs.Statements as stmts;
ghost use Rattle.js_lower_table.specs.Templates as spec;
ghost use Rattle.js_lower.specs.Helpers as helpers;

use crate::below::{lower_bind, lower_expr, lower_named};
use crate::frames::{body_frame, own_statements, parameter_frame, undefined_slots};
use js_frames::frame::Frame;
use js_frames::scopes::Scopes;
use js_lower_stmt::blocks::list;
use js_lower_stmt::js_lower_calls::functions::name_text;
use js_lower_table::bindings::bound_name;
use js_lower_table::bound_value::BoundValue;
use js_lower_table::held::Held;
use js_lower_table::lowerer::Lowerer;
use js_lower_table::task::Task;
use js_lower_table::values::slot;
use js_lower_table::words::{after, count};
use js_term::term::{Template, TemplateKind, Term};
use js_term_stack::piece::Piece;
use js_term_stack::stack::Stack;
use js_text::text::Text;
use js_tree::operator::BinaryOperator;
use js_tree::tree::{Body, Expr, Function, Pattern, PatternElement};
use lava_base::memory::OutOfMemory;
use sqlite_items::{Boxed, Items};
use std::alloc::Global;

fn expected_arguments(mut list: &[PatternElement]) -> Result<usize, OutOfMemory>
    ensures { IfOk result (λ made. made ≡ spec.expected_arguments list.entry.now) }
{
    let mut n = 0;
    while let [first, rest @ ..] = list {
        if first.default.is_some() {
            return Ok(n);
        }
        n = after(n)?;
        list = rest;
    }
    Ok(n)
}

fn rest_count(rest: &Option<Boxed<Pattern>>) -> usize
    ensures { result ≡ spec.rest_count rest.now }
{
    match rest {
        None => 0,
        Some(_) => 1,
    }
}

fn default_term<F: Fn(usize, &mut Scopes, &mut Stack, Task<'_>) -> Result<(), OutOfMemory>>(
    lowerer: &Lowerer<F>,
    scopes: &mut Scopes,
    terms: &mut Stack,
    held: Held,
    name: Option<&Text>,
    tree: &Expr,
) -> Result<(), OutOfMemory>
    requires { Nests lowerer.now.depth (F.pre lowerer.now.low) (F.post lowerer.now.low) }
    ensures ok { let b = low lowerer.now.depth in
        let made = term.If
        (values.same_value (values.slot scopes.old held) values.undefined)
        (values.init_here held.slot (b.expr scopes.old (given name.entry) tree.now))
        (Some values.undefined) ∷ [] in
        OnOk result (terms.new ≡ extended made terms.old) }
    ensures kept { OnOk result (scopes.new ≡ scopes.old) }
{
    slot(scopes, terms, held)?;
    terms.undefined()?;
    terms.binary(BinaryOperator::StrictlyEqual)?;
    lower_named(lowerer, scopes, terms, name, tree)?;
    terms.init_here(count(held.slot)?)?;
    terms.undefined()?;
    terms.some()?;
    terms.choice()?;
    terms.append()
}

#[tactic(auto, using(js_term_stack::specs::Stack_laws::extended_none, js_term_stack::specs::Stack_laws::extended_twice))]
fn default_list<F: Fn(usize, &mut Scopes, &mut Stack, Task<'_>) -> Result<(), OutOfMemory>>(
    lowerer: &Lowerer<F>,
    scopes: &mut Scopes,
    terms: &mut Stack,
    held: Held,
    name: Option<&Text>,
    tree: &Option<Boxed<Expr>>,
) -> Result<(), OutOfMemory>
    requires { Nests lowerer.now.depth (F.pre lowerer.now.low) (F.post lowerer.now.low) }
    ensures ok { let b = low lowerer.now.depth in
        let made = spec.default_list b scopes.old held (given name.entry) tree.now in
        OnOk result (terms.new ≡ extended made terms.old) }
    ensures kept { OnOk result (scopes.new ≡ scopes.old) }
{
    match tree {
        None => Ok(()),
        Some(tree) => default_term(lowerer, scopes, terms, held, name, tree.get()),
    }
}

#[tactic(auto, using(js_term_stack::specs::Stack_laws::extended_none, js_term_stack::specs::Stack_laws::extended_twice))]
fn parameter_bind<F: Fn(usize, &mut Scopes, &mut Stack, Task<'_>) -> Result<(), OutOfMemory>>(
    lowerer: &Lowerer<F>,
    scopes: &mut Scopes,
    terms: &mut Stack,
    held: Held,
    pattern: &Pattern,
) -> Result<(), OutOfMemory>
    requires { Nests lowerer.now.depth (F.pre lowerer.now.low) (F.post lowerer.now.low) }
    ensures ok { let b = low lowerer.now.depth in
        let made = spec.parameter_bind b scopes.old held pattern.now in
        OnOk result (terms.new ≡ extended made terms.old) }
    ensures kept { OnOk result (scopes.new ≡ scopes.old) }
{
    match pattern {
        Pattern::Bound(_) => Ok(()),
        _ => {
            lower_bind(
                lowerer,
                scopes,
                terms,
                false,
                BoundValue::InSlot(held),
                pattern,
            )?;
            terms.append()
        }
    }
}

#[tactic(auto, using(js_term_stack::specs::Stack_laws::extended_none, js_term_stack::specs::Stack_laws::extended_twice))]
fn parameter<F: Fn(usize, &mut Scopes, &mut Stack, Task<'_>) -> Result<(), OutOfMemory>>(
    lowerer: &Lowerer<F>,
    scopes: &mut Scopes,
    terms: &mut Stack,
    held: Held,
    element: &PatternElement,
) -> Result<(), OutOfMemory>
    requires { Nests lowerer.now.depth (F.pre lowerer.now.low) (F.post lowerer.now.low) }
    ensures ok { let b = low lowerer.now.depth in
        let made = spec.parameter b scopes.old held element.now in
        OnOk result (terms.new ≡ extended made terms.old) }
    ensures kept { OnOk result (scopes.new ≡ scopes.old) }
{
    let pattern = element.pattern.get();
    let name = bound_name(pattern);
    default_list(lowerer, scopes, terms, held, name, &element.default)?;
    parameter_bind(lowerer, scopes, terms, held, pattern)
}

#[tactic(auto, using(js_term_stack::specs::Stack_laws::extended_none, js_term_stack::specs::Stack_laws::extended_twice))]
fn parameters<F: Fn(usize, &mut Scopes, &mut Stack, Task<'_>) -> Result<(), OutOfMemory>>(
    lowerer: &Lowerer<F>,
    scopes: &mut Scopes,
    terms: &mut Stack,
    level: usize,
    mut list: &[PatternElement],
) -> Result<(), OutOfMemory>
    requires { Nests lowerer.now.depth (F.pre lowerer.now.low) (F.post lowerer.now.low) }
    ensures ok { let b = low lowerer.now.depth in
        let made = spec.parameters b scopes.old level 0 list.entry.now in
        OnOk result (terms.new ≡ extended made terms.old) }
    ensures kept { OnOk result (scopes.new ≡ scopes.old) }
{
    let mut slot = 0;
    while let [first, rest @ ..] = list {
        parameter(lowerer, scopes, terms, Held { level, slot }, first)?;
        slot = after(slot)?;
        list = rest;
    }
    Ok(())
}

#[tactic(auto, using(js_term_stack::specs::Stack_laws::extended_none, js_term_stack::specs::Stack_laws::extended_twice))]
fn rest_parameter<F: Fn(usize, &mut Scopes, &mut Stack, Task<'_>) -> Result<(), OutOfMemory>>(
    lowerer: &Lowerer<F>,
    scopes: &mut Scopes,
    terms: &mut Stack,
    held: Held,
    rest: &Option<Boxed<Pattern>>,
) -> Result<(), OutOfMemory>
    requires { Nests lowerer.now.depth (F.pre lowerer.now.low) (F.post lowerer.now.low) }
    ensures ok { let b = low lowerer.now.depth in
        let made = spec.rest_parameter b scopes.old held rest.now in
        OnOk result (terms.new ≡ extended made terms.old) }
    ensures kept { OnOk result (scopes.new ≡ scopes.old) }
{
    match rest {
        None => Ok(()),
        Some(pattern) => parameter_bind(lowerer, scopes, terms, held, pattern.get()),
    }
}

#[tactic(auto, using(js_term_stack::specs::Stack_laws::extended_none, js_term_stack::specs::Stack_laws::extended_twice))]
fn all_parameters<F: Fn(usize, &mut Scopes, &mut Stack, Task<'_>) -> Result<(), OutOfMemory>>(
    lowerer: &Lowerer<F>,
    scopes: &mut Scopes,
    terms: &mut Stack,
    level: usize,
    function: &Function,
) -> Result<(), OutOfMemory>
    requires { Nests lowerer.now.depth (F.pre lowerer.now.low) (F.post lowerer.now.low) }
    ensures ok { let b = low lowerer.now.depth in
        let made = spec.all_parameters b scopes.old level function.now in
        OnOk result (terms.new ≡ extended made terms.old) }
    ensures kept { OnOk result (scopes.new ≡ scopes.old) }
{
    let list = function.parameters.as_slice();
    parameters(lowerer, scopes, terms, level, list)?;
    let slot = list.len();
    rest_parameter(lowerer, scopes, terms, Held { level, slot }, &function.rest)
}

pub fn return_value<F: Fn(usize, &mut Scopes, &mut Stack, Task<'_>) -> Result<(), OutOfMemory>>(
    lowerer: &Lowerer<F>,
    scopes: &mut Scopes,
    terms: &mut Stack,
    tree: &Expr,
) -> Result<(), OutOfMemory>
    requires { Nests lowerer.now.depth (F.pre lowerer.now.low) (F.post lowerer.now.low) }
    ensures ok { let b = low lowerer.now.depth in
        let made = spec.return_value b scopes.old tree.now in
        OnOk result (terms.new ≡ piece.OneTerm made ∷ terms.old) }
    ensures kept { OnOk result (scopes.new ≡ scopes.old) }
{
    lower_expr(lowerer, scopes, terms, tree)?;
    terms.some()?;
    terms.return_term()
}

#[tactic(auto, using(crate::proofs::Var_laws::concise_none, crate::proofs::Var_laws::concise_some))]
fn concise(terms: &mut Stack) -> Result<(), OutOfMemory>
    ensures { OnOk result (terms.new ≡ taken (λ t. taken_list
        (λ l r. piece.OneTerm (helpers.concise_term l t) ∷ r)) terms.old) }
{
    let value = terms.take_term()?;
    let mut list = terms.take_list()?;
    if list.len() == 0 {
        return terms.push(Piece::OneTerm(value));
    }
    list.push(value)?;
    terms.add(Term::Seq(list))
}

fn body<F: Fn(usize, &mut Scopes, &mut Stack, Task<'_>) -> Result<(), OutOfMemory>>(
    lowerer: &Lowerer<F>,
    scopes: &mut Scopes,
    terms: &mut Stack,
    body: &Body,
) -> Result<(), OutOfMemory>
    requires { Nests lowerer.now.depth (F.pre lowerer.now.low) (F.post lowerer.now.low) }
    ensures ok { let b = low lowerer.now.depth in
        OnOk result (terms.new ≡ taken_list
        (λ l r. piece.OneTerm (spec.body b scopes.old l body.now) ∷ r) terms.old) }
    ensures kept { OnOk result (scopes.new ≡ scopes.old) }
{
    let first = terms.take_list()?;
    terms.push(Piece::TermList(first))?;
    match body {
        Body::Statements(statements) => {
            list(lowerer, scopes, terms, statements.as_slice())?;
            terms.seq()
        }
        Body::Concise(tree) => {
            return_value(lowerer, scopes, terms, tree.get())?;
            concise(terms)
        }
    }
}

fn body_inside<F: Fn(usize, &mut Scopes, &mut Stack, Task<'_>) -> Result<(), OutOfMemory>>(
    lowerer: &Lowerer<F>,
    scopes: &mut Scopes,
    terms: &mut Stack,
    frame: Frame,
    level: usize,
    function: &Function,
) -> Result<(), OutOfMemory>
    requires { Nests lowerer.now.depth (F.pre lowerer.now.low) (F.post lowerer.now.low) }
    ensures ok { let b = low lowerer.now.depth in
        let made = (let inner = frame ∷ scopes.old in
        let first = spec.all_parameters b inner level function.now in
        spec.body b inner first (out-Function function.now).body) in
        OnOk result (terms.new ≡ piece.OneTerm made ∷ terms.old) }
    ensures kept { OnOk result (scopes.new ≡ scopes.old) }
{
    scopes.open(frame)?;
    terms.begin()?;
    all_parameters(lowerer, scopes, terms, level, function)?;
    body(lowerer, scopes, terms, &function.body)?;
    scopes.close();
    Ok(())
}

fn shape(alloc: Global, function: &Function) -> Result<(Frame, Items<u32>), OutOfMemory>
    ensures { let first = spec.parameter_frame function.now in
        let list = spec.own_statements function.now in
        IfOk result (λ made. made ≡ (
          spec.body_frame first list,
          spec.undefined_slots first
              list,
        )) }
{
    let first = parameter_frame(alloc, function)?;
    let before = first.len();
    let list = own_statements(function);
    let frame = body_frame(alloc, first, list)?;
    let undefined = undefined_slots(alloc, before, &frame, list)?;
    Ok((frame, undefined))
}

/// How many parameters there are, and how many a caller is expected to give.
fn counts(function: &Function) -> Result<(u32, u32), OutOfMemory>
    ensures { let f = out-Function function.now in
        IfOk result (λ made.
        made ≡ (length f.parameters + spec.rest_count f.rest, spec.expected_arguments f.parameters)) }
{
    let list = function.parameters.as_slice();
    let expected = count(expected_arguments(list)?)?;
    match list.len().checked_add(rest_count(&function.rest)) {
        Some(all) => Ok((count(all)?, expected)),
        None => Err(OutOfMemory),
    }
}

/// The template of a function (ECMA-262, OrdinaryFunctionCreate).
pub fn template_row<F: Fn(usize, &mut Scopes, &mut Stack, Task<'_>) -> Result<(), OutOfMemory>>(
    lowerer: &Lowerer<F>,
    scopes: &mut Scopes,
    terms: &mut Stack,
    kind: TemplateKind,
    own: Option<&Text>,
    function: &Function,
) -> Result<(), OutOfMemory>
    requires { Nests lowerer.now.depth (F.pre lowerer.now.low) (F.post lowerer.now.low) }
    ensures ok { let b = low lowerer.now.depth in
        let made = spec.template_row b scopes.old kind (given own.entry) function.now in
        OnOk result (terms.new ≡ piece.OneTemplate made ∷ terms.old) }
    ensures kept { OnOk result (scopes.new ≡ scopes.old) }
{
    let level = scopes.len();
    let (frame, undefined) = shape(terms.alloc(), function)?;
    let slots = count(frame.len())?;
    let (params, length) = counts(function)?;
    let rest = function.rest.is_some();
    body_inside(lowerer, scopes, terms, frame, level, function)?;
    let name = name_text(terms.alloc(), own)?;
    let body = terms.take_term()?;
    let template = Template {
        kind,
        name,
        length,
        params,
        rest,
        slots,
        undefined,
        body,
    };
    let made = Boxed::new(terms.alloc(), template)?;
    terms.push(Piece::OneTemplate(made))
}

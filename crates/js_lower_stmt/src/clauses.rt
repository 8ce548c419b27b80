// `switch` and `try`.

ghost use Rattle.std.specs.Prelude.{◌≡◌, ◌+◌, ◌-◌, ◌++◌, ◌∷◌, [], map, length, true, false, IfOk, OnOk, Some, None, codes};
ghost use Rattle.std.specs.Option.{option_map};
ghost use Rattle.js_names.specs.Lists.{flat};
ghost use Rattle.js_term.specs.declared.term.Term.TheVariants as term;
ghost use Rattle.js_term.specs.declared.term.Part.TheVariants as part;
ghost use Rattle.js_term.specs.declared.term.TemplateKind.TheVariants as template;
ghost use Rattle.js_term_stack.specs.Stacks.{extended, extended_parts, function_part, on_one, on_list, taken, taken_pending};
ghost use Rattle.js_term_stack.specs.declared.piece.Piece.TheVariants as piece;
ghost use Rattle.js_term_stack.specs.declared.pending.Pending.TheVariants as pending;
ghost use Rattle.js_lower_table.specs.Values as values;
ghost use Rattle.js_lower_table.specs.Entries.{given, origin};
ghost use Rattle.js_lower_table.specs.Entries as entries;
ghost use Rattle.js_lower_table.specs.Nests.{Nests};
ghost use Rattle.js_lower_table.specs.Table.{low};
ghost use Rattle.std.specs.Prelude.{negsuc, pos};
ghost use Rattle.js_term.specs.declared.term.Jump.TheVariants as jump;
ghost use Rattle.js_term_stack.specs.Stacks.{looped};
ghost use Rattle.js_lower_table.specs.Expressions as expressions;
ghost use Rattle.js_lower_table.specs.Statements as spec;

use crate::below::{lower_bind, lower_expr};
use crate::blocks::{block, hoist_all, statements};
use crate::frames::{catch_frame, caught_name, switch_frame};
use js_frames::frame::Frame;
use js_frames::scopes::Scopes;
use js_lower_table::bound_value::BoundValue;
use js_lower_table::lowerer::Lowerer;
use js_lower_table::task::Task;
use js_lower_table::values::{count_term, next_held, scope_of};
use js_lower_table::words::{after, word};
use js_term_stack::stack::Stack;
use js_text::text::Text;
use js_tree::operator::BinaryOperator;
use js_tree::tree::{Catch, Clause, Expr, Pattern, Stmt};
use lava_base::memory::OutOfMemory;
use sqlite_items::{Boxed, Items};

fn is_open(terms: &mut Stack) -> Result<(), OutOfMemory>
    ensures { OnOk result (terms.new ≡ piece.OneTerm spec.is_open ∷ terms.old) }
{
    terms.here(1)?;
    terms.integer(0)?;
    terms.binary(BinaryOperator::Less)
}

fn go_on_at(terms: &mut Stack, at: usize) -> Result<(), OutOfMemory>
    ensures { OnOk result (terms.new ≡ piece.OneTerm (spec.go_on_at at) ∷ terms.old) }
{
    count_term(terms, at)?;
    terms.set_local(0, 1, false)
}

fn default_term(terms: &mut Stack, at: usize) -> Result<(), OutOfMemory>
    ensures { OnOk result (terms.new ≡ piece.OneTerm (spec.default_term at) ∷ terms.old) }
{
    is_open(terms)?;
    go_on_at(terms, at)?;
    terms.none()?;
    terms.choice()
}

fn default_place(mut list: &[Clause]) -> Result<usize, OutOfMemory>
    ensures { IfOk result (λ made. made ≡ spec.default_from 0 list.entry.now) }
{
    let mut at = 0;
    while let [first, rest @ ..] = list {
        if first.test.is_none() {
            return Ok(at);
        }
        at = after(at)?;
        list = rest;
    }
    Ok(at)
}

#[tactic(auto, using(js_term_stack::specs::Stack_laws::extended_none, js_term_stack::specs::Stack_laws::extended_twice))]
fn clauses_hoisted<F: Fn(usize, &mut Scopes, &mut Stack, Task<'_>) -> Result<(), OutOfMemory>>(
    lowerer: &Lowerer<F>,
    scopes: &mut Scopes,
    terms: &mut Stack,
    mut list: &[Clause],
) -> Result<(), OutOfMemory>
    requires { Nests lowerer.now.depth (F.pre lowerer.now.low) (F.post lowerer.now.low) }
    ensures ok { let b = low lowerer.now.depth in
        let made = flat (spec.clause_hoisted b scopes.old) list.entry.now in
        OnOk result (terms.new ≡ extended made terms.old) }
    ensures kept { OnOk result (scopes.new ≡ scopes.old) }
{
    while let [first, rest @ ..] = list {
        hoist_all(lowerer, scopes, terms, first.body.as_slice())?;
        list = rest;
    }
    Ok(())
}

fn case_value<F: Fn(usize, &mut Scopes, &mut Stack, Task<'_>) -> Result<(), OutOfMemory>>(
    lowerer: &Lowerer<F>,
    scopes: &mut Scopes,
    terms: &mut Stack,
    at: usize,
    test: &Expr,
) -> Result<(), OutOfMemory>
    requires { Nests lowerer.now.depth (F.pre lowerer.now.low) (F.post lowerer.now.low) }
    ensures ok { let b = low lowerer.now.depth in
        let made = spec.case_term at (expressions.expr b scopes.old test.now) in
        OnOk result (terms.new ≡ piece.OneTerm made ∷ terms.old) }
    ensures kept { OnOk result (scopes.new ≡ scopes.old) }
{
    is_open(terms)?;
    terms.here(0)?;
    lower_expr(lowerer, scopes, terms, test)?;
    terms.binary(BinaryOperator::StrictlyEqual)?;
    go_on_at(terms, at)?;
    terms.none()?;
    terms.choice()?;
    terms.none()?;
    terms.choice()
}

#[tactic(auto, using(js_term_stack::specs::Stack_laws::extended_none, js_term_stack::specs::Stack_laws::extended_twice))]
fn case_test<F: Fn(usize, &mut Scopes, &mut Stack, Task<'_>) -> Result<(), OutOfMemory>>(
    lowerer: &Lowerer<F>,
    scopes: &mut Scopes,
    terms: &mut Stack,
    at: usize,
    test: &Option<Boxed<Expr>>,
) -> Result<(), OutOfMemory>
    requires { Nests lowerer.now.depth (F.pre lowerer.now.low) (F.post lowerer.now.low) }
    ensures ok { let b = low lowerer.now.depth in
        let made = spec.case_test_as b scopes.old at test.now in
        OnOk result (terms.new ≡ extended made terms.old) }
    ensures kept { OnOk result (scopes.new ≡ scopes.old) }
{
    match test {
        None => Ok(()),
        Some(test) => {
            case_value(lowerer, scopes, terms, at, test.get())?;
            terms.append()
        }
    }
}

#[tactic(auto, using(js_term_stack::specs::Stack_laws::extended_none, js_term_stack::specs::Stack_laws::extended_twice))]
fn case_tests<F: Fn(usize, &mut Scopes, &mut Stack, Task<'_>) -> Result<(), OutOfMemory>>(
    lowerer: &Lowerer<F>,
    scopes: &mut Scopes,
    terms: &mut Stack,
    mut list: &[Clause],
) -> Result<(), OutOfMemory>
    requires { Nests lowerer.now.depth (F.pre lowerer.now.low) (F.post lowerer.now.low) }
    ensures ok { let b = low lowerer.now.depth in
        let made = spec.case_tests b scopes.old 0 list.entry.now in
        OnOk result (terms.new ≡ extended made terms.old) }
    ensures kept { OnOk result (scopes.new ≡ scopes.old) }
{
    let mut at = 0;
    while let [first, rest @ ..] = list {
        case_test(lowerer, scopes, terms, at, &first.test)?;
        at = after(at)?;
        list = rest;
    }
    Ok(())
}

fn clause_body<F: Fn(usize, &mut Scopes, &mut Stack, Task<'_>) -> Result<(), OutOfMemory>>(
    lowerer: &Lowerer<F>,
    scopes: &mut Scopes,
    terms: &mut Stack,
    at: usize,
    list: &[Boxed<Stmt>],
) -> Result<(), OutOfMemory>
    requires { Nests lowerer.now.depth (F.pre lowerer.now.low) (F.post lowerer.now.low) }
    ensures ok { let b = low lowerer.now.depth in
        let made = spec.clause_term at (flat (spec.stmt b scopes.old) list.now) ∷ [] in
        OnOk result (terms.new ≡ extended made terms.old) }
    ensures kept { OnOk result (scopes.new ≡ scopes.old) }
{
    terms.here(1)?;
    count_term(terms, at)?;
    terms.binary(BinaryOperator::LessOrEqual)?;
    terms.begin()?;
    statements(lowerer, scopes, terms, list)?;
    terms.seq()?;
    terms.none()?;
    terms.choice()?;
    terms.append()
}

#[tactic(auto, using(js_term_stack::specs::Stack_laws::extended_none, js_term_stack::specs::Stack_laws::extended_twice))]
fn clause_bodies<F: Fn(usize, &mut Scopes, &mut Stack, Task<'_>) -> Result<(), OutOfMemory>>(
    lowerer: &Lowerer<F>,
    scopes: &mut Scopes,
    terms: &mut Stack,
    mut list: &[Clause],
) -> Result<(), OutOfMemory>
    requires { Nests lowerer.now.depth (F.pre lowerer.now.low) (F.post lowerer.now.low) }
    ensures ok { let b = low lowerer.now.depth in
        let made = spec.clause_bodies b scopes.old 0 list.entry.now in
        OnOk result (terms.new ≡ extended made terms.old) }
    ensures kept { OnOk result (scopes.new ≡ scopes.old) }
{
    let mut at = 0;
    while let [first, rest @ ..] = list {
        clause_body(lowerer, scopes, terms, at, first.body.as_slice())?;
        at = after(at)?;
        list = rest;
    }
    Ok(())
}

#[tactic(auto, using(js_term_stack::specs::Stack_laws::extended_none, js_term_stack::specs::Stack_laws::extended_twice))]
fn default_and_bodies<F: Fn(usize, &mut Scopes, &mut Stack, Task<'_>) -> Result<(), OutOfMemory>>(
    lowerer: &Lowerer<F>,
    scopes: &mut Scopes,
    terms: &mut Stack,
    list: &[Clause],
) -> Result<(), OutOfMemory>
    requires { Nests lowerer.now.depth (F.pre lowerer.now.low) (F.post lowerer.now.low) }
    ensures ok { let b = low lowerer.now.depth in
        let made = spec.default_term (spec.default_from 0 list.now) ∷
        spec.clause_bodies b scopes.old 0 list.now in
        OnOk result (terms.new ≡ extended made terms.old) }
    ensures kept { OnOk result (scopes.new ≡ scopes.old) }
{
    let at = default_place(list)?;
    default_term(terms, at)?;
    terms.append()?;
    clause_bodies(lowerer, scopes, terms, list)
}

#[tactic(auto, using(js_term_stack::specs::Stack_laws::extended_none, js_term_stack::specs::Stack_laws::extended_twice))]
fn tests_and_bodies<F: Fn(usize, &mut Scopes, &mut Stack, Task<'_>) -> Result<(), OutOfMemory>>(
    lowerer: &Lowerer<F>,
    scopes: &mut Scopes,
    terms: &mut Stack,
    list: &[Clause],
) -> Result<(), OutOfMemory>
    requires { Nests lowerer.now.depth (F.pre lowerer.now.low) (F.post lowerer.now.low) }
    ensures ok { let b = low lowerer.now.depth in
        let made = spec.case_tests b scopes.old 0 list.now ++
        (spec.default_term (spec.default_from 0 list.now) ∷
        spec.clause_bodies b scopes.old 0 list.now) in
        OnOk result (terms.new ≡ extended made terms.old) }
    ensures kept { OnOk result (scopes.new ≡ scopes.old) }
{
    case_tests(lowerer, scopes, terms, list)?;
    default_and_bodies(lowerer, scopes, terms, list)
}

#[tactic(auto, using(js_term_stack::specs::Stack_laws::extended_none, js_term_stack::specs::Stack_laws::extended_twice))]
fn switch_clauses<F: Fn(usize, &mut Scopes, &mut Stack, Task<'_>) -> Result<(), OutOfMemory>>(
    lowerer: &Lowerer<F>,
    scopes: &mut Scopes,
    terms: &mut Stack,
    list: &[Clause],
) -> Result<(), OutOfMemory>
    requires { Nests lowerer.now.depth (F.pre lowerer.now.low) (F.post lowerer.now.low) }
    ensures ok { let b = low lowerer.now.depth in
        let made = spec.switch_clauses b scopes.old list.now in
        OnOk result (terms.new ≡ extended made terms.old) }
    ensures kept { OnOk result (scopes.new ≡ scopes.old) }
{
    clauses_hoisted(lowerer, scopes, terms, list)?;
    tests_and_bodies(lowerer, scopes, terms, list)
}

fn switch_start<F: Fn(usize, &mut Scopes, &mut Stack, Task<'_>) -> Result<(), OutOfMemory>>(
    lowerer: &Lowerer<F>,
    scopes: &mut Scopes,
    terms: &mut Stack,
    tree: &Expr,
) -> Result<(), OutOfMemory>
    requires { Nests lowerer.now.depth (F.pre lowerer.now.low) (F.post lowerer.now.low) }
    ensures ok { let b = low lowerer.now.depth in
        let made = values.init_here 0 (expressions.expr b ([] ∷ scopes.old) tree.now) ∷
        values.init_here 1 (values.integer (negsuc 0)) ∷ [] in
        OnOk result (terms.new ≡ piece.TermList made ∷ terms.old) }
    ensures kept { OnOk result (scopes.new ≡ scopes.old) }
{
    scopes.open(Frame::new(terms.alloc()))?;
    lower_expr(lowerer, scopes, terms, tree)?;
    scopes.close();
    terms.init_here(0)?;
    terms.integer(-1)?;
    terms.init_here(1)?;
    terms.list_two()
}

fn switch_list<F: Fn(usize, &mut Scopes, &mut Stack, Task<'_>) -> Result<(), OutOfMemory>>(
    lowerer: &Lowerer<F>,
    scopes: &mut Scopes,
    terms: &mut Stack,
    frame: Frame,
    tree: &Expr,
    list: &[Clause],
) -> Result<(), OutOfMemory>
    requires { Nests lowerer.now.depth (F.pre lowerer.now.low) (F.post lowerer.now.low) }
    ensures ok { let b = low lowerer.now.depth in
        let made = (values.init_here 0 (expressions.expr b ([] ∷ scopes.old) tree.now) ∷
        values.init_here 1 (values.integer (negsuc 0)) ∷ []) ++
        spec.switch_clauses b (frame ∷ scopes.old) list.now in
        OnOk result (terms.new ≡ piece.TermList made ∷ terms.old) }
    ensures kept { OnOk result (scopes.new ≡ scopes.old) }
{
    switch_start(lowerer, scopes, terms, tree)?;
    scopes.open(frame)?;
    switch_clauses(lowerer, scopes, terms, list)?;
    scopes.close();
    Ok(())
}

/// ECMA-262, SwitchStatement.
pub fn switch<F: Fn(usize, &mut Scopes, &mut Stack, Task<'_>) -> Result<(), OutOfMemory>>(
    lowerer: &Lowerer<F>,
    scopes: &mut Scopes,
    terms: &mut Stack,
    tree: &Expr,
    list: &[Clause],
) -> Result<(), OutOfMemory>
    requires { Nests lowerer.now.depth (F.pre lowerer.now.low) (F.post lowerer.now.low) }
    ensures ok { let b = low lowerer.now.depth in
        let made = spec.switch b scopes.old tree.now list.now in
        OnOk result (terms.new ≡ piece.OneTerm made ∷ terms.old) }
    ensures kept { OnOk result (scopes.new ≡ scopes.old) }
{
    let frame = switch_frame(terms.alloc(), list)?;
    let slots = frame.len();
    switch_list(lowerer, scopes, terms, frame, tree, list)?;
    scope_of(terms, slots)?;
    let label = word(terms.alloc(), b"")?;
    terms.label(&label)
}

fn block_inside<F: Fn(usize, &mut Scopes, &mut Stack, Task<'_>) -> Result<(), OutOfMemory>>(
    lowerer: &Lowerer<F>,
    scopes: &mut Scopes,
    terms: &mut Stack,
    frame: Frame,
    list: &[Boxed<Stmt>],
) -> Result<(), OutOfMemory>
    requires { Nests lowerer.now.depth (F.pre lowerer.now.low) (F.post lowerer.now.low) }
    ensures ok { let b = low lowerer.now.depth in
        let made = spec.block b (frame ∷ scopes.old) list.now in
        OnOk result (terms.new ≡ piece.OneTerm made ∷ terms.old) }
    ensures kept { OnOk result (scopes.new ≡ scopes.old) }
{
    scopes.open(frame)?;
    block(lowerer, scopes, terms, list)?;
    scopes.close();
    Ok(())
}

fn caught_inside<F: Fn(usize, &mut Scopes, &mut Stack, Task<'_>) -> Result<(), OutOfMemory>>(
    lowerer: &Lowerer<F>,
    scopes: &mut Scopes,
    terms: &mut Stack,
    frame: Frame,
    pattern: &Pattern,
    list: &[Boxed<Stmt>],
) -> Result<(), OutOfMemory>
    requires { Nests lowerer.now.depth (F.pre lowerer.now.low) (F.post lowerer.now.low) }
    ensures ok { let b = low lowerer.now.depth in
        OnOk result (terms.new ≡ (let inner = frame ∷ [] ∷ scopes.old in
        let origin = entries.InSlot (values.next_held scopes.old 0) in
        piece.OneTerm (spec.block b inner list.now) ∷
        piece.OneTerm (b.bind inner false origin pattern.now) ∷ terms.old)) }
    ensures kept { OnOk result (scopes.new ≡ scopes.old) }
{
    let held = next_held(scopes, 0);
    scopes.open(Frame::new(terms.alloc()))?;
    scopes.open(frame)?;
    lower_bind(
        lowerer,
        scopes,
        terms,
        false,
        BoundValue::InSlot(held),
        pattern,
    )?;
    block(lowerer, scopes, terms, list)?;
    scopes.close();
    scopes.close();
    Ok(())
}

fn catch_pattern<F: Fn(usize, &mut Scopes, &mut Stack, Task<'_>) -> Result<(), OutOfMemory>>(
    lowerer: &Lowerer<F>,
    scopes: &mut Scopes,
    terms: &mut Stack,
    pattern: &Pattern,
    list: &[Boxed<Stmt>],
) -> Result<(), OutOfMemory>
    requires { Nests lowerer.now.depth (F.pre lowerer.now.low) (F.post lowerer.now.low) }
    ensures ok { let b = low lowerer.now.depth in
        let made = spec.catch_pattern b scopes.old pattern.now list.now in
        OnOk result (terms.new ≡ piece.OneTerm made ∷ terms.old) }
    ensures kept { OnOk result (scopes.new ≡ scopes.old) }
{
    let frame = catch_frame(terms.alloc(), pattern)?;
    let slots = frame.len();
    caught_inside(lowerer, scopes, terms, frame, pattern, list)?;
    terms.list_two()?;
    scope_of(terms, slots)
}

fn catch_parameter<F: Fn(usize, &mut Scopes, &mut Stack, Task<'_>) -> Result<(), OutOfMemory>>(
    lowerer: &Lowerer<F>,
    scopes: &mut Scopes,
    terms: &mut Stack,
    pattern: &Pattern,
    list: &[Boxed<Stmt>],
) -> Result<(), OutOfMemory>
    requires { Nests lowerer.now.depth (F.pre lowerer.now.low) (F.post lowerer.now.low) }
    ensures ok { let b = low lowerer.now.depth in
        let made = spec.catch_as b scopes.old (Some pattern.now) list.now in
        OnOk result (terms.new ≡ piece.OneTerm made ∷ terms.old) }
    ensures kept { OnOk result (scopes.new ≡ scopes.old) }
{
    match pattern {
        Pattern::Bound(identifier) => {
            let frame = caught_name(terms.alloc(), &identifier.name)?;
            block_inside(lowerer, scopes, terms, frame, list)
        }
        _ => catch_pattern(lowerer, scopes, terms, pattern, list),
    }
}

fn catch<F: Fn(usize, &mut Scopes, &mut Stack, Task<'_>) -> Result<(), OutOfMemory>>(
    lowerer: &Lowerer<F>,
    scopes: &mut Scopes,
    terms: &mut Stack,
    catch: &Catch,
) -> Result<(), OutOfMemory>
    requires { Nests lowerer.now.depth (F.pre lowerer.now.low) (F.post lowerer.now.low) }
    ensures ok { let b = low lowerer.now.depth in
        let made = spec.catch b scopes.old catch.now in
        OnOk result (terms.new ≡ piece.OneTerm made ∷ terms.old) }
    ensures kept { OnOk result (scopes.new ≡ scopes.old) }
{
    let list = catch.body.as_slice();
    match &catch.parameter {
        None => {
            let frame = Frame::new(terms.alloc());
            block_inside(lowerer, scopes, terms, frame, list)
        }
        Some(pattern) => catch_parameter(lowerer, scopes, terms, pattern.get(), list),
    }
}

fn maybe_catch<F: Fn(usize, &mut Scopes, &mut Stack, Task<'_>) -> Result<(), OutOfMemory>>(
    lowerer: &Lowerer<F>,
    scopes: &mut Scopes,
    terms: &mut Stack,
    handler: &Option<Boxed<Catch>>,
) -> Result<(), OutOfMemory>
    requires { Nests lowerer.now.depth (F.pre lowerer.now.low) (F.post lowerer.now.low) }
    ensures ok { let b = low lowerer.now.depth in
        let made = option_map (spec.catch b scopes.old) handler.now in
        OnOk result (terms.new ≡ piece.MaybeTerm made ∷ terms.old) }
    ensures kept { OnOk result (scopes.new ≡ scopes.old) }
{
    match handler {
        None => terms.none(),
        Some(handler) => {
            catch(lowerer, scopes, terms, handler.get())?;
            terms.some()
        }
    }
}

fn maybe_block<F: Fn(usize, &mut Scopes, &mut Stack, Task<'_>) -> Result<(), OutOfMemory>>(
    lowerer: &Lowerer<F>,
    scopes: &mut Scopes,
    terms: &mut Stack,
    list: &Option<Items<Boxed<Stmt>>>,
) -> Result<(), OutOfMemory>
    requires { Nests lowerer.now.depth (F.pre lowerer.now.low) (F.post lowerer.now.low) }
    ensures ok { let b = low lowerer.now.depth in
        let made = option_map (spec.block b scopes.old) list.now in
        OnOk result (terms.new ≡ piece.MaybeTerm made ∷ terms.old) }
    ensures kept { OnOk result (scopes.new ≡ scopes.old) }
{
    match list {
        None => terms.none(),
        Some(list) => {
            block(lowerer, scopes, terms, list.as_slice())?;
            terms.some()
        }
    }
}

/// ECMA-262, TryStatement.
pub fn try_statement<F: Fn(usize, &mut Scopes, &mut Stack, Task<'_>) -> Result<(), OutOfMemory>>(
    lowerer: &Lowerer<F>,
    scopes: &mut Scopes,
    terms: &mut Stack,
    list: &[Boxed<Stmt>],
    handler: &Option<Boxed<Catch>>,
    finalizer: &Option<Items<Boxed<Stmt>>>,
) -> Result<(), OutOfMemory>
    requires { Nests lowerer.now.depth (F.pre lowerer.now.low) (F.post lowerer.now.low) }
    ensures ok { let b = low lowerer.now.depth in
        let made = spec.try_term b scopes.old list.now handler.now finalizer.now in
        OnOk result (terms.new ≡ piece.OneTerm made ∷ terms.old) }
    ensures kept { OnOk result (scopes.new ≡ scopes.old) }
{
    block(lowerer, scopes, terms, list)?;
    maybe_catch(lowerer, scopes, terms, handler)?;
    maybe_block(lowerer, scopes, terms, finalizer)?;
    terms.try_term()
}

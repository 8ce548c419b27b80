// Loops.

ghost use Rattle.std.specs.Prelude.{◌≡◌, ◌+◌, ◌-◌, ◌++◌, ◌∷◌, [], map, length, true, false, IfOk, OnOk, Some, None, codes};
ghost use Rattle.std.specs.Option.{option_map};
ghost use Rattle.js_names.specs.Lists.{flat};
ghost use Rattle.js_term.specs.declared.term.Term.TheVariants as term;
ghost use Rattle.js_term.specs.declared.term.Part.TheVariants as part;
ghost use Rattle.js_term.specs.declared.term.TemplateKind.TheVariants as template;
ghost use Rattle.js_term_stack.specs.Stacks.{extended, extended_parts, function_part, on_one, on_list, taken, taken_pending};
ghost use Rattle.js_term_stack.specs.declared.piece.Piece.TheVariants as piece;
ghost use Rattle.js_term_stack.specs.declared.pending.Pending.TheVariants as pending;
ghost use Rattle.js_lower_table.specs.Values as values;
ghost use Rattle.js_lower_table.specs.Entries.{given, origin};
ghost use Rattle.js_lower_table.specs.Entries as entries;
ghost use Rattle.js_lower_table.specs.Nests.{Nests};
ghost use Rattle.js_lower_table.specs.Table.{low};
ghost use Rattle.std.specs.Prelude.{negsuc, pos};
ghost use Rattle.js_term.specs.declared.term.Jump.TheVariants as jump;
ghost use Rattle.js_term_stack.specs.Stacks.{looped};
ghost use Rattle.js_lower_table.specs.Expressions as expressions;
ghost use Rattle.js_lower_table.specs.Statements as spec;
ghost use Rattle.js_tree.specs.declared.operator.BinaryOperator.TheVariants as op;
ghost use Rattle.js_lower_stmt.specs.Rows as rows;

use crate::below::{lower_bind, lower_expr};
use crate::blocks::{declaration, one};
use crate::frames::{for_frame, is_var, target_assigned, target_frame, target_pattern};
use js_frames::frame::Frame;
use js_frames::scopes::Scopes;
use js_lower_patterns::js_lower_calls::functions::maybe_expr;
use js_lower_patterns::patterns::opened;
use js_lower_table::bound_value::BoundValue;
use js_lower_table::commons::{FOR_IN, OPEN};
use js_lower_table::held::Held;
use js_lower_table::lowerer::Lowerer;
use js_lower_table::task::Task;
use js_lower_table::values::{call_common_on, call_name, guard, next_held, scope_of, word_term};
use js_lower_table::words::{after, word};
use js_term_stack::stack::Stack;
use js_text::text::Text;
use js_tree::operator::BinaryOperator;
use js_tree::tree::{Declaration, Expr, ForInit, ForTarget, Stmt};
use lava_base::memory::OutOfMemory;
use sqlite_items::{Boxed, Items};
use std::alloc::Global;

fn loop_labels(alloc: Global, mut labels: &[Text]) -> Result<Items<Text>, OutOfMemory>
    ensures { IfOk result (λ made. made ≡ [] ∷ labels.entry.now) }
{
    let mut done = Items::new(alloc);
    done.push(word(alloc, b"")?)?;
    while let [first, rest @ ..] = labels {
        done.push(first.copy()?)?;
        labels = rest;
    }
    Ok(done)
}

fn loop_term(terms: &mut Stack, labels: &[Text], tests_first: bool) -> Result<(), OutOfMemory>
    ensures { OnOk result (terms.new ≡ looped
        (λ t u body. term.Loop ([] ∷ labels.now) tests_first t u body) terms.old) }
{
    let labels = loop_labels(terms.alloc(), labels)?;
    terms.loop_term(labels, tests_first)
}

fn test_term<F: Fn(usize, &mut Scopes, &mut Stack, Task<'_>) -> Result<(), OutOfMemory>>(
    lowerer: &Lowerer<F>,
    scopes: &mut Scopes,
    terms: &mut Stack,
    tree: &Option<Boxed<Expr>>,
) -> Result<(), OutOfMemory>
    requires { Nests lowerer.now.depth (F.pre lowerer.now.low) (F.post lowerer.now.low) }
    ensures ok { let b = low lowerer.now.depth in
        let made = spec.test_term b scopes.old tree.now in
        OnOk result (terms.new ≡ piece.OneTerm made ∷ terms.old) }
    ensures kept { OnOk result (scopes.new ≡ scopes.old) }
{
    match tree {
        None => terms.truth(true),
        Some(tree) => lower_expr(lowerer, scopes, terms, tree.get()),
    }
}

fn update_terms<F: Fn(usize, &mut Scopes, &mut Stack, Task<'_>) -> Result<(), OutOfMemory>>(
    lowerer: &Lowerer<F>,
    scopes: &mut Scopes,
    terms: &mut Stack,
    tree: &Option<Boxed<Expr>>,
) -> Result<(), OutOfMemory>
    requires { Nests lowerer.now.depth (F.pre lowerer.now.low) (F.post lowerer.now.low) }
    ensures ok { let b = low lowerer.now.depth in
        OnOk result (terms.new ≡ extended (spec.update_list b scopes.old tree.now)
        (piece.TermList [] ∷ terms.old)) }
    ensures kept { OnOk result (scopes.new ≡ scopes.old) }
{
    terms.begin()?;
    terms.fresh()?;
    terms.append()?;
    match tree {
        None => Ok(()),
        Some(tree) => {
            lower_expr(lowerer, scopes, terms, tree.get())?;
            terms.append()
        }
    }
}

fn fresh_update<F: Fn(usize, &mut Scopes, &mut Stack, Task<'_>) -> Result<(), OutOfMemory>>(
    lowerer: &Lowerer<F>,
    scopes: &mut Scopes,
    terms: &mut Stack,
    tree: &Option<Boxed<Expr>>,
) -> Result<(), OutOfMemory>
    requires { Nests lowerer.now.depth (F.pre lowerer.now.low) (F.post lowerer.now.low) }
    ensures ok { let b = low lowerer.now.depth in
        let made = Some (term.Seq (spec.update_list b scopes.old tree.now)) in
        OnOk result (terms.new ≡ piece.MaybeTerm made ∷ terms.old) }
    ensures kept { OnOk result (scopes.new ≡ scopes.old) }
{
    update_terms(lowerer, scopes, terms, tree)?;
    terms.seq()?;
    terms.some()
}

#[tactic(auto, using(js_term_stack::specs::Stack_laws::extended_none, js_term_stack::specs::Stack_laws::extended_twice))]
fn fresh_loop<F: Fn(usize, &mut Scopes, &mut Stack, Task<'_>) -> Result<(), OutOfMemory>>(
    lowerer: &Lowerer<F>,
    scopes: &mut Scopes,
    terms: &mut Stack,
    labels: &[Text],
    test: &Option<Boxed<Expr>>,
    update: &Option<Boxed<Expr>>,
    body: &Stmt,
) -> Result<(), OutOfMemory>
    requires { Nests lowerer.now.depth (F.pre lowerer.now.low) (F.post lowerer.now.low) }
    ensures ok { let b = low lowerer.now.depth in
        let made = term.Fresh ∷ spec.fresh_loop b scopes.old labels.now
        test.now update.now body.now ∷ [] in
        OnOk result (terms.new ≡ extended made terms.old) }
    ensures kept { OnOk result (scopes.new ≡ scopes.old) }
{
    terms.fresh()?;
    terms.append()?;
    test_term(lowerer, scopes, terms, test)?;
    fresh_update(lowerer, scopes, terms, update)?;
    one(lowerer, scopes, terms, body)?;
    loop_term(terms, labels, true)?;
    terms.append()
}

fn lexical_inside<F: Fn(usize, &mut Scopes, &mut Stack, Task<'_>) -> Result<(), OutOfMemory>>(
    lowerer: &Lowerer<F>,
    scopes: &mut Scopes,
    terms: &mut Stack,
    frame: Frame,
    labels: &[Text],
    inits: &Declaration,
    test: &Option<Boxed<Expr>>,
    update: &Option<Boxed<Expr>>,
    body: &Stmt,
) -> Result<(), OutOfMemory>
    requires { Nests lowerer.now.depth (F.pre lowerer.now.low) (F.post lowerer.now.low) }
    ensures ok { let b = low lowerer.now.depth in
        let made = (let inner = frame ∷ scopes.old in
        spec.declaration b inner inits.now ++ (term.Fresh ∷ spec.fresh_loop b inner
        labels.now test.now update.now body.now ∷ [])) in
        OnOk result (terms.new ≡ piece.TermList made ∷ terms.old) }
    ensures kept { OnOk result (scopes.new ≡ scopes.old) }
{
    terms.begin()?;
    scopes.open(frame)?;
    declaration(lowerer, scopes, terms, inits)?;
    fresh_loop(lowerer, scopes, terms, labels, test, update, body)?;
    scopes.close();
    Ok(())
}

fn for_lexical<F: Fn(usize, &mut Scopes, &mut Stack, Task<'_>) -> Result<(), OutOfMemory>>(
    lowerer: &Lowerer<F>,
    scopes: &mut Scopes,
    terms: &mut Stack,
    labels: &[Text],
    inits: &Declaration,
    test: &Option<Boxed<Expr>>,
    update: &Option<Boxed<Expr>>,
    body: &Stmt,
) -> Result<(), OutOfMemory>
    requires { Nests lowerer.now.depth (F.pre lowerer.now.low) (F.post lowerer.now.low) }
    ensures ok { let b = low lowerer.now.depth in
        let made = spec.for_lexical b scopes.old labels.now inits.now
        test.now update.now body.now in
        OnOk result (terms.new ≡ piece.OneTerm made ∷ terms.old) }
    ensures kept { OnOk result (scopes.new ≡ scopes.old) }
{
    let frame = for_frame(terms.alloc(), inits)?;
    let slots = frame.len();
    lexical_inside(
        lowerer, scopes, terms, frame, labels, inits, test, update, body,
    )?;
    scope_of(terms, slots)
}

fn plain_loop<F: Fn(usize, &mut Scopes, &mut Stack, Task<'_>) -> Result<(), OutOfMemory>>(
    lowerer: &Lowerer<F>,
    scopes: &mut Scopes,
    terms: &mut Stack,
    labels: &[Text],
    test: &Option<Boxed<Expr>>,
    update: &Option<Boxed<Expr>>,
    body: &Stmt,
) -> Result<(), OutOfMemory>
    requires { Nests lowerer.now.depth (F.pre lowerer.now.low) (F.post lowerer.now.low) }
    ensures ok { let b = low lowerer.now.depth in
        let made = spec.plain_loop b scopes.old labels.now
        test.now update.now body.now ∷ [] in
        OnOk result (terms.new ≡ extended made terms.old) }
    ensures kept { OnOk result (scopes.new ≡ scopes.old) }
{
    test_term(lowerer, scopes, terms, test)?;
    maybe_expr(lowerer, scopes, terms, update)?;
    one(lowerer, scopes, terms, body)?;
    loop_term(terms, labels, true)?;
    terms.append()
}

fn for_declared<F: Fn(usize, &mut Scopes, &mut Stack, Task<'_>) -> Result<(), OutOfMemory>>(
    lowerer: &Lowerer<F>,
    scopes: &mut Scopes,
    terms: &mut Stack,
    labels: &[Text],
    inits: &Declaration,
    test: &Option<Boxed<Expr>>,
    update: &Option<Boxed<Expr>>,
    body: &Stmt,
) -> Result<(), OutOfMemory>
    requires { Nests lowerer.now.depth (F.pre lowerer.now.low) (F.post lowerer.now.low) }
    ensures ok { let b = low lowerer.now.depth in
        let made = spec.for_declared b scopes.old labels.now inits.now
        test.now update.now body.now in
        OnOk result (terms.new ≡ piece.OneTerm made ∷ terms.old) }
    ensures kept { OnOk result (scopes.new ≡ scopes.old) }
{
    if is_var(inits.kind) {
        terms.begin()?;
        declaration(lowerer, scopes, terms, inits)?;
        plain_loop(lowerer, scopes, terms, labels, test, update, body)?;
        return terms.seq();
    }
    for_lexical(lowerer, scopes, terms, labels, inits, test, update, body)
}

fn for_expression<F: Fn(usize, &mut Scopes, &mut Stack, Task<'_>) -> Result<(), OutOfMemory>>(
    lowerer: &Lowerer<F>,
    scopes: &mut Scopes,
    terms: &mut Stack,
    labels: &[Text],
    init: &Expr,
    test: &Option<Boxed<Expr>>,
    update: &Option<Boxed<Expr>>,
    body: &Stmt,
) -> Result<(), OutOfMemory>
    requires { Nests lowerer.now.depth (F.pre lowerer.now.low) (F.post lowerer.now.low) }
    ensures ok { let b = low lowerer.now.depth in
        let made = spec.for_plain b scopes.old labels.now
        (expressions.expr b scopes.old init.now ∷ []) test.now update.now body.now in
        OnOk result (terms.new ≡ piece.OneTerm made ∷ terms.old) }
    ensures kept { OnOk result (scopes.new ≡ scopes.old) }
{
    terms.begin()?;
    lower_expr(lowerer, scopes, terms, init)?;
    terms.append()?;
    plain_loop(lowerer, scopes, terms, labels, test, update, body)?;
    terms.seq()
}

fn for_bare<F: Fn(usize, &mut Scopes, &mut Stack, Task<'_>) -> Result<(), OutOfMemory>>(
    lowerer: &Lowerer<F>,
    scopes: &mut Scopes,
    terms: &mut Stack,
    labels: &[Text],
    test: &Option<Boxed<Expr>>,
    update: &Option<Boxed<Expr>>,
    body: &Stmt,
) -> Result<(), OutOfMemory>
    requires { Nests lowerer.now.depth (F.pre lowerer.now.low) (F.post lowerer.now.low) }
    ensures ok { let b = low lowerer.now.depth in
        let made = spec.for_plain b scopes.old labels.now []
        test.now update.now body.now in
        OnOk result (terms.new ≡ piece.OneTerm made ∷ terms.old) }
    ensures kept { OnOk result (scopes.new ≡ scopes.old) }
{
    terms.begin()?;
    plain_loop(lowerer, scopes, terms, labels, test, update, body)?;
    terms.seq()
}

/// ECMA-262, ForStatement.
pub fn for_term<F: Fn(usize, &mut Scopes, &mut Stack, Task<'_>) -> Result<(), OutOfMemory>>(
    lowerer: &Lowerer<F>,
    scopes: &mut Scopes,
    terms: &mut Stack,
    labels: &[Text],
    init: &ForInit,
    test: &Option<Boxed<Expr>>,
    update: &Option<Boxed<Expr>>,
    body: &Stmt,
) -> Result<(), OutOfMemory>
    requires { Nests lowerer.now.depth (F.pre lowerer.now.low) (F.post lowerer.now.low) }
    ensures ok { let b = low lowerer.now.depth in
        let made = spec.for_term b scopes.old labels.now init.now
        test.now update.now body.now in
        OnOk result (terms.new ≡ piece.OneTerm made ∷ terms.old) }
    ensures kept { OnOk result (scopes.new ≡ scopes.old) }
{
    match init {
        ForInit::NoInit => for_bare(lowerer, scopes, terms, labels, test, update, body),
        ForInit::InitDeclaration(inits) => {
            for_declared(lowerer, scopes, terms, labels, inits, test, update, body)
        }
        ForInit::InitExpression(init) => {
            for_expression(
                lowerer,
                scopes,
                terms,
                labels,
                init.get(),
                test,
                update,
                body,
            )
        }
    }
}

fn turn_inside<F: Fn(usize, &mut Scopes, &mut Stack, Task<'_>) -> Result<(), OutOfMemory>>(
    lowerer: &Lowerer<F>,
    scopes: &mut Scopes,
    terms: &mut Stack,
    frame: Frame,
    iterator: Held,
    target: &ForTarget,
    body: &Stmt,
) -> Result<(), OutOfMemory>
    requires { Nests lowerer.now.depth (F.pre lowerer.now.low) (F.post lowerer.now.low) }
    ensures ok { let b = low lowerer.now.depth in
        OnOk result (terms.new ≡ (let inner = frame ∷ scopes.old in
        let assigned = spec.target_assigned target.now in
        let pattern = spec.target_pattern target.now in
        piece.OneTerm (spec.one b inner body.now) ∷ piece.OneTerm
        (b.bind inner assigned (entries.Current iterator) pattern) ∷ terms.old)) }
    ensures kept { OnOk result (scopes.new ≡ scopes.old) }
{
    let assigned = target_assigned(target);
    let pattern = target_pattern(target);
    scopes.open(frame)?;
    lower_bind(
        lowerer,
        scopes,
        terms,
        assigned,
        BoundValue::Current(iterator),
        pattern,
    )?;
    one(lowerer, scopes, terms, body)?;
    scopes.close();
    Ok(())
}

fn turn<F: Fn(usize, &mut Scopes, &mut Stack, Task<'_>) -> Result<(), OutOfMemory>>(
    lowerer: &Lowerer<F>,
    scopes: &mut Scopes,
    terms: &mut Stack,
    iterator: Held,
    target: &ForTarget,
    body: &Stmt,
) -> Result<(), OutOfMemory>
    requires { Nests lowerer.now.depth (F.pre lowerer.now.low) (F.post lowerer.now.low) }
    ensures ok { let b = low lowerer.now.depth in
        let made = spec.turn b scopes.old iterator target.now body.now in
        OnOk result (terms.new ≡ piece.OneTerm made ∷ terms.old) }
    ensures kept { OnOk result (scopes.new ≡ scopes.old) }
{
    let frame = target_frame(terms.alloc(), target)?;
    let slots = frame.len();
    turn_inside(lowerer, scopes, terms, frame, iterator, target, body)?;
    terms.list_two()?;
    scope_of(terms, slots)
}

fn more(terms: &mut Stack) -> Result<(), OutOfMemory>
    ensures { OnOk result (terms.new ≡ piece.MaybeTerm None ∷ piece.OneTerm spec.more ∷ terms.old) }
{
    terms.here(0)?;
    call_name(terms, b"more")?;
    terms.none()
}

/// ECMA-262, ForInOfStatement with `of`.
pub fn for_of<F: Fn(usize, &mut Scopes, &mut Stack, Task<'_>) -> Result<(), OutOfMemory>>(
    lowerer: &Lowerer<F>,
    scopes: &mut Scopes,
    terms: &mut Stack,
    labels: &[Text],
    target: &ForTarget,
    iterated: &Expr,
    body: &Stmt,
) -> Result<(), OutOfMemory>
    requires { Nests lowerer.now.depth (F.pre lowerer.now.low) (F.post lowerer.now.low) }
    ensures ok { let b = low lowerer.now.depth in
        let made = spec.for_of b scopes.old labels.now target.now
        iterated.now body.now in
        OnOk result (terms.new ≡ piece.OneTerm made ∷ terms.old) }
    ensures kept { OnOk result (scopes.new ≡ scopes.old) }
{
    let iterator = next_held(scopes, 0);
    scopes.open(Frame::new(terms.alloc()))?;
    lower_expr(lowerer, scopes, terms, iterated)?;
    opened(terms)?;
    more(terms)?;
    turn(lowerer, scopes, terms, iterator, target, body)?;
    scopes.close();
    loop_term(terms, labels, true)?;
    guard(terms, after(scopes.len())?, iterator)?;
    terms.list_two()?;
    terms.scope(1)
}

fn is_there(terms: &mut Stack) -> Result<(), OutOfMemory>
    ensures { OnOk result (terms.new ≡ piece.OneTerm (term.Binary op.In
        (term.Get (values.here 0) (values.text (codes "value"))) (values.here 1)) ∷ terms.old) }
{
    terms.here(0)?;
    word_term(terms, b"value")?;
    terms.get()?;
    terms.here(1)?;
    terms.binary(BinaryOperator::In)
}

fn open_keys(terms: &mut Stack) -> Result<(), OutOfMemory>
    ensures { OnOk result (terms.new ≡ piece.OneTerm rows.open_keys ∷ terms.old) }
{
    terms.here(1)?;
    call_common_on(terms, FOR_IN)?;
    call_common_on(terms, OPEN)
}

/// ECMA-262, ForInOfStatement with `in`.
pub fn for_in<F: Fn(usize, &mut Scopes, &mut Stack, Task<'_>) -> Result<(), OutOfMemory>>(
    lowerer: &Lowerer<F>,
    scopes: &mut Scopes,
    terms: &mut Stack,
    labels: &[Text],
    target: &ForTarget,
    object: &Expr,
    body: &Stmt,
) -> Result<(), OutOfMemory>
    requires { Nests lowerer.now.depth (F.pre lowerer.now.low) (F.post lowerer.now.low) }
    ensures ok { let b = low lowerer.now.depth in
        let made = spec.for_in b scopes.old labels.now target.now
        object.now body.now in
        OnOk result (terms.new ≡ piece.OneTerm made ∷ terms.old) }
    ensures kept { OnOk result (scopes.new ≡ scopes.old) }
{
    let iterator = next_held(scopes, 0);
    scopes.open(Frame::new(terms.alloc()))?;
    lower_expr(lowerer, scopes, terms, object)?;
    terms.init_here(1)?;
    open_keys(terms)?;
    terms.init_here(0)?;
    more(terms)?;
    is_there(terms)?;
    turn(lowerer, scopes, terms, iterator, target, body)?;
    scopes.close();
    terms.none()?;
    terms.choice()?;
    loop_term(terms, labels, true)?;
    guard(terms, after(scopes.len())?, iterator)?;
    terms.list_three()?;
    terms.scope(2)
}

/// `while` and `do`.
pub fn while_loop<F: Fn(usize, &mut Scopes, &mut Stack, Task<'_>) -> Result<(), OutOfMemory>>(
    lowerer: &Lowerer<F>,
    scopes: &mut Scopes,
    terms: &mut Stack,
    labels: &[Text],
    tests_first: bool,
    test: &Expr,
    body: &Stmt,
) -> Result<(), OutOfMemory>
    requires { Nests lowerer.now.depth (F.pre lowerer.now.low) (F.post lowerer.now.low) }
    ensures ok { let b = low lowerer.now.depth in
        let made = term.Loop ([] ∷ labels.now) tests_first
        (expressions.expr b scopes.old test.now) None (spec.one b scopes.old body.now) in
        OnOk result (terms.new ≡ piece.OneTerm made ∷ terms.old) }
    ensures kept { OnOk result (scopes.new ≡ scopes.old) }
{
    lower_expr(lowerer, scopes, terms, test)?;
    terms.none()?;
    one(lowerer, scopes, terms, body)?;
    loop_term(terms, labels, tests_first)
}

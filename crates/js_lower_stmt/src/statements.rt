// Labels, jumps, and the terms of each form of a statement.

ghost use Rattle.std.specs.Prelude.{◌≡◌, ◌+◌, ◌-◌, ◌++◌, ◌∷◌, [], map, length, true, false, IfOk, OnOk, Some, None, codes};
ghost use Rattle.std.specs.Option.{option_map};
ghost use Rattle.js_names.specs.Lists.{flat};
ghost use Rattle.js_term.specs.declared.term.Term.TheVariants as term;
ghost use Rattle.js_term.specs.declared.term.Part.TheVariants as part;
ghost use Rattle.js_term.specs.declared.term.TemplateKind.TheVariants as template;
ghost use Rattle.js_term_stack.specs.Stacks.{extended, extended_parts, function_part, on_one, on_list, taken, taken_pending};
ghost use Rattle.js_term_stack.specs.declared.piece.Piece.TheVariants as piece;
ghost use Rattle.js_term_stack.specs.declared.pending.Pending.TheVariants as pending;
ghost use Rattle.js_lower_table.specs.Values as values;
ghost use Rattle.js_lower_table.specs.Entries.{given, origin};
ghost use Rattle.js_lower_table.specs.Entries as entries;
ghost use Rattle.js_lower_table.specs.Nests.{Nests};
ghost use Rattle.js_lower_table.specs.Table.{low};
ghost use Rattle.std.specs.Prelude.{negsuc, pos};
ghost use Rattle.js_term.specs.declared.term.Jump.TheVariants as jump;
ghost use Rattle.js_term_stack.specs.Stacks.{looped};
ghost use Rattle.js_lower_table.specs.Expressions as expressions;
ghost use Rattle.js_lower_table.specs.Statements as spec;
ghost use Rattle.js_lower_stmt.specs.Rows as rows;

use crate::below::{lower_expr, lower_labelled};
use crate::blocks::{block, class_declaration, declaration, maybe_one, one};
use crate::clauses::{switch, try_statement};
use crate::loops::{for_in, for_of, for_term, while_loop};
use js_frames::scopes::Scopes;
use js_lower_patterns::js_lower_calls::functions::maybe_expr;
use js_lower_table::lowerer::Lowerer;
use js_lower_table::task::Task;
use js_lower_table::words::word;
use js_term::term::Term;
use js_term_stack::piece::Piece;
use js_term_stack::stack::Stack;
use js_text::text::Text;
use js_tree::tree::{Expr, Identifier, Stmt};
use lava_base::memory::OutOfMemory;
use sqlite_items::{Boxed, Items};
use std::alloc::Global;

fn label_text(alloc: Global, label: &Option<Identifier>) -> Result<Text, OutOfMemory>
    ensures { IfOk result (λ made. made ≡ spec.label_of label.now) }
{
    match label {
        None => word(alloc, b""),
        Some(label) => label.name.copy(),
    }
}

fn takes_labels(statement: &Stmt) -> bool
    ensures { result ≡ spec.takes_labels statement.now }
{
    match statement {
        Stmt::While { .. } => true,
        Stmt::DoWhile { .. } => true,
        Stmt::For { .. } => true,
        Stmt::ForOf { .. } => true,
        Stmt::ForIn { .. } => true,
        Stmt::Labelled { .. } => true,
        _ => false,
    }
}

fn more_labels(alloc: Global, mut labels: &[Text], name: &Text) -> Result<Items<Text>, OutOfMemory>
    ensures { IfOk result (λ made. made ≡ labels.entry.now ++ name.now ∷ []) }
{
    let mut done = Items::new(alloc);
    while let [first, rest @ ..] = labels {
        done.push(first.copy()?)?;
        labels = rest;
    }
    done.push(name.copy()?)?;
    Ok(done)
}

fn label_term(terms: &mut Stack, labels: &[Text], body: Boxed<Term>) -> Result<(), OutOfMemory>
    ensures { OnOk result (terms.new
        ≡ piece.OneTerm (spec.label_all labels.now body) ∷ terms.old) }
{
    match labels {
        [] => terms.push(Piece::OneTerm(body)),
        [first, rest @ ..] => {
            label_term(terms, rest, body)?;
            terms.label(first)
        }
    }
}

fn label_all(terms: &mut Stack, labels: &[Text]) -> Result<(), OutOfMemory>
    ensures { OnOk result (terms.new ≡ on_one (λ t. spec.label_all labels.now t) terms.old) }
{
    let body = terms.take_term()?;
    label_term(terms, labels, body)
}

fn labelled_one<F: Fn(usize, &mut Scopes, &mut Stack, Task<'_>) -> Result<(), OutOfMemory>>(
    lowerer: &Lowerer<F>,
    scopes: &mut Scopes,
    terms: &mut Stack,
    labels: &[Text],
    statement: &Stmt,
) -> Result<(), OutOfMemory>
    requires { Nests lowerer.now.depth (F.pre lowerer.now.low) (F.post lowerer.now.low) }
    ensures ok { let b = low lowerer.now.depth in
        let made = spec.label_all labels.now (spec.one b scopes.old statement.now) ∷ [] in
        OnOk result (terms.new ≡ extended made terms.old) }
    ensures kept { OnOk result (scopes.new ≡ scopes.old) }
{
    one(lowerer, scopes, terms, statement)?;
    label_all(terms, labels)?;
    terms.append()
}

fn labelled<F: Fn(usize, &mut Scopes, &mut Stack, Task<'_>) -> Result<(), OutOfMemory>>(
    lowerer: &Lowerer<F>,
    scopes: &mut Scopes,
    terms: &mut Stack,
    labels: &[Text],
    name: &Text,
    statement: &Stmt,
) -> Result<(), OutOfMemory>
    requires { Nests lowerer.now.depth (F.pre lowerer.now.low) (F.post lowerer.now.low) }
    ensures ok { let b = low lowerer.now.depth in
        let made = spec.labelled b scopes.old labels.now name.now statement.now in
        OnOk result (terms.new ≡ extended made terms.old) }
    ensures kept { OnOk result (scopes.new ≡ scopes.old) }
{
    let labels = more_labels(terms.alloc(), labels, name)?;
    if takes_labels(statement) {
        return lower_labelled(lowerer, scopes, terms, labels.as_slice(), statement);
    }
    labelled_one(lowerer, scopes, terms, labels.as_slice(), statement)
}

fn if_term<F: Fn(usize, &mut Scopes, &mut Stack, Task<'_>) -> Result<(), OutOfMemory>>(
    lowerer: &Lowerer<F>,
    scopes: &mut Scopes,
    terms: &mut Stack,
    test: &Expr,
    consequent: &Stmt,
    alternate: &Option<Boxed<Stmt>>,
) -> Result<(), OutOfMemory>
    requires { Nests lowerer.now.depth (F.pre lowerer.now.low) (F.post lowerer.now.low) }
    ensures ok { let b = low lowerer.now.depth in
        let made = spec.if_term b scopes.old test.now consequent.now alternate.now in
        OnOk result (terms.new ≡ piece.OneTerm made ∷ terms.old) }
    ensures kept { OnOk result (scopes.new ≡ scopes.old) }
{
    lower_expr(lowerer, scopes, terms, test)?;
    one(lowerer, scopes, terms, consequent)?;
    maybe_one(lowerer, scopes, terms, alternate)?;
    terms.choice()
}

fn break_term(terms: &mut Stack, label: &Option<Identifier>) -> Result<(), OutOfMemory>
    ensures { OnOk result (terms.new ≡ piece.OneTerm
        (term.Jump (jump.Break (spec.label_of label.now))) ∷ terms.old) }
{
    let label = label_text(terms.alloc(), label)?;
    terms.break_to(label)
}

fn continue_term(terms: &mut Stack, label: &Option<Identifier>) -> Result<(), OutOfMemory>
    ensures { OnOk result (terms.new ≡ piece.OneTerm
        (term.Jump (jump.Continue (spec.label_of label.now))) ∷ terms.old) }
{
    let label = label_text(terms.alloc(), label)?;
    terms.continue_to(label)
}

fn return_term<F: Fn(usize, &mut Scopes, &mut Stack, Task<'_>) -> Result<(), OutOfMemory>>(
    lowerer: &Lowerer<F>,
    scopes: &mut Scopes,
    terms: &mut Stack,
    value: &Option<Boxed<Expr>>,
) -> Result<(), OutOfMemory>
    requires { Nests lowerer.now.depth (F.pre lowerer.now.low) (F.post lowerer.now.low) }
    ensures ok { let b = low lowerer.now.depth in
        let made = term.Jump (jump.Return
        (option_map (expressions.expr b scopes.old) value.now)) in
        OnOk result (terms.new ≡ piece.OneTerm made ∷ terms.old) }
    ensures kept { OnOk result (scopes.new ≡ scopes.old) }
{
    maybe_expr(lowerer, scopes, terms, value)?;
    terms.return_term()
}

fn throw_term<F: Fn(usize, &mut Scopes, &mut Stack, Task<'_>) -> Result<(), OutOfMemory>>(
    lowerer: &Lowerer<F>,
    scopes: &mut Scopes,
    terms: &mut Stack,
    value: &Expr,
) -> Result<(), OutOfMemory>
    requires { Nests lowerer.now.depth (F.pre lowerer.now.low) (F.post lowerer.now.low) }
    ensures ok { let b = low lowerer.now.depth in
        let made = term.Throw (expressions.expr b scopes.old value.now) in
        OnOk result (terms.new ≡ piece.OneTerm made ∷ terms.old) }
    ensures kept { OnOk result (scopes.new ≡ scopes.old) }
{
    lower_expr(lowerer, scopes, terms, value)?;
    terms.throw()
}

fn nothing(terms: &mut Stack) -> Result<(), OutOfMemory>
    ensures { OnOk result (terms.new ≡ piece.OneTerm (term.Seq []) ∷ terms.old) }
{
    terms.begin()?;
    terms.seq()
}

fn for_row<F: Fn(usize, &mut Scopes, &mut Stack, Task<'_>) -> Result<(), OutOfMemory>>(
    lowerer: &Lowerer<F>,
    scopes: &mut Scopes,
    terms: &mut Stack,
    labels: &[Text],
    statement: &Stmt,
) -> Result<(), OutOfMemory>
    requires { Nests lowerer.now.depth (F.pre lowerer.now.low) (F.post lowerer.now.low) }
    ensures ok { let b = low lowerer.now.depth in
        let made = rows.for_row b scopes.old labels.now statement.now in
        OnOk result (terms.new ≡ piece.OneTerm made ∷ terms.old) }
    ensures kept { OnOk result (scopes.new ≡ scopes.old) }
{
    match statement {
        Stmt::For {
            init,
            test,
            update,
            body,
            ..
        } => for_term(
            lowerer,
            scopes,
            terms,
            labels,
            init,
            test,
            update,
            body.get(),
        ),
        Stmt::ForOf {
            target,
            iterated,
            body,
            ..
        } => for_of(
            lowerer,
            scopes,
            terms,
            labels,
            target,
            iterated.get(),
            body.get(),
        ),
        Stmt::ForIn {
            target,
            object,
            body,
            ..
        } => for_in(
            lowerer,
            scopes,
            terms,
            labels,
            target,
            object.get(),
            body.get(),
        ),
        _ => terms.undefined(),
    }
}

fn loop_row<F: Fn(usize, &mut Scopes, &mut Stack, Task<'_>) -> Result<(), OutOfMemory>>(
    lowerer: &Lowerer<F>,
    scopes: &mut Scopes,
    terms: &mut Stack,
    labels: &[Text],
    statement: &Stmt,
) -> Result<(), OutOfMemory>
    requires { Nests lowerer.now.depth (F.pre lowerer.now.low) (F.post lowerer.now.low) }
    ensures ok { let b = low lowerer.now.depth in
        let made = rows.loop_row b scopes.old labels.now statement.now in
        OnOk result (terms.new ≡ piece.OneTerm made ∷ terms.old) }
    ensures kept { OnOk result (scopes.new ≡ scopes.old) }
{
    match statement {
        Stmt::While { test, body, .. } => {
            while_loop(lowerer, scopes, terms, labels, true, test.get(), body.get())
        }
        Stmt::DoWhile { test, body, .. } => {
            while_loop(
                lowerer,
                scopes,
                terms,
                labels,
                false,
                test.get(),
                body.get(),
            )
        }
        _ => for_row(lowerer, scopes, terms, labels, statement),
    }
}

fn jump_row<F: Fn(usize, &mut Scopes, &mut Stack, Task<'_>) -> Result<(), OutOfMemory>>(
    lowerer: &Lowerer<F>,
    scopes: &mut Scopes,
    terms: &mut Stack,
    labels: &[Text],
    statement: &Stmt,
) -> Result<(), OutOfMemory>
    requires { Nests lowerer.now.depth (F.pre lowerer.now.low) (F.post lowerer.now.low) }
    ensures ok { let b = low lowerer.now.depth in
        let made = rows.jump_row b scopes.old labels.now statement.now in
        OnOk result (terms.new ≡ piece.OneTerm made ∷ terms.old) }
    ensures kept { OnOk result (scopes.new ≡ scopes.old) }
{
    match statement {
        Stmt::Empty { .. } => nothing(terms),
        Stmt::Debugger { .. } => nothing(terms),
        Stmt::Continue { label, .. } => continue_term(terms, label),
        Stmt::Break { label, .. } => break_term(terms, label),
        Stmt::Return { value, .. } => return_term(lowerer, scopes, terms, value),
        Stmt::Throw { value, .. } => throw_term(lowerer, scopes, terms, value.get()),
        _ => loop_row(lowerer, scopes, terms, labels, statement),
    }
}

fn term_row<F: Fn(usize, &mut Scopes, &mut Stack, Task<'_>) -> Result<(), OutOfMemory>>(
    lowerer: &Lowerer<F>,
    scopes: &mut Scopes,
    terms: &mut Stack,
    labels: &[Text],
    statement: &Stmt,
) -> Result<(), OutOfMemory>
    requires { Nests lowerer.now.depth (F.pre lowerer.now.low) (F.post lowerer.now.low) }
    ensures ok { let b = low lowerer.now.depth in
        let made = rows.term_row b scopes.old labels.now statement.now in
        OnOk result (terms.new ≡ piece.OneTerm made ∷ terms.old) }
    ensures kept { OnOk result (scopes.new ≡ scopes.old) }
{
    match statement {
        Stmt::ClassDeclaration(class) => class_declaration(lowerer, scopes, terms, class.get()),
        Stmt::Expression(tree) => lower_expr(lowerer, scopes, terms, tree.get()),
        Stmt::Block { body, .. } => block(lowerer, scopes, terms, body.as_slice()),
        Stmt::If {
            test,
            consequent,
            alternate,
            ..
        } => if_term(
            lowerer,
            scopes,
            terms,
            test.get(),
            consequent.get(),
            alternate,
        ),
        Stmt::Switch { value, clauses, .. } => {
            switch(lowerer, scopes, terms, value.get(), clauses.as_slice())
        }
        Stmt::Try {
            block,
            handler,
            finalizer,
            ..
        } => try_statement(lowerer, scopes, terms, block.as_slice(), handler, finalizer),
        _ => jump_row(lowerer, scopes, terms, labels, statement),
    }
}

/// Appends the terms of a statement (ECMA-262, Evaluation of a StatementListItem).
#[tactic(auto, using(js_term_stack::specs::Stack_laws::extended_none, js_term_stack::specs::Stack_laws::extended_twice))]
pub fn stmt_row<F: Fn(usize, &mut Scopes, &mut Stack, Task<'_>) -> Result<(), OutOfMemory>>(
    lowerer: &Lowerer<F>,
    scopes: &mut Scopes,
    terms: &mut Stack,
    labels: &[Text],
    statement: &Stmt,
) -> Result<(), OutOfMemory>
    requires { Nests lowerer.now.depth (F.pre lowerer.now.low) (F.post lowerer.now.low) }
    ensures ok { let b = low lowerer.now.depth in
        let made = spec.stmt_row b scopes.old labels.now statement.now in
        OnOk result (terms.new ≡ extended made terms.old) }
    ensures kept { OnOk result (scopes.new ≡ scopes.old) }
{
    match statement {
        Stmt::Declare(inits) => declaration(lowerer, scopes, terms, inits),
        Stmt::FunctionDeclaration(_) => Ok(()),
        Stmt::Labelled { label, body } => {
            labelled(lowerer, scopes, terms, labels, &label.name, body.get())
        }
        _ => {
            term_row(lowerer, scopes, terms, labels, statement)?;
            terms.append()
        }
    }
}

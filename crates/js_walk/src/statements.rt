// What stands below statements.

ghost use Rattle.std.specs.Prelude.{◌≡◌, [], ◌∷◌, ◌++◌, OnOk};
ghost use Rattle.js_walk.specs.Parts.{Adds, CasesPart, ExpressionPart, LoopPart};
ghost use Rattle.js_walk.specs.Parts as spec;
ghost use Rattle.js_names.specs.Lists.{flat, from_option};

use crate::expressions::{maybe_operand, operand};
use crate::patterns::{elements, maybe_pattern};
use crate::subtree::{Subtree, add};
use js_tree::tree::{Catch, Clause, Declaration, Expr, ForInit, ForTarget, Stmt};
use lava_base::memory::OutOfMemory;
use sqlite_items::{Boxed, Items};

fn statement<'a>(statement: &'a Stmt, out: &mut Items<Subtree<'a>>) -> Result<(), OutOfMemory>
    ensures { OnOk result (Adds out.old out.new (spec.statement statement.now)) }
{
    add(Subtree::Statement(statement), out)
}

fn maybe_statement<'a>(
    slot: &'a Option<Boxed<Stmt>>,
    out: &mut Items<Subtree<'a>>,
) -> Result<(), OutOfMemory>
    ensures { OnOk result (Adds out.old out.new (from_option spec.statement slot.now)) }
{
    match slot {
        None => Ok(()),
        Some(found) => statement(found.get(), out),
    }
}

pub(crate) fn statements<'a>(
    mut list: &'a [Boxed<Stmt>],
    out: &mut Items<Subtree<'a>>,
) -> Result<(), OutOfMemory>
    ensures { OnOk result (Adds out.old out.new (flat spec.statement list.entry.now)) }
{
    while let [first, rest @ ..] = list {
        statement(first.get(), out)?;
        list = rest;
    }
    Ok(())
}

fn declaration<'a>(
    declaration: &'a Declaration,
    out: &mut Items<Subtree<'a>>,
) -> Result<(), OutOfMemory>
    ensures { OnOk result (Adds out.old out.new (spec.declaration declaration.now)) }
{
    elements(false, declaration.declarators.as_slice(), out)
}

fn for_init<'a>(init: &'a ForInit, out: &mut Items<Subtree<'a>>) -> Result<(), OutOfMemory>
    ensures { OnOk result (Adds out.old out.new (spec.for_init init.now)) }
{
    match init {
        ForInit::NoInit => Ok(()),
        ForInit::InitDeclaration(found) => declaration(found, out),
        ForInit::InitExpression(expression) => operand(expression.get(), out),
    }
}

fn for_parts<'a>(
    init: &'a ForInit,
    test: &'a Option<Boxed<Expr>>,
    update: &'a Option<Boxed<Expr>>,
    body: &'a Stmt,
    out: &mut Items<Subtree<'a>>,
) -> Result<(), OutOfMemory>
    ensures { OnOk result (Adds out.old out.new
        (spec.for_parts init.now test.now update.now body.now)) }
{
    for_init(init, out)?;
    maybe_operand(test, out)?;
    maybe_operand(update, out)?;
    add(Subtree::Loop(body), out)
}

fn for_each<'a>(
    target: &'a ForTarget,
    subject: &'a Expr,
    body: &'a Stmt,
    out: &mut Items<Subtree<'a>>,
) -> Result<(), OutOfMemory>
    ensures { OnOk result (Adds out.old out.new (spec.for_each target.now subject.now body.now)) }
{
    match target {
        ForTarget::ForBinding { kind, pattern } => {
            add(Subtree::Head(*kind, pattern.get()), out)?;
            operand(subject, out)?;
            add(Subtree::Each(*kind, pattern.get(), body), out)
        }
        ForTarget::ForAssignment(pattern) => {
            add(Subtree::Pattern(true, pattern.get()), out)?;
            operand(subject, out)?;
            add(Subtree::Loop(body), out)
        }
    }
}

fn block<'a>(list: &'a Items<Boxed<Stmt>>, out: &mut Items<Subtree<'a>>) -> Result<(), OutOfMemory>
    ensures { OnOk result (Adds out.old out.new (spec.block list.now)) }
{
    add(Subtree::Block(list), out)
}

fn maybe_block<'a>(
    slot: &'a Option<Items<Boxed<Stmt>>>,
    out: &mut Items<Subtree<'a>>,
) -> Result<(), OutOfMemory>
    ensures { OnOk result (Adds out.old out.new (from_option spec.block slot.now)) }
{
    match slot {
        None => Ok(()),
        Some(found) => block(found, out),
    }
}

fn handler<'a>(
    slot: &'a Option<Boxed<Catch>>,
    out: &mut Items<Subtree<'a>>,
) -> Result<(), OutOfMemory>
    ensures { OnOk result (Adds out.old out.new (from_option spec.handler slot.now)) }
{
    match slot {
        None => Ok(()),
        Some(found) => add(Subtree::Catch(found.get()), out),
    }
}

fn try_parts<'a>(
    list: &'a Items<Boxed<Stmt>>,
    catch: &'a Option<Boxed<Catch>>,
    finalizer: &'a Option<Items<Boxed<Stmt>>>,
    out: &mut Items<Subtree<'a>>,
) -> Result<(), OutOfMemory>
    ensures { OnOk result (Adds out.old out.new (spec.try_parts list.now catch.now finalizer.now)) }
{
    block(list, out)?;
    handler(catch, out)?;
    maybe_block(finalizer, out)
}

fn if_parts<'a>(
    test: &'a Expr,
    consequent: &'a Stmt,
    alternate: &'a Option<Boxed<Stmt>>,
    out: &mut Items<Subtree<'a>>,
) -> Result<(), OutOfMemory>
    ensures { OnOk result (Adds out.old out.new
        (spec.if_parts test.now consequent.now alternate.now)) }
{
    operand(test, out)?;
    statement(consequent, out)?;
    maybe_statement(alternate, out)
}

fn while_parts<'a>(
    test: &'a Expr,
    body: &'a Stmt,
    out: &mut Items<Subtree<'a>>,
) -> Result<(), OutOfMemory>
    ensures { OnOk result (Adds out.old out.new
        (ExpressionPart test.now ∷ LoopPart body.now ∷ [])) }
{
    operand(test, out)?;
    add(Subtree::Loop(body), out)
}

fn do_parts<'a>(
    body: &'a Stmt,
    test: &'a Expr,
    out: &mut Items<Subtree<'a>>,
) -> Result<(), OutOfMemory>
    ensures { OnOk result (Adds out.old out.new
        (LoopPart body.now ∷ ExpressionPart test.now ∷ [])) }
{
    add(Subtree::Loop(body), out)?;
    operand(test, out)
}

fn switch_parts<'a>(
    value: &'a Expr,
    list: &'a Items<Clause>,
    out: &mut Items<Subtree<'a>>,
) -> Result<(), OutOfMemory>
    ensures { OnOk result (Adds out.old out.new
        (ExpressionPart value.now ∷ CasesPart list.now ∷ [])) }
{
    operand(value, out)?;
    add(Subtree::Cases(list), out)
}

pub(crate) fn statement_parts<'a>(
    found: &'a Stmt,
    out: &mut Items<Subtree<'a>>,
) -> Result<(), OutOfMemory>
    ensures { OnOk result (Adds out.old out.new (spec.statement_parts found.now)) }
{
    match found {
        Stmt::Declare(list) => declaration(list, out),
        Stmt::FunctionDeclaration(function) => add(Subtree::Function(false, function.get()), out),
        Stmt::ClassDeclaration(class) => add(Subtree::Class(class.get()), out),
        Stmt::Expression(expression) => operand(expression.get(), out),
        Stmt::Block { body, .. } => block(body, out),
        Stmt::If {
            test,
            consequent,
            alternate,
            ..
        } => { if_parts(test.get(), consequent.get(), alternate, out) }
        Stmt::While { test, body, .. } => while_parts(test.get(), body.get(), out),
        Stmt::DoWhile { body, test, .. } => do_parts(body.get(), test.get(), out),
        Stmt::For {
            init,
            test,
            update,
            body,
            ..
        } => { for_parts(init, test, update, body.get(), out) }
        Stmt::ForOf {
            target,
            iterated,
            body,
            ..
        } => { for_each(target, iterated.get(), body.get(), out) }
        Stmt::ForIn {
            target,
            object,
            body,
            ..
        } => for_each(target, object.get(), body.get(), out),
        Stmt::Return { value, .. } => maybe_operand(value, out),
        Stmt::Throw { value, .. } => operand(value.get(), out),
        Stmt::Switch { value, clauses, .. } => switch_parts(value.get(), clauses, out),
        Stmt::Try {
            block,
            handler,
            finalizer,
            ..
        } => try_parts(block, handler, finalizer, out),
        Stmt::Labelled { body, .. } => statement(body.get(), out),
        _ => Ok(()),
    }
}

fn clause<'a>(clause: &'a Clause, out: &mut Items<Subtree<'a>>) -> Result<(), OutOfMemory>
    ensures { OnOk result (Adds out.old out.new (spec.clause clause.now)) }
{
    maybe_operand(&clause.test, out)?;
    statements(clause.body.as_slice(), out)
}

pub(crate) fn clauses<'a>(
    mut list: &'a [Clause],
    out: &mut Items<Subtree<'a>>,
) -> Result<(), OutOfMemory>
    ensures { OnOk result (Adds out.old out.new (flat spec.clause list.entry.now)) }
{
    while let [first, rest @ ..] = list {
        clause(first, out)?;
        list = rest;
    }
    Ok(())
}

pub(crate) fn catch_parts<'a>(
    catch: &'a Catch,
    out: &mut Items<Subtree<'a>>,
) -> Result<(), OutOfMemory>
    ensures { OnOk result (Adds out.old out.new (spec.catch_parts catch.now)) }
{
    maybe_pattern(false, &catch.parameter, out)?;
    block(&catch.body, out)
}

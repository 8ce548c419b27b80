// The names that statements declare by `var`, and those of bodies.

ghost use Rattle.std.specs.Prelude.{◌≡◌, ◌++◌, OnOk};
ghost use Rattle.js_names.specs.Names as spec;
ghost use Rattle.js_names.specs.Lists.{flat, from_option};

use crate::bound::{TREE_DEPTH, binding_vars, declaration_vars, init_vars};
use crate::declared::DeclaredName;
use crate::lexical::lexically_declared_names;
use js_tree::tree::{Catch, Clause, ForTarget, Stmt};
use lava_base::memory::OutOfMemory;
use sqlite_items::{Boxed, Items};

fn target_vars(target: &ForTarget, out: &mut Items<DeclaredName>) -> Result<(), OutOfMemory>
    ensures { OnOk result (out.new ≡ out.old ++ spec.target_vars target.now) }
{
    match target {
        ForTarget::ForBinding { kind, pattern } => binding_vars(*kind, pattern.get(), out),
        ForTarget::ForAssignment(_) => Ok(()),
    }
}

#[cycle(vars)]
fn vars_to(depth: usize, statement: &Stmt, out: &mut Items<DeclaredName>) -> Result<(), OutOfMemory>
    ensures { OnOk result (out.new ≡ out.old ++ spec.var_declared_names_to depth statement.now) }
{
    if depth == 0 {
        return Ok(());
    }
    vars_row(depth - 1, statement, out)
}

#[cycle(vars)]
fn vars_row(
    depth: usize,
    statement: &Stmt,
    out: &mut Items<DeclaredName>,
) -> Result<(), OutOfMemory>
    ensures { let vars = spec.var_declared_names_to depth in
        OnOk result (out.new ≡ out.old ++ spec.vars_row vars statement.now) }
{
    match statement {
        Stmt::Declare(declaration) => declaration_vars(declaration, out),
        Stmt::Block { body, .. } => vars_all(depth, body.as_slice(), out),
        Stmt::If {
            consequent,
            alternate,
            ..
        } => {
            vars_to(depth, consequent.get(), out)?;
            vars_maybe(depth, alternate, out)
        }
        Stmt::While { body, .. } => vars_to(depth, body.get(), out),
        Stmt::DoWhile { body, .. } => vars_to(depth, body.get(), out),
        Stmt::For { init, body, .. } => {
            init_vars(init, out)?;
            vars_to(depth, body.get(), out)
        }
        Stmt::ForOf { target, body, .. } => {
            target_vars(target, out)?;
            vars_to(depth, body.get(), out)
        }
        Stmt::ForIn { target, body, .. } => {
            target_vars(target, out)?;
            vars_to(depth, body.get(), out)
        }
        Stmt::Switch { clauses, .. } => vars_clauses(depth, clauses.as_slice(), out),
        Stmt::Try {
            block,
            handler,
            finalizer,
            ..
        } => {
            vars_all(depth, block.as_slice(), out)?;
            vars_catch(depth, handler, out)?;
            vars_finally(depth, finalizer, out)
        }
        Stmt::Labelled { body, .. } => vars_to(depth, body.get(), out),
        _ => Ok(()),
    }
}

#[cycle(vars)]
fn vars_maybe(
    depth: usize,
    slot: &Option<Boxed<Stmt>>,
    out: &mut Items<DeclaredName>,
) -> Result<(), OutOfMemory>
    ensures { let vars = spec.var_declared_names_to depth in
        OnOk result (out.new ≡ out.old ++ from_option vars slot.now) }
{
    match slot {
        None => Ok(()),
        Some(statement) => vars_to(depth, statement.get(), out),
    }
}

#[cycle(vars)]
fn vars_catch(
    depth: usize,
    slot: &Option<Boxed<Catch>>,
    out: &mut Items<DeclaredName>,
) -> Result<(), OutOfMemory>
    ensures { let vars = spec.var_declared_names_to depth in
        OnOk result (out.new ≡ out.old ++ from_option (spec.catch_vars vars) slot.now) }
{
    match slot {
        None => Ok(()),
        Some(catch) => vars_all(depth, catch.get().body.as_slice(), out),
    }
}

#[cycle(vars)]
fn vars_finally(
    depth: usize,
    slot: &Option<Items<Boxed<Stmt>>>,
    out: &mut Items<DeclaredName>,
) -> Result<(), OutOfMemory>
    ensures { let vars = spec.var_declared_names_to depth in
        OnOk result (out.new ≡ out.old ++ from_option (flat vars) slot.now) }
{
    match slot {
        None => Ok(()),
        Some(list) => vars_all(depth, list.as_slice(), out),
    }
}

#[cycle(vars)]
fn vars_all(
    depth: usize,
    mut list: &[Boxed<Stmt>],
    out: &mut Items<DeclaredName>,
) -> Result<(), OutOfMemory>
    ensures { let vars = spec.var_declared_names_to depth in
        OnOk result (out.new ≡ out.old ++ flat vars list.entry.now) }
{
    while let [first, rest @ ..] = list {
        vars_to(depth, first.get(), out)?;
        list = rest;
    }
    Ok(())
}

#[cycle(vars)]
fn vars_clauses(
    depth: usize,
    mut list: &[Clause],
    out: &mut Items<DeclaredName>,
) -> Result<(), OutOfMemory>
    ensures { let vars = spec.var_declared_names_to depth in
        OnOk result (out.new ≡ out.old ++ flat (spec.clause_vars vars) list.entry.now) }
{
    while let [first, rest @ ..] = list {
        vars_all(depth, first.body.as_slice(), out)?;
        list = rest;
    }
    Ok(())
}

/// Appends what a statement declares by `var` (ECMA-262, VarDeclaredNames).
#[tactic(auto, unfolding(crate::specs::Names::var_declared_names))]
pub fn var_declared_names(
    statement: &Stmt,
    out: &mut Items<DeclaredName>,
) -> Result<(), OutOfMemory>
    ensures { OnOk result (out.new ≡ out.old ++ spec.var_declared_names statement.now) }
{
    vars_to(TREE_DEPTH, statement, out)
}

/// Appends the names of a body: those of its own statements, and each `var` inside it.
pub fn body_names(
    mut list: &[Boxed<Stmt>],
    out: &mut Items<DeclaredName>,
) -> Result<(), OutOfMemory>
    ensures { OnOk result (out.new ≡ out.old ++ flat spec.body_names list.entry.now) }
{
    while let [first, rest @ ..] = list {
        lexically_declared_names(first.get(), out)?;
        var_declared_names(first.get(), out)?;
        list = rest;
    }
    Ok(())
}

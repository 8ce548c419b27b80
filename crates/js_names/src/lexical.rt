// The names that statements declare lexically.

ghost use Rattle.std.specs.Prelude.{◌≡◌, ◌++◌, OnOk};
ghost use Rattle.js_names.specs.Names as spec;
ghost use Rattle.js_names.specs.Lists.{flat};

use crate::bound::declaration_lexicals;
use crate::declared::{DeclaredName, maybe_declare};
use js_tree::tree::{Clause, Stmt};
use lava_base::memory::OutOfMemory;
use sqlite_items::{Boxed, Items};

fn top_lexicals(statement: &Stmt, out: &mut Items<DeclaredName>) -> Result<(), OutOfMemory>
    ensures { OnOk result (out.new
        ≡ out.old ++ spec.top_level_lexically_declared_names statement.now) }
{
    match statement {
        Stmt::Declare(declaration) => declaration_lexicals(declaration, out),
        Stmt::ClassDeclaration(class) => maybe_declare(false, &class.get().name, out),
        _ => Ok(()),
    }
}

fn functions(statement: &Stmt, out: &mut Items<DeclaredName>) -> Result<(), OutOfMemory>
    ensures { OnOk result (out.new ≡ out.old ++ spec.function_names statement.now) }
{
    match statement {
        Stmt::FunctionDeclaration(function) => maybe_declare(false, &function.get().name, out),
        _ => Ok(()),
    }
}

/// Appends what a statement of a block declares in it (ECMA-262, LexicallyDeclaredNames).
pub fn lexically_declared_names(
    statement: &Stmt,
    out: &mut Items<DeclaredName>,
) -> Result<(), OutOfMemory>
    ensures { OnOk result (out.new ≡ out.old ++ spec.lexically_declared_names statement.now) }
{
    top_lexicals(statement, out)?;
    functions(statement, out)
}

/// Appends what a body's own statements declare by `let`, `const` and `class` (ECMA-262, TopLevelLexicallyDeclaredNames).
pub fn top_level_lexically_declared_names(
    mut list: &[Boxed<Stmt>],
    out: &mut Items<DeclaredName>,
) -> Result<(), OutOfMemory>
    ensures { OnOk result (out.new
        ≡ out.old ++ flat spec.top_level_lexically_declared_names list.entry.now) }
{
    while let [first, rest @ ..] = list {
        top_lexicals(first.get(), out)?;
        list = rest;
    }
    Ok(())
}

/// Appends the names of the functions among a body's own statements.
pub fn function_names(
    mut list: &[Boxed<Stmt>],
    out: &mut Items<DeclaredName>,
) -> Result<(), OutOfMemory>
    ensures { OnOk result (out.new ≡ out.old ++ flat spec.function_names list.entry.now) }
{
    while let [first, rest @ ..] = list {
        functions(first.get(), out)?;
        list = rest;
    }
    Ok(())
}

/// Appends what the statements of a block declare in it (ECMA-262, LexicallyDeclaredNames).
pub fn block_names(
    mut list: &[Boxed<Stmt>],
    out: &mut Items<DeclaredName>,
) -> Result<(), OutOfMemory>
    ensures { OnOk result (out.new ≡ out.old ++ flat spec.lexically_declared_names list.entry.now) }
{
    while let [first, rest @ ..] = list {
        lexically_declared_names(first.get(), out)?;
        list = rest;
    }
    Ok(())
}

/// Appends what the clauses of a `switch` declare in its block (ECMA-262, LexicallyDeclaredNames).
pub fn cases_names(mut list: &[Clause], out: &mut Items<DeclaredName>) -> Result<(), OutOfMemory>
    ensures { OnOk result (out.new ≡ out.old ++ flat spec.clause_lexicals list.entry.now) }
{
    while let [first, rest @ ..] = list {
        block_names(first.body.as_slice(), out)?;
        list = rest;
    }
    Ok(())
}

// The names that the scope of a part declares lexically.

ghost use Rattle.std.specs.Prelude.{◌≡◌, ◌++◌, OnOk, IfOk};
ghost use Rattle.js_early.specs.Contexts as spec;
ghost use Rattle.js_early.specs.Rules as early;
ghost use Rattle.js_names.specs.Names.{parameter_names};
ghost use Rattle.js_walk.specs.Parts.{part_of};

use js_names::bound::{binding_lexicals, init_lexicals, parameter_names};
use js_names::declared::DeclaredName;
use js_names::lexical::{
    block_names, cases_names, function_names, top_level_lexically_declared_names,
};
use js_tree::tree::{Body, Function, Stmt};
use js_walk::subtree::Subtree;
use lava_base::memory::OutOfMemory;
use sqlite_items::Items;
use std::alloc::Global;

fn body_lexicals(body: &Body, out: &mut Items<DeclaredName>) -> Result<(), OutOfMemory>
    ensures { OnOk result (out.new ≡ out.old ++ spec.body_lexicals body.now) }
{
    match body {
        Body::Statements(list) => top_level_lexically_declared_names(list.as_slice(), out),
        Body::Concise(_) => Ok(()),
    }
}

fn statement_lexicals(statement: &Stmt, out: &mut Items<DeclaredName>) -> Result<(), OutOfMemory>
    ensures { OnOk result (out.new ≡ out.old ++ spec.statement_lexicals statement.now) }
{
    match statement {
        Stmt::For { init, .. } => init_lexicals(init, out),
        _ => Ok(()),
    }
}

fn add_lexicals(part: &Subtree<'_>, out: &mut Items<DeclaredName>) -> Result<(), OutOfMemory>
    ensures { OnOk result (out.new ≡ out.old ++ spec.lexicals (part_of part.now)) }
{
    match *part {
        Subtree::Module(source) => {
            top_level_lexically_declared_names(source.body.as_slice(), out)
        }
        Subtree::Function(_, function) => body_lexicals(&function.body, out),
        Subtree::Statement(statement) => statement_lexicals(statement, out),
        Subtree::Block(list) => block_names(list.as_slice(), out),
        Subtree::Cases(list) => cases_names(list.as_slice(), out),
        Subtree::Each(kind, pattern, _) => binding_lexicals(kind, pattern, out),
        _ => Ok(()),
    }
}

/// The names that the scope of a part declares lexically.
pub(crate) fn lexicals(
    alloc: Global,
    part: &Subtree<'_>,
) -> Result<Items<DeclaredName>, OutOfMemory>
    ensures { IfOk result (λ names. names ≡ spec.lexicals (part_of part.now)) }
{
    let mut names = Items::new(alloc);
    add_lexicals(part, &mut names)?;
    Ok(names)
}

fn add_taken(part: &Subtree<'_>, out: &mut Items<DeclaredName>) -> Result<(), OutOfMemory>
    ensures { OnOk result (out.new ≡ out.old ++ early.taken (part_of part.now)) }
{
    match *part {
        Subtree::Function(_, function) => parameter_names(function, out),
        _ => Ok(()),
    }
}

/// The names that a scope's lexical declarations may not have.
pub(crate) fn taken(alloc: Global, part: &Subtree<'_>) -> Result<Items<DeclaredName>, OutOfMemory>
    ensures { IfOk result (λ names. names ≡ early.taken (part_of part.now)) }
{
    let mut names = Items::new(alloc);
    add_taken(part, &mut names)?;
    Ok(names)
}

fn body_functions(body: &Body, out: &mut Items<DeclaredName>) -> Result<(), OutOfMemory>
    ensures { OnOk result (out.new ≡ out.old ++ early.body_functions body.now) }
{
    match body {
        Body::Statements(list) => function_names(list.as_slice(), out),
        Body::Concise(_) => Ok(()),
    }
}

fn add_functions(part: &Subtree<'_>, out: &mut Items<DeclaredName>) -> Result<(), OutOfMemory>
    ensures { OnOk result (out.new ≡ out.old ++ early.top_functions (part_of part.now)) }
{
    match *part {
        Subtree::Module(source) => function_names(source.body.as_slice(), out),
        Subtree::Function(_, function) => body_functions(&function.body, out),
        _ => Ok(()),
    }
}

/// The functions at the top of a body.
pub(crate) fn top_functions(
    alloc: Global,
    part: &Subtree<'_>,
) -> Result<Items<DeclaredName>, OutOfMemory>
    ensures { IfOk result (λ names. names ≡ early.top_functions (part_of part.now)) }
{
    let mut names = Items::new(alloc);
    add_functions(part, &mut names)?;
    Ok(names)
}

/// The parameters of a function, for the rule of names that stand twice.
pub(crate) fn parameters(
    alloc: Global,
    function: &Function,
) -> Result<Items<DeclaredName>, OutOfMemory>
    ensures { IfOk result (λ names. names ≡ parameter_names function.now) }
{
    let mut names = Items::new(alloc);
    parameter_names(function, &mut names)?;
    Ok(names)
}

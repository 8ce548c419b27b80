// The names that the scope of a part declares.

ghost use Rattle.std.specs.Prelude.{◌≡◌, ◌++◌, OnOk, IfOk};
ghost use Rattle.js_scope.specs.Scopings as spec;
ghost use Rattle.js_walk.specs.Parts.{part_of};

use js_names::bound::{binding_lexicals, init_lexicals, maybe_bound_names, parameter_names};
use js_names::declared::{DeclaredName, maybe_declare};
use js_names::lexical::{block_names, cases_names};
use js_names::vars::body_names;
use js_text::text::{Text, from_units};
use js_tree::tree::{Body, Expr, SourceKind, Stmt};
use js_walk::subtree::Subtree;
use lava_base::memory::OutOfMemory;
use lava_base::place::Place;
use sqlite_items::Items;
use std::alloc::Global;

/// `exports`
pub const EXPORTS: [u16; 7] = [101, 120, 112, 111, 114, 116, 115];

/// `require`
pub const REQUIRE: [u16; 7] = [114, 101, 113, 117, 105, 114, 101];

/// `module`
pub const MODULE: [u16; 6] = [109, 111, 100, 117, 108, 101];

/// The place of the names that a source has before it begins.
pub const SOURCE_PLACE: Place = Place { line: 0, unit: 0 };

fn word(alloc: Global, units: &[u16]) -> Result<Text, OutOfMemory>
    ensures { IfOk result (λ text. text ≡ units.now) }
{
    match from_units(alloc, units) {
        Ok(text) => Ok(text),
        Err(_) => Err(OutOfMemory),
    }
}

fn source_name(
    alloc: Global,
    units: &[u16],
    out: &mut Items<DeclaredName>,
) -> Result<(), OutOfMemory>
    ensures { OnOk result (out.new ≡ out.old ++ spec.source_name units.now) }
{
    let name = word(alloc, units)?;
    out.push(DeclaredName {
        name,
        place: SOURCE_PLACE,
        constant: false,
    })?;
    Ok(())
}

fn source_names(
    alloc: Global,
    kind: SourceKind,
    out: &mut Items<DeclaredName>,
) -> Result<(), OutOfMemory>
    ensures { OnOk result (out.new ≡ out.old ++ spec.source_names kind) }
{
    match kind {
        SourceKind::Module => {
            source_name(alloc, &EXPORTS, out)?;
            source_name(alloc, &REQUIRE, out)?;
            source_name(alloc, &MODULE, out)
        }
        SourceKind::EvaluatedText => source_name(alloc, &REQUIRE, out),
    }
}

fn body_scope(body: &Body, out: &mut Items<DeclaredName>) -> Result<(), OutOfMemory>
    ensures { OnOk result (out.new ≡ out.old ++ spec.body_scope body.now) }
{
    match body {
        Body::Statements(list) => body_names(list.as_slice(), out),
        Body::Concise(_) => Ok(()),
    }
}

fn expression_scope(expression: &Expr, out: &mut Items<DeclaredName>) -> Result<(), OutOfMemory>
    ensures { OnOk result (out.new ≡ out.old ++ spec.expression_scope expression.now) }
{
    match expression {
        Expr::Function(function) => maybe_declare(true, &function.get().name, out),
        _ => Ok(()),
    }
}

fn statement_scope(statement: &Stmt, out: &mut Items<DeclaredName>) -> Result<(), OutOfMemory>
    ensures { OnOk result (out.new ≡ out.old ++ spec.statement_scope statement.now) }
{
    match statement {
        Stmt::For { init, .. } => init_lexicals(init, out),
        _ => Ok(()),
    }
}

fn add_names(
    alloc: Global,
    part: &Subtree<'_>,
    out: &mut Items<DeclaredName>,
) -> Result<(), OutOfMemory>
    ensures { OnOk result (out.new ≡ out.old ++ spec.names_of (part_of part.now)) }
{
    match *part {
        Subtree::Module(source) => {
            source_names(alloc, source.kind, out)?;
            body_names(source.body.as_slice(), out)
        }
        Subtree::Expression(expression) => expression_scope(expression, out),
        Subtree::Function(_, function) => {
            parameter_names(function, out)?;
            body_scope(&function.body, out)
        }
        Subtree::Class(class) => maybe_declare(true, &class.name, out),
        Subtree::Statement(statement) => statement_scope(statement, out),
        Subtree::Block(list) => block_names(list.as_slice(), out),
        Subtree::Cases(list) => cases_names(list.as_slice(), out),
        Subtree::Catch(catch) => maybe_bound_names(false, &catch.parameter, out),
        Subtree::Head(kind, pattern) => binding_lexicals(kind, pattern, out),
        Subtree::Each(kind, pattern, _) => binding_lexicals(kind, pattern, out),
        _ => Ok(()),
    }
}

/// The names that the scope of a part declares, with repetitions, in the order of the text.
pub fn names_of(alloc: Global, part: &Subtree<'_>) -> Result<Items<DeclaredName>, OutOfMemory>
    ensures { IfOk result (λ names. names ≡ spec.names_of (part_of part.now)) }
{
    let mut names = Items::new(alloc);
    add_names(alloc, part, &mut names)?;
    Ok(names)
}

// `if`, with `else` or without.

ghost use Rattle.std.specs.Prelude.{◌≡◌, IfOk};
ghost use Rattle.js_stmt.specs.Branches as spec;

use crate::statements::statement_phrase;
use js_phrase::phrase::Phrase;
use js_phrase::queue::Queue;
use js_tree::tree::Stmt;
use lava_base::memory::OutOfMemory;
use sqlite_items::Boxed;
use std::alloc::Global;

/// `if` without `else` (ECMA-262, IfStatement).
pub fn if_statement(alloc: Global, parts: &mut Queue<Phrase>) -> Result<Phrase, OutOfMemory>
    ensures { IfOk result (λ p. p ≡ spec.if_statement parts.old) }
{
    let place = parts.token().start;
    parts.skip();
    let test = parts.expression(alloc)?;
    parts.skip();
    let consequent = parts.statement(alloc)?;
    let made = Stmt::If {
        place,
        test,
        consequent,
        alternate: None,
    };
    statement_phrase(alloc, made)
}

/// An `if`, with `else` and this behind it.
fn with_alternate(statement: Stmt, behind: Boxed<Stmt>) -> Stmt
    ensures { result ≡ spec.with_alternate statement behind }
{
    match statement {
        Stmt::If {
            place,
            test,
            consequent,
            ..
        } => Stmt::If {
            place,
            test,
            consequent,
            alternate: Some(behind),
        },
        other => other,
    }
}

/// `if` with `else` (ECMA-262, IfStatement).
pub fn if_else_statement(alloc: Global, parts: &mut Queue<Phrase>) -> Result<Phrase, OutOfMemory>
    ensures { IfOk result (λ p. p ≡ spec.if_else_statement parts.old) }
{
    let statement = parts.statement(alloc)?.into_inner();
    parts.skip();
    let behind = parts.statement(alloc)?;
    statement_phrase(alloc, with_alternate(statement, behind))
}

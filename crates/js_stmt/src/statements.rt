// Statements that are no more than their statements or their expression.

ghost use Rattle.std.specs.Prelude.{◌≡◌, IfOk};
ghost use Rattle.js_stmt.specs.Statements as spec;

use js_phrase::phrase::Phrase;
use js_phrase::queue::Queue;
use js_tree::tree::Stmt;
use lava_base::memory::OutOfMemory;
use sqlite_items::Boxed;
use std::alloc::Global;

/// A statement, as a phrase.
pub(crate) fn statement_phrase(alloc: Global, statement: Stmt) -> Result<Phrase, OutOfMemory>
    ensures { IfOk result (λ p. p ≡ Phrase.Statement statement) }
{
    Ok(Phrase::Statement(Boxed::new(alloc, statement)?))
}

/// Statements between braces (ECMA-262, Block).
pub fn block(alloc: Global, parts: &mut Queue<Phrase>) -> Result<Phrase, OutOfMemory>
    ensures { IfOk result (λ p. p ≡ spec.block parts.old) }
{
    let place = parts.token().start;
    let body = parts.statement_list(alloc)?;
    statement_phrase(alloc, Stmt::Block { place, body })
}

/// `;` alone (ECMA-262, EmptyStatement).
pub fn empty_statement(alloc: Global, parts: &mut Queue<Phrase>) -> Result<Phrase, OutOfMemory>
    ensures { IfOk result (λ p. p ≡ spec.empty_statement parts.old) }
{
    let place = parts.token().start;
    statement_phrase(alloc, Stmt::Empty { place })
}

/// An expression as a statement (ECMA-262, ExpressionStatement).
pub fn expression_statement(alloc: Global, parts: &mut Queue<Phrase>) -> Result<Phrase, OutOfMemory>
    ensures { IfOk result (λ p. p ≡ spec.expression_statement parts.old) }
{
    let expression = parts.expression(alloc)?;
    statement_phrase(alloc, Stmt::Expression(expression))
}

/// `debugger` (ECMA-262, DebuggerStatement).
pub fn debugger_statement(alloc: Global, parts: &mut Queue<Phrase>) -> Result<Phrase, OutOfMemory>
    ensures { IfOk result (λ p. p ≡ spec.debugger_statement parts.old) }
{
    let place = parts.token().start;
    statement_phrase(alloc, Stmt::Debugger { place })
}

// Loops.

ghost use Rattle.std.specs.Prelude.{◌≡◌, IfOk};
ghost use Rattle.js_stmt.specs.Loops as spec;

use crate::statements::statement_phrase;
use js_phrase::phrase::{ForHead, Phrase};
use js_phrase::queue::Queue;
use js_tree::tree::Stmt;
use lava_base::memory::OutOfMemory;
use lava_base::place::Place;
use sqlite_items::Boxed;
use std::alloc::Global;

/// `while` (ECMA-262, WhileStatement).
pub fn while_statement(alloc: Global, parts: &mut Queue<Phrase>) -> Result<Phrase, OutOfMemory>
    ensures { IfOk result (λ p. p ≡ spec.while_statement parts.old) }
{
    let place = parts.token().start;
    parts.skip();
    let test = parts.expression(alloc)?;
    parts.skip();
    let body = parts.statement(alloc)?;
    statement_phrase(alloc, Stmt::While { place, test, body })
}

/// `do` and `while` (ECMA-262, DoWhileStatement).
pub fn do_while_statement(alloc: Global, parts: &mut Queue<Phrase>) -> Result<Phrase, OutOfMemory>
    ensures { IfOk result (λ p. p ≡ spec.do_while_statement parts.old) }
{
    let place = parts.token().start;
    let body = parts.statement(alloc)?;
    parts.skip();
    parts.skip();
    let test = parts.expression(alloc)?;
    statement_phrase(alloc, Stmt::DoWhile { place, body, test })
}

/// A loop by its head.
fn loop_with(place: Place, head: ForHead, body: Boxed<Stmt>) -> Stmt
    ensures { result ≡ spec.loop_with place head body }
{
    match head {
        ForHead::Loop { init, test, update } => Stmt::For {
            place,
            init,
            test,
            update,
            body,
        },
        ForHead::Of { target, iterated } => Stmt::ForOf {
            place,
            target,
            iterated,
            body,
        },
        ForHead::In { target, object } => Stmt::ForIn {
            place,
            target,
            object,
            body,
        },
    }
}

/// `for` (ECMA-262, ForStatement), with `of` or `in` too (ECMA-262, ForInOfStatement).
pub fn for_statement(alloc: Global, parts: &mut Queue<Phrase>) -> Result<Phrase, OutOfMemory>
    ensures { IfOk result (λ p. p ≡ spec.for_statement parts.old) }
{
    let place = parts.token().start;
    parts.skip();
    let head = parts.head();
    parts.skip();
    let body = parts.statement(alloc)?;
    statement_phrase(alloc, loop_with(place, head, body))
}

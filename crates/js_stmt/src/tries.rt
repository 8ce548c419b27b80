// `try`, `catch` and `finally`.

ghost use Rattle.std.specs.Prelude.{◌≡◌, IfOk};
ghost use Rattle.js_stmt.specs.Tries as spec;

use crate::statements::statement_phrase;
use js_phrase::phrase::{Phrase, TryTail};
use js_phrase::queue::Queue;
use js_tree::tree::{Catch, Pattern, Stmt};
use lava_base::memory::OutOfMemory;
use lava_base::place::Place;
use sqlite_items::{Boxed, Items};
use std::alloc::Global;

/// A tail, as a phrase.
fn tail_phrase(alloc: Global, tail: TryTail) -> Result<Phrase, OutOfMemory>
    ensures { IfOk result (λ p. p ≡ Phrase.Tail tail) }
{
    Ok(Phrase::Tail(Boxed::new(alloc, tail)?))
}

/// `finally` (ECMA-262, Finally).
pub fn finally_clause(alloc: Global, parts: &mut Queue<Phrase>) -> Result<Phrase, OutOfMemory>
    ensures { IfOk result (λ p. p ≡ spec.finally_clause parts.old) }
{
    parts.skip();
    let block = parts.block(alloc);
    let tail = TryTail {
        parameter: None,
        handler: None,
        finalizer: Some(block),
    };
    tail_phrase(alloc, tail)
}

/// `catch`, and `finally` behind it (ECMA-262, Catch).
pub fn catch_clause(alloc: Global, parts: &mut Queue<Phrase>) -> Result<Phrase, OutOfMemory>
    ensures { IfOk result (λ p. p ≡ spec.catch_clause parts.old) }
{
    parts.skip();
    let parameter = parts.optional_pattern(alloc)?;
    let block = parts.block(alloc);
    let tail = TryTail {
        parameter,
        handler: Some(block),
        finalizer: parts.tail().finalizer,
    };
    tail_phrase(alloc, tail)
}

/// The handler with its parameter, where there is one.
fn handler_with(
    alloc: Global,
    parameter: Option<Boxed<Pattern>>,
    handler: Option<Items<Boxed<Stmt>>>,
) -> Result<Option<Boxed<Catch>>, OutOfMemory>
    ensures { IfOk result (λ h. h ≡ spec.handler_with parameter handler) }
{
    match handler {
        None => Ok(None),
        Some(body) => Ok(Some(Boxed::new(alloc, Catch { parameter, body })?)),
    }
}

fn try_with(
    alloc: Global,
    place: Place,
    block: Items<Boxed<Stmt>>,
    tail: TryTail,
) -> Result<Stmt, OutOfMemory>
    ensures { IfOk result (λ s. s ≡ spec.try_with place block tail) }
{
    let TryTail {
        parameter,
        handler,
        finalizer,
    } = tail;
    let handler = handler_with(alloc, parameter, handler)?;
    Ok(Stmt::Try {
        place,
        block,
        handler,
        finalizer,
    })
}

/// `try` (ECMA-262, TryStatement).
pub fn try_statement(alloc: Global, parts: &mut Queue<Phrase>) -> Result<Phrase, OutOfMemory>
    ensures { IfOk result (λ p. p ≡ spec.try_statement parts.old) }
{
    let place = parts.token().start;
    let block = parts.block(alloc);
    let statement = try_with(alloc, place, block, parts.tail())?;
    statement_phrase(alloc, statement)
}

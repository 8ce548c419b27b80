// `break`, `continue`, `return` and `throw`.

ghost use Rattle.std.specs.Prelude.{◌≡◌, IfOk};
ghost use Rattle.js_stmt.specs.Jumps as spec;

use crate::statements::statement_phrase;
use js_lexer::keywords::Keyword;
use js_lexer::token::TokenKind;
use js_phrase::phrase::Phrase;
use js_phrase::queue::Queue;
use js_tree::tree::{Identifier, Stmt};
use lava_base::memory::OutOfMemory;
use lava_base::place::Place;
use std::alloc::Global;

/// `continue` or `break`, by its word.
fn jump(place: Place, kind: TokenKind, label: Option<Identifier>) -> Stmt
    ensures { result ≡ spec.jump place kind label }
{
    match kind {
        TokenKind::Keyword(Keyword::Continue) => Stmt::Continue { place, label },
        _ => Stmt::Break { place, label },
    }
}

/// `break` (ECMA-262, BreakStatement) or `continue` (ECMA-262, ContinueStatement).
pub fn break_or_continue(alloc: Global, parts: &mut Queue<Phrase>) -> Result<Phrase, OutOfMemory>
    ensures { IfOk result (λ p. p ≡ spec.break_or_continue parts.old) }
{
    let word = parts.token();
    let label = parts.optional_name();
    statement_phrase(alloc, jump(word.start, word.kind, label))
}

/// `return` (ECMA-262, ReturnStatement).
pub fn return_statement(alloc: Global, parts: &mut Queue<Phrase>) -> Result<Phrase, OutOfMemory>
    ensures { IfOk result (λ p. p ≡ spec.return_statement parts.old) }
{
    let place = parts.token().start;
    let value = parts.optional_expression(alloc)?;
    statement_phrase(alloc, Stmt::Return { place, value })
}

/// `throw` (ECMA-262, ThrowStatement).
pub fn throw_statement(alloc: Global, parts: &mut Queue<Phrase>) -> Result<Phrase, OutOfMemory>
    ensures { IfOk result (λ p. p ≡ spec.throw_statement parts.old) }
{
    let place = parts.token().start;
    let value = parts.expression(alloc)?;
    statement_phrase(alloc, Stmt::Throw { place, value })
}

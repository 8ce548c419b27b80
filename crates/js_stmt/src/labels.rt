// Labels.

ghost use Rattle.std.specs.Prelude.{◌≡◌, IfOk};
ghost use Rattle.js_stmt.specs.Labels as spec;

use crate::statements::statement_phrase;
use js_expr::names::identifier;
use js_phrase::phrase::Phrase;
use js_phrase::queue::Queue;
use js_tree::tree::Stmt;
use lava_base::memory::OutOfMemory;
use std::alloc::Global;

/// A statement with a label (ECMA-262, LabelledStatement).
pub fn labelled_statement(
    alloc: Global,
    source: &[u8],
    parts: &mut Queue<Phrase>,
) -> Result<Phrase, OutOfMemory>
    ensures { IfOk result (λ p. p ≡ spec.labelled_statement source.now parts.old) }
{
    let label = identifier(alloc, source, parts.token())?;
    parts.skip();
    let body = parts.statement(alloc)?;
    statement_phrase(alloc, Stmt::Labelled { label, body })
}

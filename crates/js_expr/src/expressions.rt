// Expressions as phrases.

ghost use Rattle.std.specs.Prelude.{◌≡◌, IfOk};
ghost use Rattle.js_phrase.specs.declared.phrase.Phrase.TheVariants as phrase;

use js_phrase::phrase::Phrase;
use js_tree::tree::Expr;
use lava_base::memory::OutOfMemory;
use sqlite_items::Boxed;
use std::alloc::Global;

/// An expression, as a phrase.
pub fn expression_phrase(alloc: Global, expression: Expr) -> Result<Phrase, OutOfMemory>
    ensures { IfOk result (λ p. p ≡ phrase.Expression expression) }
{
    Ok(Phrase::Expression(Boxed::new(alloc, expression)?))
}

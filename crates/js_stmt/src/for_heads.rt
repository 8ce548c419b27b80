// What stands between the parentheses of a `for`.

ghost use Rattle.std.specs.Prelude.{◌≡◌, IfOk};
ghost use Rattle.js_stmt.specs.ForHeads as spec;

use js_cover::targets::for_target_of;
use js_phrase::phrase::{ForHead, Phrase};
use js_phrase::queue::Queue;
use js_tree::tree::ForInit;
use lava_base::memory::OutOfMemory;
use sqlite_items::Boxed;
use std::alloc::Global;

/// A head, as a phrase.
fn head_phrase(alloc: Global, head: ForHead) -> Result<Phrase, OutOfMemory>
    ensures { IfOk result (λ p. p ≡ Phrase.Head head) }
{
    Ok(Phrase::Head(Boxed::new(alloc, head)?))
}

/// The head of a `for` that begins with `;` (ECMA-262, ForStatement).
pub fn for_without_init(alloc: Global, parts: &mut Queue<Phrase>) -> Result<Phrase, OutOfMemory>
    ensures { IfOk result (λ p. p ≡ spec.for_without_init parts.old) }
{
    parts.skip();
    let test = parts.optional_expression(alloc)?;
    parts.skip();
    let update = parts.optional_expression(alloc)?;
    let head = ForHead::Loop {
        init: ForInit::NoInit,
        test,
        update,
    };
    head_phrase(alloc, head)
}

/// The head of a `for` that begins with a declaration or an expression (ECMA-262, ForStatement).
pub fn for_with_init(alloc: Global, parts: &mut Queue<Phrase>) -> Result<Phrase, OutOfMemory>
    ensures { IfOk result (λ p. p ≡ spec.for_with_init parts.old) }
{
    let init = parts.for_init(alloc)?;
    parts.skip();
    let test = parts.optional_expression(alloc)?;
    parts.skip();
    let update = parts.optional_expression(alloc)?;
    head_phrase(alloc, ForHead::Loop { init, test, update })
}

/// The head of a for-of statement (ECMA-262, ForInOfStatement).
pub fn for_of(alloc: Global, parts: &mut Queue<Phrase>) -> Result<Phrase, OutOfMemory>
    ensures { IfOk result (λ p. p ≡ spec.for_of parts.old) }
{
    let target = for_target_of(alloc, parts.next())?;
    parts.skip();
    let iterated = parts.expression(alloc)?;
    head_phrase(alloc, ForHead::Of { target, iterated })
}

/// The head of a for-in statement (ECMA-262, ForInOfStatement).
pub fn for_in(alloc: Global, parts: &mut Queue<Phrase>) -> Result<Phrase, OutOfMemory>
    ensures { IfOk result (λ p. p ≡ spec.for_in parts.old) }
{
    let target = for_target_of(alloc, parts.next())?;
    parts.skip();
    let object = parts.expression(alloc)?;
    head_phrase(alloc, ForHead::In { target, object })
}

// Branches, loops, jumps and what is guarded.

ghost use Rattle.std.specs.Prelude.{◌≡◌, IfOk};
ghost use Rattle.js_code.specs.Decoded.{layer_of, loop_at, try_at};
ghost use Rattle.js_code.specs.Settled.{Extends, Gives, Holds};
ghost use Rattle.js_term.specs.declared.term.Arguments.TheOpen.{Term-F};
ghost use Rattle.js_term.specs.declared.term.Jump.TheVariants as jump;

use crate::code::Code;
use crate::compile::place;
use crate::leaves::labels;
use crate::node::{GuardedRow, Node, TurnRow};
use crate::operands::{maybe, three, two};
use js_term::term::{Jump, Term};
use js_text::text::Text;
use lava_base::memory::OutOfMemory;
use sqlite_items::{Boxed, Items};

/// Appends what a loop has, and its row.
#[cycle(compile)]
pub(crate) fn repeated(
    depth: usize,
    code: &mut Code,
    names: &Items<Text>,
    tests_first: bool,
    test: &Boxed<Term>,
    update: &Option<Boxed<Term>>,
    body: &Boxed<Term>,
) -> Result<u32, OutOfMemory>
    ensures extends { Extends code.old code.new }
    ensures turn { Gives result (λ at. λ c low. loop_at c low tests_first at) code.new
        (Term-F.Loop names.now tests_first test.now update.now body.now) }
{
    let (test, body) = two(depth, code, test, body)?;
    let update = maybe(depth, code, update)?;
    let (labels_start, labels_count) = labels(code, names)?;
    code.push_turn(
        tests_first,
        TurnRow {
            labels_start,
            labels_count,
            test,
            update,
            body,
        },
    )
}

/// Appends what a `try` has, and its row.
#[cycle(compile)]
pub(crate) fn guarded(
    depth: usize,
    code: &mut Code,
    body: &Boxed<Term>,
    handler: &Option<Boxed<Term>>,
    finalizer: &Option<Boxed<Term>>,
) -> Result<u32, OutOfMemory>
    ensures extends { Extends code.old code.new }
    ensures guarded { Gives result (λ at. λ c low. try_at c low at) code.new
        (Term-F.Try body.now handler.now finalizer.now) }
{
    let body = place(depth, code, body)?;
    let handler = maybe(depth, code, handler)?;
    let finalizer = maybe(depth, code, finalizer)?;
    code.push_guarded(GuardedRow {
        body,
        handler,
        finalizer,
    })
}

/// The row of an `if`, of which all that it names is appended.
#[cycle(compile)]
pub(crate) fn branches(
    depth: usize,
    code: &mut Code,
    test: &Boxed<Term>,
    consequent: &Boxed<Term>,
    alternate: &Option<Boxed<Term>>,
) -> Result<Node, OutOfMemory>
    ensures extends { Extends code.old code.new }
    ensures row { Gives result (λ row. λ c low. layer_of c low row) code.new
        (Term-F.If test.now consequent.now alternate.now) }
{
    match alternate {
        None => {
            let (test, consequent) = two(depth, code, test, consequent)?;
            Ok(Node::If { test, consequent })
        }
        Some(alternate) => {
            let (test, consequent, alternate) = three(depth, code, test, consequent, alternate)?;
            Ok(Node::IfElse {
                test,
                consequent,
                alternate,
            })
        }
    }
}

/// The row of a jump that returns a value or none, which is appended.
#[cycle(compile)]
pub(crate) fn returned(
    depth: usize,
    code: &mut Code,
    value: &Option<Boxed<Term>>,
) -> Result<Node, OutOfMemory>
    ensures extends { Extends code.old code.new }
    ensures row { Gives result (λ row. λ c low. layer_of c low row) code.new
        (Term-F.Jump (jump.Return value.now)) }
{
    match value {
        None => Ok(Node::Return),
        Some(value) => {
            let value = place(depth, code, value)?;
            Ok(Node::ReturnValue { value })
        }
    }
}

/// The row of a jump, of which all that it names is appended.
#[cycle(compile)]
pub(crate) fn jump(depth: usize, code: &mut Code, jump: &Jump) -> Result<Node, OutOfMemory>
    ensures extends { Extends code.old code.new }
    ensures row { Gives result (λ row. λ c low. layer_of c low row) code.new
        (Term-F.Jump jump.now) }
{
    match jump {
        Jump::Break(label) => {
            let label = code.push_text(label)?;
            Ok(Node::Break { label })
        }
        Jump::Continue(label) => {
            let label = code.push_text(label)?;
            Ok(Node::Continue { label })
        }
        Jump::Return(value) => returned(depth, code, value),
    }
}

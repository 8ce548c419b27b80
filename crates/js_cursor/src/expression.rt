// Reading an expression.
ghost use Rattle.std.specs.Prelude.{◌≡◌, Some, None, List as Listed, IfOk, IfErr, MatchResult};
ghost use Rattle.js_cursor.specs.Cursors.{IsReadFrom, IsRefusedFrom, IsKept, IsRepeated};
ghost use Rattle.js_fault.specs.declared.fault.SyntaxFault.TheVariants as fault;
ghost use Rattle.js_grammar.specs.Grammar.{Tree};
ghost use Rattle.js_lexer.specs.declared.token.Token.{Token};
ghost use Rattle.js_reader.specs.declared.halt.Halt.{Halt};
ghost use Rattle.js_reader.specs.Runs.{IsExpressionAt, IsRunReading};

use crate::cursor::Cursor;
use js_fault::fault::SyntaxFault;
use js_parser::maker::expression_made;
use js_reader::halt::{Halt, fault_of};
use js_reader::run::{RunAnswer, RunReading, expression_reading};
use js_tree::tree::Expr;
use lava_base::memory::OutOfMemory;
use sqlite_items::Boxed;
use std::alloc::Global;

/// Makes the expression that was read, and goes on behind it.
#[tactic(auto, using(crate::proofs::Passing::read_within, crate::proofs::Passing::read_from))]
fn made_from(
    alloc: Global,
    cursor: &mut Cursor,
    read: RunReading,
) -> Result<Boxed<Expr>, SyntaxFault>
    requires { IsRunReading cursor.old.source cursor.old.left read }
    ensures read { IfOk result (IsReadFrom cursor.old cursor.new) }
    ensures memory { IfErr result (λ f. f ≡ fault.OutOfMemory) }
    ensures stays { IfErr result (λ f. cursor.new ≡ cursor.old) }
{
    match expression_made(alloc, cursor.source(), cursor.left(), read.tree.events()) {
        Ok(expression) => {
            cursor.pass_tokens(read.length);
            Ok(expression)
        }
        Err(OutOfMemory) => Err(SyntaxFault::OutOfMemory),
    }
}

/// Tells a stop and keeps it; where there is no memory for its text the cursor stays as it was.
#[tactic(auto, using(crate::proofs::Refusals::repeated))]
fn kept_refusal(alloc: Global, cursor: &mut Cursor, halt: Halt) -> SyntaxFault
    ensures { IsKept cursor.old cursor.new halt result }
{
    match fault_of(alloc, halt) {
        SyntaxFault::OutOfMemory => SyntaxFault::OutOfMemory,
        told => {
            cursor.keep_refusal(halt);
            told
        }
    }
}

/// Reads the expression that the tokens which are left begin with (ECMA-262, Expression).
///
/// It reads the longest run of them that has a partial tree of an expression, answers the tree where the run is an expression, and leaves the tokens
/// behind it. Else it answers `Unexpected` at the token behind the run, `Unsupported` or `TooDeep` at the first token that shows it, and the cursor
/// answers that from then on. `OutOfMemory` may come at any time, and leaves the cursor as it was.
#[tactic(auto, using(crate::proofs::Refusals::repeated))]
pub fn expression(alloc: Global, cursor: &mut Cursor) -> Result<Boxed<Expr>, SyntaxFault>
    ensures repeats { (h : Halt) → cursor.old.refusal ≡ Some h →
        MatchResult result (λ e. ⊥) (IsRepeated h) }
    ensures stays { (h : Halt) → cursor.old.refusal ≡ Some h → cursor.new ≡ cursor.old }
    ensures tree { cursor.old.refusal ≡ None → IfOk result (IsReadFrom cursor.old cursor.new) }
    ensures cause { cursor.old.refusal ≡ None → IfErr result (IsRefusedFrom cursor.old cursor.new) }
    ensures only { cursor.old.refusal ≡ None → (before rest : Listed Token) (x : Tree) →
        IsExpressionAt cursor.old.source cursor.old.left before rest x →
        IfErr result (λ f. f ≡ fault.OutOfMemory) }
{
    if let Some(halt) = cursor.refusal() {
        return Err(fault_of(alloc, halt));
    }
    match expression_reading(alloc, cursor.source(), cursor.left(), cursor.end()) {
        Ok(RunAnswer::Read(read)) => made_from(alloc, cursor, read),
        Ok(RunAnswer::Stopped(halt)) => Err(kept_refusal(alloc, cursor, halt)),
        Err(OutOfMemory) => Err(SyntaxFault::OutOfMemory),
    }
}

/// Lets an expression go. To let one go costs a crate two minutes of proof, which this call bears for those above.
pub fn discard(tree: Boxed<Expr>) {}

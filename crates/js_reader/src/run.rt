// Reading an expression that stands at the start of some tokens.

ghost use Rattle.std.specs.Prelude.{◌≡◌, ◌<◌, ◌^◌, length, IfOk, List as Listed};
ghost use Rattle.js_grammar.specs.Grammar.{Tree};
ghost use Rattle.js_lexer.specs.declared.token.Token.{Token};
ghost use Rattle.lava_base.specs.declared.place.Place.{Place};
ghost use Rattle.js_grammar.specs.Expressions.{expression_flat, end_mark};
ghost use Rattle.js_grammar.specs.Flat.{fed_in};
ghost use Rattle.js_reader.specs.Halts.{told_of};
ghost use Rattle.js_reader.specs.Steps.{Accepts};
ghost use Rattle.js_reader.specs.Runs.{Onward, marked_in, run_step, Steps_to, run_course, at_end_of, Reaches_run, Answers_run, IsExpressionAt, IsRead, Tells_run};

use crate::halt::{Halt, HaltCause};
use crate::reading::{alone, halt_cause, is_behind_end, lexeme_of, take_pair};
use js_grammar::laws;
use js_grammar::lexeme::Lexeme;
use js_grammar::machine::PartialTree;
use js_grammar::symbols::Terminal;
use js_lexer::token::Token;
use lava_base::memory::OutOfMemory;
use lava_base::place::Place;
use std::alloc::{AllocError, Global};

/// What comes of a token in a run.
#[derive(Clone, Copy, Drop)]
pub enum RunStep {
    /// The run goes on with it.
    Goes,
    /// The run ends before it, and an expression stands whole.
    Ends,
    /// The reading stops at it.
    Halts(HaltCause),
}

/// What comes of a run.
#[derive(Clone, Copy, Drop)]
pub enum RunEnd {
    /// So many tokens are an expression.
    Whole(u32),
    /// The reading stops.
    Halted(Halt),
}

/// An expression that was read: its tree, and how many tokens it has.
#[derive(Drop)]
pub struct RunReading {
    pub tree: PartialTree,
    pub length: u32,
}

/// What an expression at the start of some tokens comes to.
#[derive(Drop)]
pub enum RunAnswer {
    /// It was read.
    Read(RunReading),
    /// The reading stops.
    Stopped(Halt),
}

/// Takes a token with a semicolon before it.
fn take_marked(tree: &mut PartialTree, lexeme: Lexeme) -> Result<bool, AllocError>
    ensures { IfOk result (Accepts (marked_in tree.old lexeme) tree.new) }
{
    if is_behind_end(lexeme) {
        take_pair(tree, alone(Terminal::Inserted), lexeme)
    } else {
        take_pair(tree, alone(Terminal::InsertedAfterDoWhile), lexeme)
    }
}

/// What comes of a token that was taken.
fn step_of(tree: &PartialTree) -> RunStep
    ensures { Steps_to (Onward tree.now) tree.now result }
{
    match halt_cause(tree) {
        Some(cause) => RunStep::Halts(cause),
        None => RunStep::Goes,
    }
}

/// Takes a token of a run: as it stands, or else ends the run before it where an expression stands whole, or else takes it with a semicolon before it.
fn take_in_run(tree: &mut PartialTree, lexeme: Lexeme) -> Result<RunStep, AllocError>
    ensures { IfOk result (Steps_to (run_step tree.old lexeme) tree.new) }
{
    if tree.take(lexeme)? {
        return Ok(step_of(tree));
    }
    if tree.take(alone(Terminal::End))? {
        return Ok(RunStep::Ends);
    }
    if take_marked(tree, lexeme)? {
        return Ok(step_of(tree));
    }
    Ok(RunStep::Halts(HaltCause::Unexpected))
}

/// Ends a run behind all tokens.
fn end_run(tree: &mut PartialTree, at: u32, end: Place) -> Result<RunEnd, AllocError>
    ensures { IfOk result (Reaches_run (at_end_of end at (fed_in tree.old end_mark)) tree.new) }
{
    if tree.take(alone(Terminal::End))? {
        Ok(RunEnd::Whole(at))
    } else {
        let cause = HaltCause::Unexpected;
        Ok(RunEnd::Halted(Halt { place: end, cause }))
    }
}

/// Takes the tokens of a run up to its end.
fn take_run(
    tree: &mut PartialTree,
    source: &[u8],
    tokens: &[Token],
    end: Place,
) -> Result<RunEnd, AllocError>
    requires { length tokens.now < 2 ^ 32 }
    ensures { IfOk result (Reaches_run (run_course source.now end 0 tree.old tokens.now) tree.new) }
{
    let mut rest = tokens;
    let mut at: u32 = 0;
    while let [token, later @ ..] = rest {
        let lexeme = lexeme_of(source, at, token, later);
        match take_in_run(tree, lexeme)? {
            RunStep::Goes => {}
            RunStep::Ends => return Ok(RunEnd::Whole(at)),
            RunStep::Halts(cause) => {
                let place = token.start;
                return Ok(RunEnd::Halted(Halt { place, cause }));
            }
        }
        rest = later;
        at += 1;
    }
    end_run(tree, at, end)
}

/// The course of a run.
fn run_of(
    alloc: Global,
    source: &[u8],
    tokens: &[Token],
    end: Place,
) -> Result<RunAnswer, OutOfMemory>
    ensures { let course = run_course source.now end 0 expression_flat tokens.now in
        IfOk result (Answers_run course) }
{
    if tokens.len() > u32::MAX as usize {
        return Err(OutOfMemory);
    }
    let mut tree = PartialTree::of_expression(alloc)?;
    match take_run(&mut tree, source, tokens, end)? {
        RunEnd::Whole(length) => Ok(RunAnswer::Read(RunReading { tree, length })),
        RunEnd::Halted(halt) => Ok(RunAnswer::Stopped(halt)),
    }
}

/// Reads the expression that stands at the start of some tokens of a source, which ends at a place (ECMA-262, Expression).
///
/// It reads the longest run of the tokens that has a partial tree of an expression, and answers the tree where the run is an expression. It stops by
/// `Unexpected` at the token behind the run, or at the end, where it is none; by `LeftOut` and `TooDeep` at the first token at which each partial
/// tree has a form that the language leaves out, or none has as few as 256 levels.
pub fn expression_reading(
    alloc: Global,
    source: &[u8],
    tokens: &[Token],
    end: Place,
) -> Result<RunAnswer, OutOfMemory>
    ensures told { IfOk result (Tells_run source.now tokens.now end) }
    ensures only { (before rest : Listed Token) (x : Tree) →
        IsExpressionAt source.now tokens.now before rest x → IfOk result IsRead }
{
    laws::expressions();
    laws::expression_limits();
    laws::flatly();
    run_of(alloc, source, tokens, end)
}

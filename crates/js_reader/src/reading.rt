// Reading the tokens of a source by the grammar, with semicolons inserted.

ghost use Rattle.std.specs.Prelude.{◌≡◌, ◌<◌, ◌^◌, length, reverse, IfOk, IfErr, MatchResult};
ghost use Rattle.lava_base.specs.declared.place.Place.{Place};
ghost use Rattle.js_grammar.specs.Grammar.{Row};
ghost use Rattle.js_grammar.specs.Laws.{from_flat, rule_stands};
ghost use Rattle.js_reader.specs.Steps.{alone, lexeme_of, paired_in, stepped_in, course, source_course, Accepts, Reaches, Answers_course};
ghost use Rattle.js_reader.specs.Halts.{told_of, Ends_step};
ghost use Rattle.js_reader.specs.Reading.{IsTree, IsInLanguage, IsRefusal, HasReason, events_of};
ghost use Rattle.js_fault.specs.declared.fault.SyntaxFault.TheVariants as fault;
ghost use Rattle.js_fault.specs.declared.fault.SyntaxWhat.{SyntaxWhat};

use crate::halt::{Halt, HaltCause, fault_of};
use crate::terminals::terminal_of;
use js_fault::fault::SyntaxFault;
use js_grammar::event::Event;
use js_grammar::laws;
use js_grammar::lexeme::Lexeme;
use js_grammar::machine::PartialTree;
use js_grammar::symbols::Terminal;
use js_lexer::token::Token;
use lava_base::place::Place;
use std::alloc::{AllocError, Global};
use std::marker::Model;

/// What the tokens of a source are by the grammar: a tree, as a list of events.
#[derive(Drop)]
pub struct Reading {
    tree: PartialTree,
}

impl Model for Reading {
    ghost use Rattle.js_grammar.specs.Flat.{Flat};

    ghost Value = { Flat };

    ghost view = { λ r. r.tree };
}

impl Reading {
    /// The events of the tree, in the order of the text, each production behind its parts.
    pub fn events(&self) -> &[Event]
        ensures { reverse result.now ≡ self.now.out }
    {
        self.tree.events()
    }
}

/// A token that is none of the list: the start of a source, its end, an inserted semicolon.
pub fn alone(terminal: Terminal) -> Lexeme
    ensures { result ≡ alone terminal }
{
    Lexeme {
        terminal,
        after_line: false,
        at: 0,
    }
}

/// Whether a semicolon may be inserted before a token, wherever a statement may end (ECMA-262, Rules of Automatic Semicolon Insertion).
pub fn is_behind_end(lexeme: Lexeme) -> bool
    ensures { result ≡ rule_stands lexeme }
{
    lexeme.after_line || matches!(lexeme.terminal, Terminal::RightBrace | Terminal::End)
}

/// Takes an inserted semicolon and a token behind it.
pub fn take_pair(tree: &mut PartialTree, mark: Lexeme, lexeme: Lexeme) -> Result<bool, AllocError>
    ensures { IfOk result (Accepts (paired_in mark tree.old lexeme) tree.new) }
{
    if !tree.take(mark)? {
        return Ok(false);
    }
    tree.take(lexeme)
}

/// Takes a token, with a semicolon before it where one is inserted.
fn take_step(tree: &mut PartialTree, lexeme: Lexeme) -> Result<bool, AllocError>
    ensures { IfOk result (Accepts (stepped_in tree.old lexeme) tree.new) }
{
    if tree.take(lexeme)? {
        return Ok(true);
    }
    if is_behind_end(lexeme) {
        take_pair(tree, alone(Terminal::Inserted), lexeme)
    } else {
        take_pair(tree, alone(Terminal::InsertedAfterDoWhile), lexeme)
    }
}

/// What stops a reading where the tokens so far stand: a form that is left out first, and then levels.
pub fn halt_cause(tree: &PartialTree) -> Option<HaltCause>
    ensures { result ≡ told_of tree.now }
{
    match tree.left_out() {
        Some(form) => Some(HaltCause::LeftOut(form)),
        None => {
            if tree.is_too_deep() {
                Some(HaltCause::TooDeep)
            } else {
                None
            }
        }
    }
}

/// Takes a token that stands at a place, and tells where the reading stops there.
fn take_token(
    tree: &mut PartialTree,
    lexeme: Lexeme,
    place: Place,
) -> Result<Option<Halt>, AllocError>
    ensures { IfOk result (Ends_step place (stepped_in tree.old lexeme) tree.new) }
{
    if !take_step(tree, lexeme)? {
        let cause = HaltCause::Unexpected;
        return Ok(Some(Halt { place, cause }));
    }
    match halt_cause(tree) {
        Some(cause) => Ok(Some(Halt { place, cause })),
        None => Ok(None),
    }
}

/// A token at a place of the list, before others, as the grammar sees it.
pub fn lexeme_of(source: &[u8], at: u32, token: &Token, later: &[Token]) -> Lexeme
    ensures { result ≡ lexeme_of source.now at token.now later.now }
{
    Lexeme {
        terminal: terminal_of(source, token, later),
        after_line: token.after_line,
        at,
    }
}

/// Takes tokens up to one at which the reading stops.
#[tactic(auto, using(crate::proofs::Taking::stuck_so, crate::proofs::Taking::onward_so))]
fn take_tokens(
    tree: &mut PartialTree,
    source: &[u8],
    tokens: &[Token],
) -> Result<Option<Halt>, AllocError>
    requires { length tokens.now < 2 ^ 32 }
    ensures { IfOk result (Reaches (course source.now 0 tree.old tokens.now) tree.new) }
{
    let mut rest = tokens;
    let mut at: u32 = 0;
    while let [token, later @ ..] = rest {
        let lexeme = lexeme_of(source, at, token, later);
        if let Some(halt) = take_token(tree, lexeme, token.start)? {
            return Ok(Some(halt));
        }
        rest = later;
        at += 1;
    }
    Ok(None)
}

/// Takes the tokens of a source from its start to its end, and tells where the reading stops.
#[tactic(auto, using(crate::proofs::Taking::stuck_so, crate::proofs::Taking::onward_so))]
fn take_source(
    tree: &mut PartialTree,
    source: &[u8],
    tokens: &[Token],
    end: Place,
) -> Result<Option<Halt>, AllocError>
    requires { length tokens.now < 2 ^ 32 }
    ensures { IfOk result (Reaches (source_course source.now tree.old tokens.now end) tree.new) }
{
    if let Some(halt) = take_token(tree, alone(Terminal::Start), end)? {
        return Ok(Some(halt));
    }
    if let Some(halt) = take_tokens(tree, source, tokens)? {
        return Ok(Some(halt));
    }
    take_token(tree, alone(Terminal::End), end)
}

/// The course of the tokens of a source, from its start to its end.
fn reading_of(
    alloc: Global,
    source: &[u8],
    tokens: &[Token],
    end: Place,
) -> Result<Reading, SyntaxFault>
    ensures { Answers_course (source_course source.now from_flat tokens.now end) result }
{
    if tokens.len() > u32::MAX as usize {
        return Err(SyntaxFault::OutOfMemory);
    }
    let mut tree = PartialTree::new(alloc)?;
    match take_source(&mut tree, source, tokens, end)? {
        Some(halt) => Err(fault_of(alloc, halt)),
        None => Ok(Reading { tree }),
    }
}

/// Reads the tokens of a source, which ends at a place, as a module: it answers the events of its tree.
///
/// It answers at the first token that stops the reading: `Unsupported` where each partial tree of the tokens up to and with it has a form that
/// the language leaves out, `TooDeep` where none has as few as 256 levels, `Unexpected` where they have no partial tree, with semicolons inserted
/// by ECMA-262's rules; the end of the source is such a token where the tokens have no tree. `OutOfMemory` may come of any source.
pub fn module_reading(
    alloc: Global,
    source: &[u8],
    tokens: &[Token],
    end: Place,
) -> Result<Reading, SyntaxFault>
    ensures tree { IfOk result (λ r. (parts : Row) × IsTree source.now tokens.now parts
        × (r.out ≡ events_of parts)) }
    ensures within { IfOk result (λ r. IsInLanguage source.now tokens.now) }
    ensures only { let known = IsInLanguage source.now tokens.now in
        (parts : Row) → IsTree source.now tokens.now parts → known →
        MatchResult result (λ r. r.out ≡ events_of parts) (λ f. f ≡ fault.OutOfMemory) }
    ensures cause { IfErr result (HasReason source.now tokens.now end) }
    ensures refused { (p : Place) (w : SyntaxWhat) →
        HasReason source.now tokens.now end (fault.At p w) →
        MatchResult result (λ r. ⊥) (IsRefusal p w) }
{
    laws::exactly();
    laws::prefixes();
    laws::flatly();
    laws::limits();
    laws::semicolons();
    reading_of(alloc, source, tokens, end)
}

// Reading a source.

ghost use Rattle.std.specs.Prelude.{◌≡◌, IfOk, IfErr, MatchResult};
ghost use Rattle.lava_base.specs.declared.place.Place.{Place};
ghost use Rattle.js_fault.specs.declared.fault.SyntaxFault.TheVariants as fault;
ghost use Rattle.js_fault.specs.declared.fault.SyntaxWhat.{SyntaxWhat};
ghost use Rattle.js_reader.specs.Sources.{HasSourceTree, IsReading, IsSyntaxFault, HasSyntaxCause};
ghost use Rattle.js_reader.specs.Reading.{IsTree, IsInLanguage, HasReason, IsRefusal, events_of};
ghost use Rattle.js_grammar.specs.Grammar.{Row};

use crate::reading::{Reading, module_reading};
use js_fault::fault::SyntaxFault;
use js_lexer::lexer::{end_of, tokens};
use js_lexer::spot::MAX_SOURCE;
use js_lexer::token::Token;
use lava_base::list::List;
use lava_base::place::Place;
use std::alloc::Global;

/// The tokens of a source, and what they are by the grammar.
#[derive(Drop)]
pub struct SourceReading {
    pub tokens: List<Token>,
    pub reading: Reading,
}

/// Reads the tokens of a source, and keeps them.
fn token_reading(
    alloc: Global,
    source: &[u8],
    tokens: List<Token>,
    end: Place,
) -> Result<SourceReading, SyntaxFault>
    ensures kept { IfOk result (λ r. r.tokens ≡ tokens) }
    ensures tree { IfOk result (λ r. (parts : Row) × IsTree source.now tokens parts
        × (r.reading.out ≡ events_of parts)) }
    ensures within { IfOk result (λ r. IsInLanguage source.now tokens) }
    ensures only { (parts : Row) → IsTree source.now tokens parts → IsInLanguage source.now tokens
        → MatchResult result (λ r. Unit {0}) (λ f. f ≡ fault.OutOfMemory) }
    ensures cause { IfErr result (HasReason source.now tokens end) }
    ensures refused { (p : Place) (w : SyntaxWhat) → HasReason source.now tokens end (fault.At p w)
        → MatchResult result (λ r. ⊥) (IsRefusal p w) }
{
    match module_reading(alloc, source, tokens.as_slice(), end) {
        Ok(reading) => Ok(SourceReading { tokens, reading }),
        Err(fault) => Err(fault),
    }
}

/// Reads a source as a module (ECMA-262, ParseText with Module as the goal): it answers its tokens and the events of its tree.
///
/// A lexical fault comes before a syntactic one. `OutOfMemory` may come of any source, and comes of one of more than `MAX_SOURCE` bytes.
pub fn source_reading(alloc: Global, source: &[u8]) -> Result<SourceReading, SyntaxFault>
    ensures tree { IfOk result (λ r. IsReading source.now r.tokens r.reading) }
    ensures only { HasSourceTree source.now →
        MatchResult result (λ r. Unit {0}) (λ f. f ≡ fault.OutOfMemory) }
    ensures cause { IfErr result (HasSyntaxCause source.now) }
    ensures refused { (p : Place) (w : SyntaxWhat) → IsSyntaxFault source.now p w →
        MatchResult result (λ r. ⊥) (IsRefusal p w) }
{
    if source.len() > MAX_SOURCE as usize {
        return Err(SyntaxFault::OutOfMemory);
    }
    match tokens(alloc, source) {
        Ok(tokens) => token_reading(alloc, source, tokens, end_of(alloc, source)),
        Err(fault) => Err(fault),
    }
}

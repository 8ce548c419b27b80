// Reading a source to its syntax tree.

ghost use Rattle.std.specs.Prelude.{◌≡◌, IfOk, IfErr, MatchResult, reverse};
ghost use Rattle.lava_base.specs.declared.place.Place.{Place};
ghost use Rattle.js_fault.specs.declared.fault.SyntaxFault.TheVariants as fault;
ghost use Rattle.js_fault.specs.declared.fault.SyntaxWhat.{SyntaxWhat};
ghost use Rattle.js_grammar.specs.Grammar.{Row};
ghost use Rattle.js_reader.specs.Reading.{IsRefusal, events_of};
ghost use Rattle.js_reader.specs.Sources.{HasSourceTree, IsSyntaxFault, HasSyntaxCause};
ghost use Rattle.js_parser.specs.Modules.{module_from};
ghost use Rattle.js_tree.specs.declared.tree.SourceKind.TheVariants as kinds;
ghost use Rattle.js_parser.specs.Trees.{module_of, IsModuleOf};

use crate::maker::module_phrase;
use crate::modules::module_from;
use js_fault::fault::SyntaxFault;
use js_grammar::event::Event;
use js_lexer::token::Token;
use js_reader::source::source_reading;
use js_tree::tree::{Module, SourceKind};
use std::alloc::Global;

/// The module of the events of its tree.
#[tactic(auto, using(crate::proofs::Made::made_parts))]
fn made_module(
    alloc: Global,
    kind: SourceKind,
    source: &[u8],
    tokens: &[Token],
    events: &[Event],
) -> Result<Module, SyntaxFault>
    ensures made { (parts : Row) → reverse events.now ≡ events_of parts →
        IfOk result (λ m. m ≡ module_of kind source.now tokens.now parts) }
    ensures memory { IfErr result (λ f. f ≡ fault.OutOfMemory) }
{
    match module_phrase(alloc, source, tokens, events) {
        Ok(phrase) => Ok(module_from(alloc, kind, phrase)),
        Err(_) => Err(SyntaxFault::OutOfMemory),
    }
}

/// Reads a source of a kind (ECMA-262, ParseText with Module as the goal): it answers its syntax tree.
///
/// A lexical fault comes before a syntactic one. `OutOfMemory` may come of any source, and comes of one of more than `MAX_SOURCE` bytes.
pub fn parse_source(alloc: Global, kind: SourceKind, source: &[u8]) -> Result<Module, SyntaxFault>
    ensures tree { IfOk result (IsModuleOf kind source.now) }
    ensures only { HasSourceTree source.now →
        MatchResult result (λ m. Unit {0}) (λ f. f ≡ fault.OutOfMemory) }
    ensures cause { IfErr result (HasSyntaxCause source.now) }
    ensures refused { (p : Place) (w : SyntaxWhat) → IsSyntaxFault source.now p w →
        MatchResult result (λ m. ⊥) (IsRefusal p w) }
{
    match source_reading(alloc, source) {
        Ok(read) => made_module(
            alloc,
            kind,
            source,
            read.tokens.as_slice(),
            read.reading.events(),
        ),
        Err(fault) => Err(fault),
    }
}

/// Reads a source as a module (ECMA-262, ParseText with Module as the goal): it answers its syntax tree.
///
/// A lexical fault comes before a syntactic one. `OutOfMemory` may come of any source, and comes of one of more than `MAX_SOURCE` bytes.
pub fn parse_module(alloc: Global, source: &[u8]) -> Result<Module, SyntaxFault>
    ensures tree { IfOk result (IsModuleOf kinds.Module source.now) }
    ensures only { HasSourceTree source.now →
        MatchResult result (λ m. Unit {0}) (λ f. f ≡ fault.OutOfMemory) }
    ensures cause { IfErr result (HasSyntaxCause source.now) }
    ensures refused { (p : Place) (w : SyntaxWhat) → IsSyntaxFault source.now p w →
        MatchResult result (λ m. ⊥) (IsRefusal p w) }
{
    parse_source(alloc, SourceKind::Module, source)
}

/// Reads a text that a compartment evaluates: it has the grammar of a module, and its tree says that it is such a text.
///
/// It answers as `parse_module` does.
pub fn parse_text(alloc: Global, source: &[u8]) -> Result<Module, SyntaxFault>
    ensures tree { IfOk result (IsModuleOf kinds.EvaluatedText source.now) }
    ensures only { HasSourceTree source.now →
        MatchResult result (λ m. Unit {0}) (λ f. f ≡ fault.OutOfMemory) }
    ensures cause { IfErr result (HasSyntaxCause source.now) }
    ensures refused { (p : Place) (w : SyntaxWhat) → IsSyntaxFault source.now p w →
        MatchResult result (λ m. ⊥) (IsRefusal p w) }
{
    parse_source(alloc, SourceKind::EvaluatedText, source)
}

/// Lets a tree go. To let one go costs a crate two minutes of proof, which this call bears for those above.
pub fn discard(tree: Module) {}

// Reading a program.

ghost use Rattle.std.specs.Prelude.{◌≡◌, None, IfOk, IfErr, MatchResult};
ghost use Rattle.lava_base.specs.declared.place.Place.{Place};
ghost use Rattle.js_early.specs.Walks as early;
ghost use Rattle.js_fault.specs.declared.fault.SyntaxFault.TheVariants as fault;
ghost use Rattle.js_fault.specs.declared.fault.SyntaxWhat.{SyntaxWhat};
ghost use Rattle.js_program.specs.Programs.{IsProgram, HasProgram, IsProgramFault, HasProgramCause};
ghost use Rattle.js_reader.specs.Reading.{IsRefusal};

use crate::laws::one_tree;
use js_early::early::check_early;
use js_fault::fault::SyntaxFault;
use js_parser::parse::{discard, parse_source};
use js_tree::tree::{Module, SourceKind};
use std::alloc::Global;

/// A syntax tree, if it has no early error.
fn checked(alloc: Global, tree: Module) -> Result<Module, SyntaxFault>
    ensures same { IfOk result (λ m. m ≡ tree) }
    ensures ok { IfOk result (λ m. early.early_error tree ≡ None) }
    ensures early { IfErr result (early.IsRefusal (early.early_error tree)) }
{
    match check_early(alloc, &tree) {
        Ok(()) => Ok(tree),
        Err(fault) => {
            discard(tree);
            Err(fault)
        }
    }
}

/// Reads a source of a kind as a program (ECMA-262, ParseText with Module as the goal): it answers its syntax tree, which has no early error.
///
/// A lexical fault comes before a syntactic one, and that before an early error. `OutOfMemory` may come of any source, and comes of one of more
/// than `MAX_SOURCE` bytes.
#[tactic(auto, using(crate::proofs::Programs_laws::tree_program, crate::proofs::Programs_laws::fault_only, crate::proofs::Programs_laws::fault_refused, crate::proofs::Programs_laws::fault_cause))]
pub fn read_program(alloc: Global, kind: SourceKind, source: &[u8]) -> Result<Module, SyntaxFault>
    ensures program { IfOk result (IsProgram kind source.now) }
    ensures only { HasProgram kind source.now →
        MatchResult result (λ m. Unit {0}) (λ f. f ≡ fault.OutOfMemory) }
    ensures cause { IfErr result (HasProgramCause kind source.now) }
    ensures refused { (p : Place) (w : SyntaxWhat) → IsProgramFault kind source.now p w →
        MatchResult result (λ m. ⊥) (IsRefusal p w) }
{
    one_tree();
    match parse_source(alloc, kind, source) {
        Ok(tree) => checked(alloc, tree),
        Err(fault) => Err(fault),
    }
}

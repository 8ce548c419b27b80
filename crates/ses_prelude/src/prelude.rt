// Reading a prelude.

ghost use Rattle.std.specs.Prelude.{◌≡◌, Some, IfOk, IfErr, MatchResult};
ghost use Rattle.lava_base.specs.declared.place.Place.{Place};
ghost use Rattle.js_fault.specs.declared.fault.SyntaxFault.TheVariants as fault;
ghost use Rattle.js_fault.specs.declared.fault.SyntaxWhat.{SyntaxWhat};
ghost use Rattle.js_reader.specs.Reading.{IsRefusal};
ghost use Rattle.ses_prelude.specs.Functions.{intrinsics_of};
ghost use Rattle.ses_prelude.specs.Helpers.{IsMadeOf};
ghost use Rattle.ses_prelude.specs.Preludes.{AreValid, prelude, IsPrelude, HasIntrinsics, IsPreludeFault, HasPreludeCause};

use crate::templates::intrinsics_of;
use crate::text::prelude_text;
use crate::validity::are_valid;
use js_fault::fault::{SyntaxFault, SyntaxWhat};
use js_program::laws::one_tree;
use js_program::program::read_program;
use js_tree::tree::{Module, SourceKind};
use lava_base::memory::OutOfMemory;
use lava_base::name::Name;
use lava_base::place::Place;
use ses_lockdown::intrinsics::Intrinsics;
use std::alloc::Global;

/// What is told of a program that makes no intrinsics.
fn no_prelude(alloc: Global) -> SyntaxFault
    ensures { Rattle.ses_prelude.specs.Helpers.IsNoPreludeFault result }
{
    match Name::of(alloc, "prelude") {
        Ok(name) => SyntaxFault::At {
            place: Place { line: 1, unit: 1 },
            what: SyntaxWhat::Early(name),
        },
        Err(OutOfMemory) => SyntaxFault::OutOfMemory,
    }
}

/// Intrinsics whose templates are valid, or that they are no prelude.
fn with_valid(alloc: Global, intrinsics: Intrinsics) -> Result<Intrinsics, SyntaxFault>
    ensures { IsMadeOf (Some intrinsics) result }
{
    match are_valid(alloc, intrinsics.templates.as_slice()) {
        Ok(true) => Ok(intrinsics),
        Ok(false) => Err(no_prelude(alloc)),
        Err(OutOfMemory) => Err(SyntaxFault::OutOfMemory),
    }
}

/// The intrinsics that a program makes, or why it makes none.
fn made_of(alloc: Global, tree: &Module) -> Result<Intrinsics, SyntaxFault>
    ensures { IsMadeOf (intrinsics_of tree.now.body) result }
{
    match intrinsics_of(alloc, tree.body.as_slice()) {
        Ok(Some(intrinsics)) => with_valid(alloc, intrinsics),
        Ok(None) => Err(no_prelude(alloc)),
        Err(OutOfMemory) => Err(SyntaxFault::OutOfMemory),
    }
}

/// The intrinsics that a source makes: each function that it declares is the body of its common object. A source that is no program is refused
/// as js_program refuses it, and a program that declares anything but functions of the common part, lacks one of them, or has one whose template is not
/// valid, with `prelude` at its start.
///
/// `OutOfMemory` may come of any source.
pub fn read_intrinsics(alloc: Global, source: &[u8]) -> Result<Intrinsics, SyntaxFault>
    ensures made { IfOk result (IsPrelude source.now) }
    ensures valid { IfOk result (λ i. AreValid i.templates) }
    ensures only { HasIntrinsics source.now →
        MatchResult result (λ i. Unit {0}) (λ f. f ≡ fault.OutOfMemory) }
    ensures cause { IfErr result (HasPreludeCause source.now) }
    ensures refused { (p : Place) (w : SyntaxWhat) → IsPreludeFault source.now p w →
        MatchResult result (λ i. ⊥) (IsRefusal p w) }
{
    one_tree();
    match read_program(alloc, SourceKind::Module, source) {
        Ok(tree) => made_of(alloc, &tree),
        Err(fault) => Err(fault),
    }
}

/// The intrinsics that the prelude makes.
pub fn read_prelude(alloc: Global) -> Result<Intrinsics, SyntaxFault>
    ensures made { IfOk result (IsPrelude prelude) }
    ensures valid { IfOk result (λ i. AreValid i.templates) }
    ensures only { HasIntrinsics prelude →
        MatchResult result (λ i. Unit {0}) (λ f. f ≡ fault.OutOfMemory) }
    ensures cause { IfErr result (HasPreludeCause prelude) }
    ensures refused { (p : Place) (w : SyntaxWhat) → IsPreludeFault prelude p w →
        MatchResult result (λ i. ⊥) (IsRefusal p w) }
{
    read_intrinsics(alloc, prelude_text().as_bytes())
}

// The common part of a run.

ghost use Rattle.std.specs.Prelude.{◌≡◌, IfOk, MatchResult};
ghost use Rattle.lava_base.specs.declared.place.Place.{Place};
ghost use Rattle.js_fault.specs.declared.fault.SyntaxWhat.{SyntaxWhat};
ghost use Rattle.ses_lockdown.specs.declared.intrinsics.Intrinsics.{Intrinsics};
ghost use Rattle.ses_prelude.specs.Preludes.{prelude};
ghost use Rattle.lava_packages.specs.Commons.{HasRunCause, IsCommonOf, IsCommonPart};

use js_fault::fault::{SyntaxFault, SyntaxWhat};
use js_store::frozen::FrozenStore;
use js_term::term::Template;
use lava_base::list::List;
use lava_base::memory::OutOfMemory;
use lava_base::place::Place;
use ses_lockdown::intrinsics::Intrinsics;
use ses_lockdown::lockdown::lockdown;
use ses_prelude::prelude::read_prelude;
use std::alloc::Global;

/// The locked objects that all parties share, and the templates of their functions.
#[derive(Drop)]
pub struct CommonPart {
    pub objects: FrozenStore,
    pub templates: List<Template>,
}

/// Why there is no run.
#[derive(Drop)]
pub enum RunFault {
    /// The prelude is no program of the language, lacks the function of a common object, or has a template that is not valid: what is wrong, and at which place. It does not come.
    Prelude(Place, SyntaxWhat),
    /// There was no memory.
    OutOfMemory,
}

impl From<OutOfMemory> for RunFault {
    ghost use Rattle.lava_packages.specs.declared.common.RunFault.TheVariants as fault;

    ghost from_gives = { λ _ f. f ≡ fault.OutOfMemory };

    fn from(_: OutOfMemory) -> RunFault {
        RunFault::OutOfMemory
    }
}

/// The common part that intrinsics make.
fn common_of(alloc: Global, read: Intrinsics) -> Result<CommonPart, OutOfMemory>
    ensures { IfOk result (IsCommonOf read) }
{
    let mut intrinsics = read;
    let templates = intrinsics.take_templates(alloc);
    let objects = lockdown(alloc, intrinsics)?;
    Ok(CommonPart { objects, templates })
}

/// The common part that the prelude makes (SES, lockdown).
pub fn common_part(alloc: Global) -> Result<CommonPart, RunFault>
    ensures part { IfOk result IsCommonPart }
    ensures cause { MatchResult result (λ p. Unit {0}) HasRunCause }
{
    match read_prelude(alloc) {
        Ok(intrinsics) => Ok(common_of(alloc, intrinsics)?),
        Err(SyntaxFault::At { place, what }) => Err(RunFault::Prelude(place, what)),
        Err(SyntaxFault::OutOfMemory) => Err(RunFault::OutOfMemory),
    }
}

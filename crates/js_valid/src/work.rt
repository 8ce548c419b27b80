// What is still to be looked at.

ghost use Rattle.std.specs.Prelude.{◌≡◌, ◌∷◌, [], OnOk, MatchOption};
ghost use Rattle.js_valid.specs.Inner as inner;
ghost use Rattle.js_valid.specs.Work as spec;
ghost use Rattle.js_valid.specs.Work.{pending, step_of};
ghost use Rattle.js_valid.specs.Surroundings.{round_of};

use crate::surrounding::Surrounding;
use js_term::term::{Part, Template, Term};
use lava_base::memory::OutOfMemory;

/// What is looked at by itself.
#[derive(Clone, Copy, Drop)]
pub enum TermItem<'a> {
    OneTerm(&'a Term),
    OnePart(&'a Part),
    OneTemplate(&'a Template),
}

/// An item inside another one, and what it stands in there that the other one does not.
#[derive(Clone, Copy, Drop)]
pub struct InnerItem<'a> {
    pub round: Option<Surrounding<'a>>,
    pub item: TermItem<'a>,
}

/// A step that is still to be taken.
#[derive(Clone, Copy, Drop)]
pub enum PendingItem<'a> {
    /// An item is looked at.
    Visit(InnerItem<'a>),
    /// What stands innermost is left.
    Leave,
}

/// Puts a step before all others.
#[tactic(auto, using(crate::proofs::Pending_laws::pending_push))]
pub fn push<'a>(work: &mut Vec<PendingItem<'a>>, step: PendingItem<'a>) -> Result<(), OutOfMemory>
    ensures { OnOk result (pending work.new.items ≡ step_of step.entry ∷ pending work.old.items) }
{
    work.push(step)?;
    Ok(())
}

/// Takes the first step.
#[tactic(auto, using(crate::proofs::Pending_laws::pending_push))]
pub fn pop<'a>(work: &mut Vec<PendingItem<'a>>) -> Option<PendingItem<'a>>
    ensures { MatchOption result (pending work.old.items ≡ [])
        (λ first. pending work.old.items ≡ step_of first ∷ pending work.new.items) }
{
    work.pop()
}

/// Puts an item before all steps.
pub fn plain<'a>(work: &mut Vec<PendingItem<'a>>, item: TermItem<'a>) -> Result<(), OutOfMemory>
    ensures { let first = spec.Visit (inner.plain (spec.item_of item.entry)) in
        OnOk result (pending work.new.items ≡ first ∷ pending work.old.items) }
{
    push(work, PendingItem::Visit(InnerItem { round: None, item }))
}

/// Puts an item before all steps that stands in something more.
pub fn within<'a>(
    work: &mut Vec<PendingItem<'a>>,
    round: Surrounding<'a>,
    item: TermItem<'a>,
) -> Result<(), OutOfMemory>
    ensures { let first = spec.Visit (inner.within (round_of round.entry) (spec.item_of item.entry)) in
        OnOk result (pending work.new.items ≡ first ∷ pending work.old.items) }
{
    let round = Some(round);
    push(work, PendingItem::Visit(InnerItem { round, item }))
}

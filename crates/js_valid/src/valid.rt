// The test of a whole template.

ghost use Rattle.std.specs.Prelude.{◌≡◌, ◌↔◌, IfOk, OnOk, IsTrue};
ghost use Rattle.js_valid.specs.Inner as inner;
ghost use Rattle.js_valid.specs.Surroundings.{place};
ghost use Rattle.js_valid.specs.Valid.{IsValid};
ghost use Rattle.js_valid.specs.Work as spec;
ghost use Rattle.js_valid.specs.Work.{AreSteps, pending, step_of};

use crate::inner::inside;
use crate::own::stands;
use crate::surrounding::Surrounding;
use crate::work::{InnerItem, PendingItem, TermItem, plain, pop, push};
use js_term::term::Template;
use lava_base::memory::OutOfMemory;
use std::alloc::Global;

#[tactic(auto, using(crate::proofs::Pending_laws::place_push))]
fn enter<'a>(
    work: &mut Vec<PendingItem<'a>>,
    round: &mut Vec<Surrounding<'a>>,
    of: Option<Surrounding<'a>>,
) -> Result<(), OutOfMemory>
    ensures place { let entered = spec.maybe_round of.entry in
        OnOk result (place round.new.items ≡ inner.entered (place round.old.items) entered) }
    ensures work { let entered = spec.maybe_round of.entry in
        OnOk result (pending work.new.items ≡ spec.left_after entered (pending work.old.items)) }
{
    match of {
        None => Ok(()),
        Some(entered) => {
            round.push(entered)?;
            push(work, PendingItem::Leave)
        }
    }
}

fn visit<'a>(
    work: &mut Vec<PendingItem<'a>>,
    round: &mut Vec<Surrounding<'a>>,
    of: InnerItem<'a>,
) -> Result<bool, OutOfMemory>
    ensures stands { let step = spec.Visit (spec.inner_of of.entry) in
        IfOk result (λ valid. valid ≡ spec.step_stands (place round.old.items) step) }
    ensures place { let step = spec.Visit (spec.inner_of of.entry) in
        OnOk result (place round.new.items ≡ spec.place_after (place round.old.items) step) }
    ensures work { let step = spec.Visit (spec.inner_of of.entry) in
        OnOk result (pending work.new.items ≡ spec.steps_after step (pending work.old.items)) }
{
    enter(work, round, of.round)?;
    inside(work, of.item)?;
    Ok(stands(round, of.item))
}

#[tactic(auto, using(crate::proofs::Pending_laws::place_push))]
fn leave<'a>(round: &mut Vec<Surrounding<'a>>)
    ensures { place round.new.items ≡ spec.outer (place round.old.items) }
{
    let _ = round.pop();
}

fn step<'a>(
    work: &mut Vec<PendingItem<'a>>,
    round: &mut Vec<Surrounding<'a>>,
    next: PendingItem<'a>,
) -> Result<bool, OutOfMemory>
    ensures stands { let step = step_of next.entry in
        IfOk result (λ valid. valid ≡ spec.step_stands (place round.old.items) step) }
    ensures place { let step = step_of next.entry in
        OnOk result (place round.new.items ≡ spec.place_after (place round.old.items) step) }
    ensures work { let step = step_of next.entry in
        OnOk result (pending work.new.items ≡ spec.steps_after step (pending work.old.items)) }
{
    match next {
        PendingItem::Visit(of) => visit(work, round, of),
        PendingItem::Leave => {
            leave(round);
            Ok(true)
        }
    }
}

fn all_stand<'a>(
    work: &mut Vec<PendingItem<'a>>,
    round: &mut Vec<Surrounding<'a>>,
) -> Result<bool, OutOfMemory>
    ensures { IfOk result (λ valid. IsTrue valid
        ↔ AreSteps (place round.old.items) (pending work.old.items)) }
{
    let mut left = u64::MAX;
    while 0 < left {
        left -= 1;
        match pop(work) {
            None => return Ok(true),
            Some(next) => {
                if !step(work, round, next)? {
                    return Ok(false);
                }
            }
        }
    }
    Err(OutOfMemory)
}

/// Whether a template is a valid one. Want of memory is answered too where 2^64 - 1 steps are not enough, which no template comes to.
pub fn valid_term(alloc: Global, template: &Template) -> Result<bool, OutOfMemory>
    ensures exact { IfOk result (λ valid. IsTrue valid ↔ IsValid template.now) }
{
    let mut work = Vec::new(alloc);
    let mut round = Vec::new(alloc);
    plain(&mut work, TermItem::OneTemplate(template))?;
    all_stand(&mut work, &mut round)
}

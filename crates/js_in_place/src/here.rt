// What is done at once where the machine stands.

ghost use Rattle.std.specs.Prelude.{◌≡◌, ◌+◌, ◌<◌, ◌≤◌, IsTrue};
ghost use Rattle.js_code.specs.Decoded.{layer_of, term_at};
ghost use Rattle.js_code.specs.declared.node.Node.TheVariants as node_kind;
ghost use Rattle.js_direct.specs.Direct.{GivesAtOnce, GivesTruth, seen, value_of};
ghost use Rattle.js_direct.specs.Increments.{CameOfBody};
ghost use Rattle.js_in_place.specs.InPlace.{sight_of};
ghost use Rattle.js_in_place.specs.Places.{IsBody, IsDone, IsWent, at_copy, at_form, at_test};
ghost use Rattle.js_machine.specs.Bodies.{scope_of};
ghost use Rattle.js_machine.specs.js_run.declared.TheConstants.{MAX_DEPTH as most_deep};
ghost use Rattle.js_store.specs.Objects.{Owned};
ghost use Rattle.js_in_place.specs.declared.seat.How.TheVariants as how_kind;
ghost use Rattle.js_term.specs.declared.term.Term.{out-Term};

use crate::scopes::enter_copy;
use crate::seat::{How, Seat, Went, came, given, next, stopped};
use crate::waits::turn_row;
use js_direct::direct::value_into;
use js_direct::done::done_at;
use js_direct::increments::{INCREMENT_STEPS, Incremented, increment_at};
use js_direct::plain::Plain;
use js_direct::truths::{Truth, truth_at};
use js_machine::frame::Frame;
use js_machine::js_run::MAX_DEPTH;
use js_machine::machine::Machine;
use js_store::store::Store;

/// A form is done at once, where its steps are at most so many: gives the steps, and none where nothing was done.
#[inline(always)]
pub fn done_here<S: Store>(machine: &mut Machine<S>, seat: &mut Seat, at: u32, left: u64) -> u32
    ensures done { 0 < result → IsDone at machine.old machine.new seat.new.value result }
    ensures within { result ≤ left }
    ensures none { result ≡ 0 → machine.new ≡ machine.old }
{
    if machine.depth >= MAX_DEPTH - 2 {
        return 0;
    }
    let scope = machine.standing();
    done_at(
        &machine.code,
        &mut machine.store,
        &machine.common,
        &mut machine.scopes,
        scope,
        at,
        left,
        &mut seat.value,
    )
}

/// What a form gives at once where the machine stands, and how many steps that takes; none where it does not.
#[inline(always)]
pub fn value_from<S: Store>(machine: &Machine<S>, at: u32, given: &mut Plain) -> u32
    ensures { 0 < result → GivesAtOnce (sight_of machine.now) at (value_of given.new) result }
{
    value_into(
        &machine.code,
        &machine.store,
        &machine.scopes,
        machine.standing(),
        at,
        given,
    )
}

/// Whether an object that waits for an answer can be open in the run, and one more within it.
#[inline(always)]
fn can_wait<S: Store>(machine: &Machine<S>) -> bool
    ensures { IsTrue result → machine.now.depth + 2 < most_deep }
{
    machine.depth < MAX_DEPTH - 2
}

/// A body like that of `x++` is done at once where the machine stands, or not at all.
#[inline(always)]
fn increment_here<S: Store>(machine: &mut Machine<S>, at: u32) -> Incremented
    ensures came { (store : Owned)
        → let scope = scope_of machine.old.bodies in
        let sight = seen store.party store.objects machine.old.code machine.old.scopes scope in
        CameOfBody result sight at machine.new.scopes }
    ensures changes { machine.new ≡ record machine.old { scopes = machine.new.scopes } }
{
    let scope = machine.standing();
    increment_at(&machine.code, &mut machine.scopes, scope, at)
}

/// A body like that of `x++` is done at once where the machine stands, where its steps are at most so many, or not at all.
#[inline(always)]
pub fn body_here<S: Store>(machine: &mut Machine<S>, at: u32, left: u64) -> Incremented
    ensures { IsBody result at left machine.old machine.new }
{
    if !can_wait(machine) || left < u64::from(INCREMENT_STEPS) {
        return Incremented::Nothing;
    }
    increment_here(machine, at)
}

/// Whether what a form gives at once counts as true.
#[inline(always)]
pub fn truth_here<S: Store>(machine: &Machine<S>, at: u32) -> Truth
    ensures { 0 < result.steps → GivesTruth (sight_of machine.now) at result }
{
    truth_at(
        &machine.code,
        &machine.store,
        &machine.scopes,
        machine.standing(),
        at,
    )
}

/// A form or none, by what a test gives at once (ECMA-262, the if Statement).
#[inline]
pub fn choose_one<S: Store>(
    machine: &Machine<S>,
    seat: &mut Seat,
    at: u32,
    test: u32,
    consequent: u32,
    left: u64,
) -> Went
    ensures { let term = term_at machine.now.code in
        out-Term (term at) ≡ layer_of machine.now.code term (node_kind.If test consequent)
        → IsWent (at_form at machine.now) left machine.now machine.now seat.new result }
{
    let truth = truth_here(machine, test);
    let price = u64::from(truth.steps);
    if price == 0 || price >= left {
        return stopped(seat, at, left);
    }
    let left = left - 1 - price;
    if truth.truth {
        return next(seat, consequent, left);
    }
    given(seat, Plain::Undefined, left)
}

/// One of two forms, by what a test gives at once (ECMA-262, the if Statement).
#[inline]
pub fn choose_two<S: Store>(
    machine: &Machine<S>,
    seat: &mut Seat,
    at: u32,
    test: u32,
    consequent: u32,
    alternate: u32,
    left: u64,
) -> Went
    ensures { let term = term_at machine.now.code in
        let row = node_kind.IfElse test consequent alternate in
        out-Term (term at) ≡ layer_of machine.now.code term row
        → IsWent (at_form at machine.now) left machine.now machine.now seat.new result }
{
    let truth = truth_here(machine, test);
    let price = u64::from(truth.steps);
    if price == 0 || price >= left {
        return stopped(seat, at, left);
    }
    let left = left - 1 - price;
    if truth.truth {
        return next(seat, consequent, left);
    }
    next(seat, alternate, left)
}

/// A copy of the innermost scope takes its place (ECMA-262, CreatePerIterationEnvironment).
pub fn fresh<S: Store>(machine: &mut Machine<S>, seat: &mut Seat, left: u64) -> Went
    ensures { IsWent (at_copy machine.old) left machine.old machine.new seat.new result }
{
    match enter_copy(machine) {
        Ok(_) => given(seat, Plain::Undefined, left),
        Err(_) => came(How::Failed, left),
    }
}

/// The test of a loop's next turn is to begin.
#[inline(never)]
pub fn starts_loop<S: Store>(
    machine: &mut Machine<S>,
    seat: &mut Seat,
    turns: u32,
    left: u64,
) -> Went
    ensures ends { ¬ (result.how ≡ how_kind.Next) }
    ensures went { IsWent (at_test turns machine.old) left machine.old machine.new seat.new result }
{
    let row = turn_row(machine, turns);
    let Ok(_) = machine.push_frame(Frame::Tested { turns }) else {
        return came(How::Failed, left);
    };
    stopped(seat, row.test, left)
}

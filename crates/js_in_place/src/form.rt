// Forms that hold others: each is begun, and what it holds is done in place as far as it gets. No form is deeper in another one than `MOST_DEEP`.

ghost use Rattle.std.specs.Prelude.{◌≡◌, ◌<◌, ◌+◌, ℕ};
ghost use Rattle.js_code.specs.Decoded.{layer_of, term_at};
ghost use Rattle.js_in_place.specs.Places.{IsPart, IsWent, after_turn, at_form, at_item, at_list, at_scope, at_test, at_update};
ghost use Rattle.js_in_place.specs.Turns.{IsRenewal, at_begun, at_inside, turn_list};
ghost use Rattle.js_in_place.specs.declared.seat.How.TheVariants as how_kind;
ghost use Rattle.js_term.specs.declared.term.Term.{out-Term};

use crate::back::{back_from_scope, back_from_turn, back_from_update, back_in_list};
use crate::calls::do_call;
use crate::functions::do_function;
use crate::here::{body_here, choose_one, choose_two, done_here, fresh, starts_loop, truth_here};
use crate::leaves::{do_leaf, do_return, fresh_item, may_be_done};
use crate::lists::only;
use crate::resume::after_row;
use crate::returns::leave;
use crate::scopes::enter_copy;
use crate::seat::{How, Seat, Went, came, given, next, stopped};
use crate::turns::{Renewal, back_from_inside, do_first, renewal_at};
use crate::waits::turn_row;
use js_code::node::Node;
use js_direct::increments::{INCREMENT_STEPS, Incremented};
use js_direct::plain::Plain;
use js_machine::frame::Frame;
use js_machine::machine::Machine;
use js_machine_statements::blocks::enter;
use js_machine_statements::slots::stand_in;
use js_store::store::Store;

/// How deep forms may hold one another.
pub const MOST_DEEP: u32 = 32;

/// How many forms may take one another's place before a run looks up.
pub const MOST_FORMS: u32 = 1000;

/// How often a loop turns before a run looks up.
pub const MOST_TURNS: u32 = 1000000;

/// The row of a place.
#[inline(always)]
fn node<S: Store>(machine: &Machine<S>, at: u32) -> Node
    ensures { let low = term_at machine.now.code in
        out-Term (low at) ≡ layer_of machine.now.code low result }
{
    machine.code.node(at)
}

/// A form, and those that take its place, go as far as they get.
#[cycle(form)]
pub fn do_form<S: Store>(
    machine: &mut Machine<S>,
    seat: &mut Seat,
    at: u32,
    left: u64,
    depth: u32,
) -> Went
    ensures ends { ¬ (result.how ≡ how_kind.Next) }
    ensures went { IsWent (at_form at machine.old) left machine.old machine.new seat.new result }
{
    let mut at = at;
    let mut left = left;
    for _i in 0..MOST_FORMS {
        if left == 0 || depth == 0 {
            break;
        }
        let step = do_row(machine, seat, at, left, depth);
        let step = after_row(machine, seat, step);
        match step.how {
            How::Next => {
                at = seat.at;
                left = step.left;
            }
            _ => return step,
        }
    }
    stopped(seat, at, left)
}

/// A form goes as far as it gets, or is done at once.
#[cycle(form)]
#[inline(always)]
fn do_row<S: Store>(
    machine: &mut Machine<S>,
    seat: &mut Seat,
    at: u32,
    left: u64,
    depth: u32,
) -> Went
    requires some { 0 < left }
    requires deep { 0 < depth }
    ensures { IsWent (at_form at machine.old) left machine.old machine.new seat.new result }
{
    match node(machine, at) {
        Node::Seq { start, count } => do_list(machine, seat, start, count, left - 1, depth - 1),
        Node::Scope { slots, body } => do_scope(machine, seat, slots, body, left - 1, depth - 1),
        Node::Loop {
            turns,
            tests_first: true,
        } => do_loop(machine, seat, turns, left - 1, depth - 1),
        Node::If { test, consequent } => choose_one(machine, seat, at, test, consequent, left),
        Node::IfElse {
            test,
            consequent,
            alternate,
        } => choose_two(machine, seat, at, test, consequent, alternate, left),
        Node::Fresh => fresh(machine, seat, left - 1),
        Node::Call { callee, arguments } => do_call(machine, seat, at, callee, arguments, left),
        Node::ReturnValue { value } => do_return(machine, seat, value, left),
        Node::Return => leave(machine, seat, Plain::Undefined, left - 1),
        Node::Func { template } => do_function(machine, seat, template, left),
        node => do_leaf(machine, seat, node, at, left),
    }
}

/// Forms in their order: one alone is next.
#[cycle(form)]
#[inline(always)]
fn do_list<S: Store>(
    machine: &mut Machine<S>,
    seat: &mut Seat,
    start: u32,
    count: u32,
    left: u64,
    depth: u32,
) -> Went
    ensures { IsWent (at_list start count machine.old) left machine.old machine.new seat.new result }
{
    if count == 1 {
        return only(machine, seat, start, left);
    }
    do_items(machine, seat, start, count, left, depth)
}

/// Forms in their order, but for the last one, which is next (ECMA-262, "Block").
#[cycle(form)]
#[inline(never)]
fn do_items<S: Store>(
    machine: &mut Machine<S>,
    seat: &mut Seat,
    start: u32,
    count: u32,
    left: u64,
    depth: u32,
) -> Went
    ensures { IsWent (at_list start count machine.old) left machine.old machine.new seat.new result }
{
    let Ok(there) = machine.listed(start, count) else {
        return came(How::Failed, left);
    };
    if there == 0 {
        return given(seat, Plain::Undefined, left);
    }
    let mut left = left;
    for i in 0..there - 1 {
        let at = machine.number(start + i);
        let step = do_item(machine, seat, at, start + i + 1, count - i - 1, left, depth);
        match step.how {
            How::Next => left = step.left,
            _ => return step,
        }
    }
    next(seat, machine.number(start + (there - 1)), left)
}

/// A form of a list that others follow goes on over their frame.
#[cycle(form)]
#[inline]
fn do_held<S: Store>(
    machine: &mut Machine<S>,
    seat: &mut Seat,
    at: u32,
    start: u32,
    count: u32,
    left: u64,
    depth: u32,
) -> Went
    ensures { IsPart (at_item at start count machine.old) (at_list start count machine.new) left machine.old
        machine.new seat.new result }
{
    let Ok(_) = machine.push_frame(Frame::Seq { start, count }) else {
        return came(How::Failed, left);
    };
    let step = do_form(machine, seat, at, left, depth);
    match step.how {
        How::Given => back_in_list(machine, start, count, step.left),
        _ => step,
    }
}

/// A form of a list that others follow, which may be done at once.
#[cycle(form)]
#[inline(always)]
fn do_tried<S: Store>(
    machine: &mut Machine<S>,
    seat: &mut Seat,
    at: u32,
    start: u32,
    count: u32,
    left: u64,
    depth: u32,
) -> Went
    ensures { IsPart (at_item at start count machine.old) (at_list start count machine.new) left machine.old
        machine.new seat.new result }
{
    let steps = done_here(machine, seat, at, left);
    if steps == 0 {
        return do_held(machine, seat, at, start, count, left, depth);
    }
    came(How::Next, left - u64::from(steps))
}

/// A form of a list that others follow.
#[cycle(form)]
#[inline(always)]
fn do_item<S: Store>(
    machine: &mut Machine<S>,
    seat: &mut Seat,
    at: u32,
    start: u32,
    count: u32,
    left: u64,
    depth: u32,
) -> Went
    ensures { IsPart (at_item at start count machine.old) (at_list start count machine.new) left machine.old
        machine.new seat.new result }
{
    match node(machine, at) {
        Node::Fresh => fresh_item(machine, seat, at, start, count, left),
        node if !may_be_done(machine, node) => do_held(
            machine, seat, at, start, count, left, depth,
        ),
        _ => do_tried(machine, seat, at, start, count, left, depth),
    }
}

/// A form in a new scope.
#[cycle(form)]
#[inline(never)]
fn do_scope<S: Store>(
    machine: &mut Machine<S>,
    seat: &mut Seat,
    slots: u32,
    body: u32,
    left: u64,
    depth: u32,
) -> Went
    ensures { IsWent (at_scope slots body machine.old) left machine.old machine.new seat.new result }
{
    let scope = machine.standing();
    let Ok(_) = enter(machine, slots) else {
        return came(How::Failed, left);
    };
    match body_here(machine, body, left) {
        Incremented::Gave(number) => {
            stand_in(machine, scope);
            return given(seat, Plain::Int(number), left - u64::from(INCREMENT_STEPS));
        }
        Incremented::Nothing => (),
        Incremented::Failed => return came(How::Failed, left),
    }
    let Ok(_) = machine.push_frame(Frame::ScopeExit { scope }) else {
        return came(How::Failed, left);
    };
    let step = do_form(machine, seat, body, left, depth);
    match step.how {
        How::Given => back_from_scope(machine, step.left),
        _ => step,
    }
}

/// The turns of a loop that begins with its test (ECMA-262, LoopEvaluation).
#[cycle(form)]
#[inline(never)]
fn do_loop<S: Store>(
    machine: &mut Machine<S>,
    seat: &mut Seat,
    turns: u32,
    left: u64,
    depth: u32,
) -> Went
    ensures { IsWent (at_test turns machine.old) left machine.old machine.new seat.new result }
{
    let mut left = left;
    for _i in 0..MOST_TURNS {
        let step = do_turn(machine, seat, turns, left, depth);
        match step.how {
            How::Next => left = step.left,
            _ => return step,
        }
    }
    starts_loop(machine, seat, turns, left)
}

/// The test of a loop, and a turn.
#[cycle(form)]
#[inline(always)]
fn do_turn<S: Store>(
    machine: &mut Machine<S>,
    seat: &mut Seat,
    turns: u32,
    left: u64,
    depth: u32,
) -> Went
    ensures { IsPart (at_test turns machine.old) (at_test turns machine.new) left machine.old
        machine.new seat.new result }
{
    let row = turn_row(machine, turns);
    let truth = truth_here(machine, row.test);
    let price = u64::from(truth.steps);
    if price == 0 || price > left {
        return starts_loop(machine, seat, turns, left);
    }
    if !truth.truth {
        return given(seat, Plain::Undefined, left - price);
    }
    let step = do_body(machine, seat, turns, row.body, left - price, depth);
    match step.how {
        How::Next => (),
        _ => return step,
    }
    match row.update {
        Some(update) => do_update(machine, seat, turns, update, step.left, depth),
        None => step,
    }
}

/// A turn of a loop. Forms of its body that are done at once want no frame.
#[cycle(form)]
#[inline(always)]
fn do_body<S: Store>(
    machine: &mut Machine<S>,
    seat: &mut Seat,
    turns: u32,
    body: u32,
    left: u64,
    depth: u32,
) -> Went
    ensures { IsPart (at_begun turns body machine.old) (after_turn turns machine.new) left machine.old
        machine.new seat.new result }
{
    match node(machine, body) {
        Node::Seq { start, count } if left > 0 => {
            do_listed(machine, seat, turns, start, count, left - 1, depth)
        }
        _ => do_whole(machine, seat, turns, body, left, depth),
    }
}

/// A turn whose body is a list.
#[cycle(form)]
#[inline(always)]
fn do_listed<S: Store>(
    machine: &mut Machine<S>,
    seat: &mut Seat,
    turns: u32,
    start: u32,
    count: u32,
    left: u64,
    depth: u32,
) -> Went
    ensures { IsPart (turn_list turns start count machine.old) (after_turn turns machine.new) left
        machine.old machine.new seat.new result }
{
    let Ok(there) = machine.listed(start, count) else {
        return came(How::Failed, left);
    };
    if there == 0 {
        return came(How::Next, left);
    }
    let first = do_first(machine, seat, start, count, there - 1, left);
    if first.done < there - 1 {
        let (at, more) = (start + first.done, count - first.done);
        return do_rest(machine, seat, turns, at, more, first.left, depth);
    }
    let last = machine.number(start + (there - 1));
    let steps = done_here(machine, seat, last, first.left);
    if steps > 0 {
        return came(How::Next, first.left - u64::from(steps));
    }
    do_whole(machine, seat, turns, last, first.left, depth)
}

/// The rest of the body of a turn.
#[cycle(form)]
#[inline(never)]
fn do_rest<S: Store>(
    machine: &mut Machine<S>,
    seat: &mut Seat,
    turns: u32,
    start: u32,
    count: u32,
    left: u64,
    depth: u32,
) -> Went
    ensures { IsPart (turn_list turns start count machine.old) (after_turn turns machine.new) left
        machine.old machine.new seat.new result }
{
    let Ok(_) = machine.push_frame(Frame::Turned { turns }) else {
        return came(How::Failed, left);
    };
    let step = do_items(machine, seat, start, count, left, depth);
    match step.how {
        How::Next => do_turned(machine, seat, turns, seat.at, step.left, depth),
        How::Given => back_from_turn(machine, turns, step.left),
        _ => step,
    }
}

/// The body of a turn, or its last form, over a frame.
#[cycle(form)]
#[inline(never)]
fn do_whole<S: Store>(
    machine: &mut Machine<S>,
    seat: &mut Seat,
    turns: u32,
    body: u32,
    left: u64,
    depth: u32,
) -> Went
    ensures { IsPart (at_begun turns body machine.old) (after_turn turns machine.new) left machine.old
        machine.new seat.new result }
{
    let Ok(_) = machine.push_frame(Frame::Turned { turns }) else {
        return came(How::Failed, left);
    };
    do_turned(machine, seat, turns, body, left, depth)
}

/// The last form of a turn, over the turn's frame.
#[cycle(form)]
#[inline(always)]
fn do_turned<S: Store>(
    machine: &mut Machine<S>,
    seat: &mut Seat,
    turns: u32,
    at: u32,
    left: u64,
    depth: u32,
) -> Went
    ensures { IsPart (at_form at machine.old) (after_turn turns machine.new) left machine.old
        machine.new seat.new result }
{
    let step = do_form(machine, seat, at, left, depth);
    match step.how {
        How::Given => back_from_turn(machine, turns, step.left),
        _ => step,
    }
}

/// What a loop does after a turn. A copy of the innermost scope and `x++` in it want no frame.
#[cycle(form)]
#[inline(always)]
fn do_update<S: Store>(
    machine: &mut Machine<S>,
    seat: &mut Seat,
    turns: u32,
    update: u32,
    left: u64,
    depth: u32,
) -> Went
    ensures { IsPart (at_update turns update machine.old) (at_test turns machine.new) left machine.old
        machine.new seat.new result }
{
    match renewal_at(machine, update) {
        Some(parts) if left >= 3 => do_renewal(machine, seat, turns, parts, left - 3, depth),
        _ => do_other_update(machine, seat, turns, update, left, depth),
    }
}

/// A copy of the innermost scope is there, and a form runs in a new scope in it: at once, where it is like the body of `x++`. The steps of the three forms are taken off already.
#[cycle(form)]
#[inline(always)]
fn do_renewal<S: Store>(
    machine: &mut Machine<S>,
    seat: &mut Seat,
    turns: u32,
    parts: Renewal,
    left: u64,
    depth: u32,
) -> Went
    ensures { (at : ℕ) → IsRenewal machine.old.code at parts.slots parts.body
        → IsPart (at_update turns at machine.old) (at_test turns machine.new) (left + 3) machine.old
        machine.new seat.new result }
{
    let Ok(_) = enter_copy(machine) else {
        return came(How::Failed, left);
    };
    let scope = machine.standing();
    let Ok(_) = enter(machine, parts.slots) else {
        return came(How::Failed, left);
    };
    match body_here(machine, parts.body, left) {
        Incremented::Gave(_) => {
            stand_in(machine, scope);
            came(How::Next, left - u64::from(INCREMENT_STEPS))
        }
        Incremented::Nothing => do_inside(machine, seat, turns, scope, parts.body, left, depth),
        Incremented::Failed => came(How::Failed, left),
    }
}

/// A form in the scope where the machine stands, which is left again for this one, and then the loop tests.
#[cycle(form)]
#[inline(never)]
fn do_inside<S: Store>(
    machine: &mut Machine<S>,
    seat: &mut Seat,
    turns: u32,
    scope: u32,
    body: u32,
    left: u64,
    depth: u32,
) -> Went
    ensures { IsPart (at_inside turns scope body machine.old) (at_test turns machine.new) left
        machine.old machine.new seat.new result }
{
    let Ok(_) = machine.push_frame(Frame::Updated { turns }) else {
        return came(How::Failed, left);
    };
    let Ok(_) = machine.push_frame(Frame::ScopeExit { scope }) else {
        return came(How::Failed, left);
    };
    let step = do_form(machine, seat, body, left, depth);
    match step.how {
        How::Given => back_from_inside(machine, turns, step.left),
        _ => step,
    }
}

/// What a loop does after a turn, over a frame.
#[cycle(form)]
#[inline(never)]
fn do_other_update<S: Store>(
    machine: &mut Machine<S>,
    seat: &mut Seat,
    turns: u32,
    update: u32,
    left: u64,
    depth: u32,
) -> Went
    ensures { IsPart (at_update turns update machine.old) (at_test turns machine.new) left machine.old
        machine.new seat.new result }
{
    let Ok(_) = machine.push_frame(Frame::Updated { turns }) else {
        return came(How::Failed, left);
    };
    let step = do_form(machine, seat, update, left, depth);
    match step.how {
        How::Given => back_from_update(machine, turns, step.left),
        _ => step,
    }
}

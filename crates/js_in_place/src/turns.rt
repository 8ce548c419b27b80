// Turns of loops whose forms are done at once.

ghost use Rattle.std.specs.Prelude.{◌≡◌, ◌+◌, ◌-◌, ◌<◌, ◌≤◌, IfSome, length};
ghost use Rattle.lava_base.specs.declared.ids.MadeSymbol.{MadeSymbol};
ghost use Rattle.lava_base.specs.declared.ids.Ref.{Ref};
ghost use Rattle.js_code.specs.Tables.{part_of};
ghost use Rattle.js_in_place.specs.Places.{ComesTo, IsPart, at_test, at_value};
ghost use Rattle.js_in_place.specs.Turns.{IsRenewal, list_under};
ghost use Rattle.js_in_place.specs.declared.seat.Seat.{Seat};
ghost use Rattle.js_machine.specs.Views.{Around};
ghost use Rattle.js_machine.specs.js_run.Acts.{Next};

use crate::back::back_from_update;
use crate::frames::{newest_frame, take_off};
use crate::here::done_here;
use crate::seat::{How, Seat, Went, came};
use js_code::node::Node;
use js_machine::frame::Frame;
use js_machine::machine::Machine;
use js_machine_statements::slots::stand_in;
use js_store::store::Store;

/// How many forms of a list were done, and what is left.
#[derive(Clone, Copy)]
pub struct First {
    pub done: u32,
    pub left: u64,
}

/// The first forms of a list, so many at most, are done at once, as far as each is. Others follow them.
#[inline(always)]
pub fn do_first<S: Store>(
    machine: &mut Machine<S>,
    seat: &mut Seat,
    start: u32,
    count: u32,
    most: u32,
    left: u64,
) -> First
    requires { start + most ≤ 4294967295 }
    ensures done { result.done ≤ most }
    ensures goes { (next : Around → Next Ref MadeSymbol)
        → most < length (part_of start count machine.old.code.numbers) → most < count
        → ComesTo left machine.old machine.new (list_under next start count machine.old)
        (list_under next (start + result.done) (count - result.done) machine.new) result.left }
{
    let mut left = left;
    for i in 0..most {
        let at = machine.number(start + i);
        let steps = done_here(machine, seat, at, left);
        if steps == 0 {
            return First { done: i, left };
        }
        left -= u64::from(steps);
    }
    First { done: most, left }
}

/// A copy of the innermost scope takes its place, and then a form runs in a new scope with so many slots.
#[derive(Clone, Copy)]
pub struct Renewal {
    pub slots: u32,
    pub body: u32,
}

/// Whether a form is a list of these two.
#[inline(always)]
pub fn renewal_at<S: Store>(machine: &Machine<S>, at: u32) -> Option<Renewal>
    ensures { IfSome result (λ r. IsRenewal machine.now.code at r.slots r.body) }
{
    let Node::Seq { start, count } = machine.code.node(at) else {
        return None;
    };
    let forms = machine.code.numbers(start, count);
    if forms.len() != 2 {
        return None;
    }
    let Node::Fresh = machine.code.node(forms[0]) else {
        return None;
    };
    match machine.code.node(forms[1]) {
        Node::Scope { slots, body } => Some(Renewal { slots, body }),
        _ => None,
    }
}

/// A form in a scope is over, and with it what a loop does after a turn.
#[inline(always)]
pub fn back_from_inside<S: Store>(machine: &mut Machine<S>, turns: u32, left: u64) -> Went
    ensures { (s : Seat) → IsPart (at_value s.value machine.old) (at_test turns machine.new) left
        machine.old machine.new s result }
{
    match newest_frame(machine) {
        Some(Frame::ScopeExit { scope }) => {
            take_off(machine);
            stand_in(machine, scope);
            back_from_update(machine, turns, left)
        }
        _ => came(How::Left, left),
    }
}

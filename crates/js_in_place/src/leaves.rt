// Forms that are done at once, or not begun.

ghost use Rattle.std.specs.Prelude.{◌≡◌, ◌<◌, ℕ, IfSome};
ghost use Rattle.js_code.specs.Decoded.{layer_of, term_at};
ghost use Rattle.js_code.specs.declared.node.Node.TheVariants as node_kind;
ghost use Rattle.js_in_place.specs.Holding.{Holds};
ghost use Rattle.js_in_place.specs.Places.{IsPart, IsWent, at_form, at_item, at_list};
ghost use Rattle.js_term.specs.declared.term.Term.{out-Term};

use crate::here::{done_here, value_from};
use crate::returns::leave;
use crate::scopes::enter_copy;
use crate::seat::{How, Seat, Went, came, next, stopped};
use js_code::node::Node;
use js_direct::plain::Plain;
use js_machine::frame::Frame;
use js_machine::machine::Machine;
use js_store::store::Store;

/// A frame that waits for a form.
#[derive(Clone, Copy)]
pub(crate) struct Held {
    pub frame: Frame,
    pub at: u32,
}

/// What waits for which form, of a form that first evaluates another one.
#[inline(always)]
fn held_by(node: Node) -> Option<Held>
    ensures { IfSome result (λ h. Holds node h.frame h.at) }
{
    match node {
        Node::SetLocal {
            hops,
            slot,
            constant,
            value,
        } => Some(Held {
            frame: Frame::SetLocal {
                hops,
                slot,
                constant,
            },
            at: value,
        }),
        Node::Init { hops, slot, value } => Some(Held {
            frame: Frame::Init { hops, slot },
            at: value,
        }),
        Node::Binary {
            operator,
            left,
            right,
        } => Some(Held {
            frame: Frame::BinaryLeft { operator, right },
            at: left,
        }),
        _ => None,
    }
}

/// A form begins, and another one waits for it.
#[inline(never)]
fn wait_for<S: Store>(
    machine: &mut Machine<S>,
    seat: &mut Seat,
    node: Node,
    at: u32,
    left: u64,
) -> Went
    ensures { let term = term_at machine.old.code in
        out-Term (term at) ≡ layer_of machine.old.code term node
        → IsWent (at_form at machine.old) left machine.old machine.new seat.new result }
{
    if left == 0 {
        return stopped(seat, at, left);
    }
    let Some(first) = held_by(node) else {
        return stopped(seat, at, left);
    };
    let Ok(_) = machine.push_frame(first.frame) else {
        return came(How::Failed, left);
    };
    next(seat, first.at, left - 1)
}

/// Whether a form may give a value at once.
#[inline(always)]
fn may_give<S: Store>(machine: &Machine<S>, node: Node) -> bool {
    match node {
        Node::Undefined
        | Node::Null
        | Node::Bool(_)
        | Node::Int(_)
        | Node::Local { .. }
        | Node::Unary { .. }
        | Node::Get { .. } => true,
        Node::Binary { left, .. } => !is_call(machine.code.node(left)),
        _ => false,
    }
}

/// Whether a form is a call, which is not done at once.
#[inline(always)]
fn is_call(node: Node) -> bool {
    match node {
        Node::Call { .. } => true,
        _ => false,
    }
}

/// Whether a form may be done at once. (To try one that is not costs as much as to do it.)
#[inline(always)]
pub(crate) fn may_be_done<S: Store>(machine: &Machine<S>, node: Node) -> bool {
    match node {
        Node::SetLocal { value, .. } | Node::Init { value, .. } => {
            may_give(machine, machine.code.node(value))
        }
        Node::Put { .. } => true,
        _ => may_give(machine, node),
    }
}

/// A form is done at once, or what it evaluates first is next, or it is not begun.
#[inline(always)]
pub fn do_leaf<S: Store>(
    machine: &mut Machine<S>,
    seat: &mut Seat,
    node: Node,
    at: u32,
    left: u64,
) -> Went
    ensures { let term = term_at machine.old.code in
        out-Term (term at) ≡ layer_of machine.old.code term node
        → IsWent (at_form at machine.old) left machine.old machine.new seat.new result }
{
    if !may_be_done(machine, node) {
        return wait_for(machine, seat, node, at, left);
    }
    let steps = done_here(machine, seat, at, left);
    if steps == 0 {
        return wait_for(machine, seat, node, at, left);
    }
    came(How::Given, left - u64::from(steps))
}

/// A form is next whose value is returned.
#[inline]
fn return_waits<S: Store>(machine: &mut Machine<S>, seat: &mut Seat, value: u32, left: u64) -> Went
    requires { 0 < left }
    ensures { (at : ℕ) → let term = term_at machine.old.code in
        out-Term (term at) ≡ layer_of machine.old.code term (node_kind.ReturnValue value)
        → IsWent (at_form at machine.old) left machine.old machine.new seat.new result }
{
    let Ok(_) = machine.push_frame(Frame::Return) else {
        return came(How::Failed, left);
    };
    next(seat, value, left - 1)
}

/// A value is returned at once, or the form is next that gives it.
#[inline]
pub fn do_return<S: Store>(machine: &mut Machine<S>, seat: &mut Seat, value: u32, left: u64) -> Went
    requires { 0 < left }
    ensures { (at : ℕ) → let term = term_at machine.old.code in
        out-Term (term at) ≡ layer_of machine.old.code term (node_kind.ReturnValue value)
        → IsWent (at_form at machine.old) left machine.old machine.new seat.new result }
{
    if !may_give(machine, machine.code.node(value)) {
        return return_waits(machine, seat, value, left);
    }
    let mut given = Plain::Undefined;
    let price = u64::from(value_from(machine, value, &mut given));
    if price == 0 || price >= left {
        return return_waits(machine, seat, value, left);
    }
    leave(machine, seat, given, left - 1 - price)
}

/// A form of a list is to begin, and those behind it wait.
#[inline]
fn wait_in_list<S: Store>(
    machine: &mut Machine<S>,
    seat: &mut Seat,
    at: u32,
    start: u32,
    count: u32,
    left: u64,
) -> Went
    ensures { IsPart (at_item at start count machine.old) (at_list start count machine.new) left
        machine.old machine.new seat.new result }
{
    let Ok(_) = machine.push_frame(Frame::Seq { start, count }) else {
        return came(How::Failed, left);
    };
    stopped(seat, at, left)
}

/// A copy of the innermost scope takes its place, and a list goes on.
#[inline]
pub fn fresh_item<S: Store>(
    machine: &mut Machine<S>,
    seat: &mut Seat,
    at: u32,
    start: u32,
    count: u32,
    left: u64,
) -> Went
    ensures { let term = term_at machine.old.code in
        out-Term (term at) ≡ layer_of machine.old.code term node_kind.Fresh
        → IsPart (at_item at start count machine.old) (at_list start count machine.new) left
        machine.old machine.new seat.new result }
{
    if left == 0 {
        return wait_in_list(machine, seat, at, start, count, left);
    }
    match enter_copy(machine) {
        Ok(_) => came(How::Next, left - 1),
        Err(_) => came(How::Failed, left),
    }
}

// Frames that a plain value comes to in place.

ghost use Rattle.std.specs.Prelude.{◌≡◌, IfOk, IfSome, Some, false, is_some, true};
ghost use Rattle.std.specs.Option.{option_map};
ghost use Rattle.js_code.specs.Decoded.{term_at};
ghost use Rattle.js_direct.specs.Direct.{value_of};
ghost use Rattle.js_in_place.specs.InPlace.{LedTo, RunsTo};
ghost use Rattle.js_in_place.specs.declared.spot.Spot.TheVariants as spot_kind;
ghost use Rattle.js_machine.specs.Bodies.{scope_of};
ghost use Rattle.js_machine.specs.Steps.{deed_with};
ghost use Rattle.js_machine.specs.Views.{newest, party_of, top};
ghost use Rattle.js_machine.specs.declared.frame.Frame.TheVariants as frame_kind;
ghost use Rattle.js_machine.specs.js_run.Control.{branch};
ghost use Rattle.js_machine.specs.js_run.Truth.{to_boolean};
ghost use Rattle.js_state.specs.Scopes.{outwards, slot_of};
ghost use Rattle.js_text.specs.declared.value.Value.TheVariants as value_kind;

use crate::frames::{newest_frame, take_off};
use crate::returns::leave;
use crate::scopes::{has_local, write_local};
use crate::spot::{Spot, Stand, at_form, at_value, stopped_at};
use crate::stands::{new_seat, stand_of};
use crate::waits::{in_order, next_turn, test, turn, wait};
use js_direct::plain::{Plain, as_value};
use js_direct::truths::is_true;
use js_machine::frame::Frame;
use js_machine::machine::Machine;
use js_machine_statements::slots::stand_in;
use js_operators::numbers::number_by;
use js_store::store::Store;
use js_text::value::Value;
use js_tree::operator::BinaryOperator;
use lava_base::memory::OutOfMemory;

/// A form in a scope is over.
#[inline]
fn leave_scope<S: Store>(machine: &mut Machine<S>, scope: u32, value: Plain, left: u64) -> Stand
    ensures { LedTo (deed_with (frame_kind.ScopeExit scope) (value_of value) machine.old) left
        machine.old machine.new result }
{
    stand_in(machine, scope);
    at_value(value, left)
}

/// The test of a turn has its value.
#[inline]
fn tested<S: Store>(
    machine: &mut Machine<S>,
    turns: u32,
    value: Plain,
    left: u64,
) -> Result<Stand, OutOfMemory>
    ensures { IfOk result (LedTo (deed_with (frame_kind.Tested turns) (value_of value) machine.old)
        left machine.old machine.new) }
{
    if is_true(value) {
        return turn(machine, turns, left);
    }
    Ok(at_value(Plain::Undefined, left))
}

/// Whether a slot is initialised and no constant.
#[inline(always)]
fn can_set<S: Store>(machine: &Machine<S>, hops: u32, slot: u32, constant: bool) -> bool
    ensures changes { result ≡ true → constant ≡ false }
    ensures there { let scope = outwards machine.now.scopes hops (scope_of machine.now.bodies) in
        result ≡ true → is_some (slot_of machine.now.scopes scope slot) ≡ true }
{
    if constant {
        return false;
    }
    has_local(machine, hops, slot)
}

/// An initialised slot gets its value.
#[inline(always)]
fn set_slot<S: Store>(
    machine: &mut Machine<S>,
    hops: u32,
    slot: u32,
    value: Plain,
    left: u64,
) -> Stand
    ensures { let scope = outwards machine.old.scopes hops (scope_of machine.old.bodies) in
        let frame = frame_kind.SetLocal hops slot false in
        is_some (slot_of machine.old.scopes scope slot) ≡ true
        → LedTo (deed_with frame (value_of value) machine.old) left machine.old machine.new result }
{
    write_local(machine, hops, slot, value);
    at_value(value, left)
}

/// A slot gets its first value.
#[inline(always)]
fn init_slot<S: Store>(
    machine: &mut Machine<S>,
    hops: u32,
    slot: u32,
    value: Plain,
    left: u64,
) -> Stand
    ensures { LedTo (deed_with (frame_kind.Init hops slot) (value_of value) machine.old) left
        machine.old machine.new result }
{
    write_local(machine, hops, slot, value);
    at_value(Plain::Undefined, left)
}

/// One of two forms follows, by the truth of a value; where there is no second one, undefined is given.
#[inline]
fn choose<S: Store>(
    machine: &Machine<S>,
    value: Plain,
    consequent: u32,
    alternate: Option<u32>,
    left: u64,
) -> Stand
    ensures { let term = term_at machine.now.code in
        LedTo (λ a. branch (value_of value) (term consequent) (option_map term alternate)
        (party_of a machine.now)) left machine.now machine.now result }
{
    if is_true(value) {
        return at_form(consequent, left);
    }
    match alternate {
        Some(at) => at_form(at, left),
        None => at_value(Plain::Undefined, left),
    }
}

/// The right operand of an operator is next, and the left one waits.
#[inline(always)]
fn operand_waits<S: Store>(
    machine: &mut Machine<S>,
    operator: BinaryOperator,
    right: u32,
    value: Plain,
    left: u64,
) -> Result<Stand, OutOfMemory>
    ensures { let frame = frame_kind.BinaryLeft operator right in
        IfOk result (LedTo (deed_with frame (value_of value) machine.old) left machine.old
        machine.new) }
{
    machine.push(as_value(value))?;
    wait(machine, Frame::BinaryRight { operator }, right, left)
}

/// The newest value of the machine, if it is a number.
#[inline(always)]
fn number_below<S: Store>(machine: &Machine<S>) -> Option<i64>
    ensures { IfSome result (λ n. top machine.now.values ≡ value_kind.Int n) }
{
    let count = machine.values.len();
    if count == 0 {
        return None;
    }
    match &machine.values[count - 1] {
        Value::Int(number) => Some(*number),
        _ => None,
    }
}

/// An operator has its operands.
#[inline(always)]
fn operate<S: Store>(
    machine: &mut Machine<S>,
    operator: BinaryOperator,
    value: Plain,
    left: u64,
) -> Stand
    ensures { newest machine.old.frames ≡ Some (frame_kind.BinaryRight operator)
        → RunsTo (spot_kind.Given value) left machine.old machine.new result }
{
    let Plain::Int(second) = value else {
        return stopped_at(Spot::Given(value), left);
    };
    let Some(first) = number_below(machine) else {
        return stopped_at(Spot::Given(value), left);
    };
    let Some(number) = number_by(operator, first, second) else {
        return stopped_at(Spot::Given(value), left);
    };
    take_off(machine);
    machine.discard(1);
    at_value(Plain::Int(number), left)
}

/// A value is returned, and the frame that waited for it is off.
#[inline(always)]
fn return_value<S: Store>(
    machine: &mut Machine<S>,
    value: Plain,
    left: u64,
) -> Result<Stand, OutOfMemory>
    ensures { newest machine.old.frames ≡ Some frame_kind.Return
        → IfOk result (RunsTo (spot_kind.Given value) left machine.old machine.new) }
{
    take_off(machine);
    let mut seat = new_seat(0);
    let step = leave(machine, &mut seat, value, left);
    stand_of(seat, step)
}

/// The body of a call is over that returns nothing.
#[inline(always)]
fn end_body<S: Store>(machine: &mut Machine<S>, value: Plain, left: u64) -> Stand
    ensures { LedTo (deed_with frame_kind.Called (value_of value) machine.old) left machine.old
        machine.new result }
{
    machine.close_body();
    at_value(Plain::Undefined, left)
}

/// A plain value comes to a frame of a body, an operator or a slot, which is the newest one.
#[inline(always)]
pub(crate) fn deliver_within<S: Store>(
    machine: &mut Machine<S>,
    frame: Frame,
    value: Plain,
    left: u64,
) -> Result<Stand, OutOfMemory>
    ensures { newest machine.old.frames ≡ Some frame
        → IfOk result (RunsTo (spot_kind.Given value) left machine.old machine.new) }
{
    match frame {
        Frame::SetLocal {
            hops,
            slot,
            constant,
        } => {
            if !can_set(machine, hops, slot, constant) {
                return Ok(stopped_at(Spot::Given(value), left));
            }
            take_off(machine);
            Ok(set_slot(machine, hops, slot, value, left))
        }
        Frame::Init { hops, slot } => {
            take_off(machine);
            Ok(init_slot(machine, hops, slot, value, left))
        }
        Frame::Return => return_value(machine, value, left),
        Frame::Called => {
            take_off(machine);
            Ok(end_body(machine, value, left))
        }
        Frame::Given => {
            take_off(machine);
            Ok(at_value(value, left))
        }
        Frame::BinaryLeft { operator, right } => {
            take_off(machine);
            operand_waits(machine, operator, right, value, left)
        }
        Frame::BinaryRight { operator } => Ok(operate(machine, operator, value, left)),
        _ => Ok(stopped_at(Spot::Given(value), left)),
    }
}

/// A plain value comes to the newest frame, or is still to come to it.
#[inline]
pub fn deliver<S: Store>(
    machine: &mut Machine<S>,
    value: Plain,
    left: u64,
) -> Result<Stand, OutOfMemory>
    ensures { IfOk result (RunsTo (spot_kind.Given value) left machine.old machine.new) }
{
    let Some(frame) = newest_frame(machine) else {
        return Ok(stopped_at(Spot::Given(value), left));
    };
    match frame {
        Frame::Seq { start, count } => {
            take_off(machine);
            in_order(machine, start, count, left)
        }
        Frame::ScopeExit { scope } => {
            take_off(machine);
            Ok(leave_scope(machine, scope, value, left))
        }
        Frame::Tested { turns } => {
            take_off(machine);
            tested(machine, turns, value, left)
        }
        Frame::Turned { turns } => {
            take_off(machine);
            next_turn(machine, turns, left)
        }
        Frame::Updated { turns } => {
            take_off(machine);
            test(machine, turns, left)
        }
        Frame::If { consequent } => {
            take_off(machine);
            Ok(choose(machine, value, consequent, None, left))
        }
        Frame::IfElse {
            consequent,
            alternate,
        } => {
            take_off(machine);
            Ok(choose(machine, value, consequent, Some(alternate), left))
        }
        frame => deliver_within(machine, frame, value, left),
    }
}

// What was given comes back to the frame that waited for it.

ghost use Rattle.std.specs.Prelude.{◌≡◌};
ghost use Rattle.js_in_place.specs.Places.{IsPart, IsWent, after_turn, at_list, at_test, at_value};
ghost use Rattle.js_in_place.specs.declared.seat.Seat.{Seat};

use crate::frames::{newest_frame, take_off};
use crate::seat::{How, Went, came};
use js_machine::frame::Frame;
use js_machine::machine::Machine;
use js_machine_statements::slots::stand_in;
use js_store::store::Store;

/// A form of a list is over, and those behind it follow.
#[inline(always)]
pub fn back_in_list<S: Store>(machine: &mut Machine<S>, start: u32, count: u32, left: u64) -> Went
    ensures { (s : Seat) → IsPart (at_value s.value machine.old) (at_list start count machine.new)
        left machine.old machine.new s result }
{
    match newest_frame(machine) {
        Some(Frame::Seq { start: s, count: c }) if s == start && c == count => {
            take_off(machine);
            came(How::Next, left)
        }
        _ => came(How::Left, left),
    }
}

/// A form in a scope is over.
#[inline(always)]
pub fn back_from_scope<S: Store>(machine: &mut Machine<S>, left: u64) -> Went
    ensures { (s : Seat) → IsWent (at_value s.value machine.old) left machine.old machine.new s
        result }
{
    match newest_frame(machine) {
        Some(Frame::ScopeExit { scope }) => {
            take_off(machine);
            stand_in(machine, scope);
            came(How::Given, left)
        }
        _ => came(How::Left, left),
    }
}

/// A turn of a loop is over.
#[inline(always)]
pub fn back_from_turn<S: Store>(machine: &mut Machine<S>, turns: u32, left: u64) -> Went
    ensures { (s : Seat) → IsPart (at_value s.value machine.old) (after_turn turns machine.new) left
        machine.old machine.new s result }
{
    match newest_frame(machine) {
        Some(Frame::Turned { turns: t }) if t == turns => {
            take_off(machine);
            came(How::Next, left)
        }
        _ => came(How::Left, left),
    }
}

/// What a loop does after a turn is over.
#[inline(always)]
pub fn back_from_update<S: Store>(machine: &mut Machine<S>, turns: u32, left: u64) -> Went
    ensures { (s : Seat) → IsPart (at_value s.value machine.old) (at_test turns machine.new) left
        machine.old machine.new s result }
{
    match newest_frame(machine) {
        Some(Frame::Updated { turns: t }) if t == turns => {
            take_off(machine);
            came(How::Next, left)
        }
        _ => came(How::Left, left),
    }
}

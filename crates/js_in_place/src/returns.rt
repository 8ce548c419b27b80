// The ends of bodies.

ghost use Rattle.std.specs.Prelude.{◌≡◌, ℕ, Some, false, true};
ghost use Rattle.js_direct.specs.declared.plain.Plain.{Plain};
ghost use Rattle.js_in_place.specs.Places.{ComesTo, IsWent, at_return, at_value};
ghost use Rattle.js_machine.specs.Opened.{without_body};
ghost use Rattle.js_machine.specs.Views.{newest};

use crate::frames::{newest_frame, take_off};
use crate::seat::{How, Seat, Went, came, given};
use js_direct::plain::{Plain, as_value};
use js_machine::frame::{Frame, Mode};
use js_machine::machine::Machine;
use js_machine_statements::slots::stand_in;
use js_store::store::Store;

/// How many frames a value that is returned passes before a run looks up.
pub const MOST_FRAMES: u32 = 1000;

/// A value is given where a call waits for it.
#[inline(always)]
pub fn pass<S: Store>(machine: &mut Machine<S>, seat: &mut Seat, value: Plain, left: u64) -> Went
    ensures { IsWent (at_value value machine.old) left machine.old machine.new seat.new result }
{
    match newest_frame(machine) {
        Some(Frame::Given) => {
            take_off(machine);
            given(seat, value, left)
        }
        _ => given(seat, value, left),
    }
}

/// The body of a call is over.
#[inline(always)]
pub fn close<S: Store>(machine: &mut Machine<S>, seat: &mut Seat, value: Plain, left: u64) -> Went
    ensures { let after = without_body machine.old in
        IsWent (at_value value after) left after machine.new seat.new result }
{
    machine.close_body();
    pass(machine, seat, value, left)
}

/// A value is returned still, and the machine's own steps go on.
#[inline(never)]
fn returned<S: Store>(machine: &mut Machine<S>, seat: &mut Seat, value: Plain, left: u64) -> Went
    ensures { IsWent (at_return value machine.old) left machine.old machine.new seat.new result }
{
    let Ok(_) = machine.push(as_value(value)) else {
        return came(How::Failed, left);
    };
    seat.mode = Mode::Return;
    came(How::Other, left)
}

/// The newest frame is let go, if a value that is returned passes it: tells whether it does.
#[inline(always)]
fn passes<S: Store>(machine: &mut Machine<S>, frame: Frame) -> bool
    ensures over { newest machine.old.frames ≡ Some frame → result ≡ true
        → (v : Plain) (left : ℕ) → let from = at_return v machine.old in
        ComesTo left machine.old machine.new from (at_return v machine.new) left }
    ensures stays { result ≡ false → machine.new ≡ machine.old }
{
    match frame {
        Frame::Seq { .. } => {
            take_off(machine);
            true
        }
        Frame::Turned { .. } => {
            take_off(machine);
            true
        }
        Frame::ScopeExit { scope } => {
            take_off(machine);
            stand_in(machine, scope);
            true
        }
        _ => false,
    }
}

/// A value is returned (ECMA-262, the return Statement): it passes what else waits in the body, and the call has it.
pub fn leave<S: Store>(machine: &mut Machine<S>, seat: &mut Seat, value: Plain, left: u64) -> Went
    ensures { IsWent (at_return value machine.old) left machine.old machine.new seat.new result }
{
    for _i in 0..MOST_FRAMES {
        let Some(frame) = newest_frame(machine) else {
            return returned(machine, seat, value, left);
        };
        if let Frame::Called = frame {
            take_off(machine);
            return close(machine, seat, value, left);
        }
        if !passes(machine, frame) {
            return returned(machine, seat, value, left);
        }
    }
    returned(machine, seat, value, left)
}

// The value that a form gave comes to frames of forms that wait for it.

ghost use Rattle.std.specs.Prelude.{ℕ};
ghost use Rattle.js_in_place.specs.InPlace.{RunsTo, point_at};
ghost use Rattle.js_in_place.specs.Places.{IsWent, Place, at_value};
ghost use Rattle.js_in_place.specs.declared.spot.Spot.{Spot};
ghost use Rattle.js_machine.specs.Views.{View};

use crate::deliver::deliver_within;
use crate::frames::newest_frame;
use crate::seat::{How, Seat, Went, came, given, held_back, led_by, next};
use crate::spot::{Spot, Stand};
use js_machine::machine::Machine;
use js_store::store::Store;

/// How many frames in a row take a value before a run looks up.
pub const MOST_RESUMED: u32 = 1000;

/// What came of a form, by where a run stands.
#[inline(always)]
fn stood(seat: &mut Seat, stand: Stand) -> Went
    ensures { (p : Spot) (left : ℕ) (old new : View) → RunsTo p left old new stand
        → IsWent (λ a. point_at a old p) left old new seat.new result }
{
    match stand.spot {
        Spot::Form(at) => next(seat, at, stand.left),
        Spot::Given(value) => {
            if !stand.further {
                return held_back(seat, value, stand.left);
            }
            given(seat, value, stand.left)
        }
        Spot::Other(mode) => led_by(seat, mode, stand.left),
    }
}

/// A value that was given comes to the newest frame, where that is one of a form that waits, or of a body; else it is to come to it still.
#[inline(always)]
fn resume<S: Store>(machine: &mut Machine<S>, seat: &mut Seat, left: u64) -> Went
    ensures { IsWent (at_value seat.old.value machine.old) left machine.old machine.new seat.new result }
{
    let Some(frame) = newest_frame(machine) else {
        return came(How::Left, left);
    };
    let Ok(stand) = deliver_within(machine, frame, seat.value, left) else {
        return came(How::Failed, left);
    };
    stood(seat, stand)
}

/// The same, as often as a value is given.
#[inline]
fn resume_all<S: Store>(machine: &mut Machine<S>, seat: &mut Seat, left: u64) -> Went
    ensures { IsWent (at_value seat.old.value machine.old) left machine.old machine.new seat.new result }
{
    let mut left = left;
    for _i in 0..MOST_RESUMED {
        let step = resume(machine, seat, left);
        match step.how {
            How::Given => left = step.left,
            How::Left => return came(How::Given, step.left),
            _ => return step,
        }
    }
    came(How::Given, left)
}

/// What a form gave comes to the forms that wait for it.
#[inline(always)]
pub fn after_row<S: Store>(machine: &mut Machine<S>, seat: &mut Seat, step: Went) -> Went
    ensures { (from : Place) (left : ℕ) (first : View) → IsWent from left first machine.old seat.old step
        → IsWent from left first machine.new seat.new result }
{
    match step.how {
        How::Given => resume_all(machine, seat, step.left),
        _ => step,
    }
}

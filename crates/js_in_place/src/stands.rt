// Where a run stands after a form.

ghost use Rattle.std.specs.Prelude.{◌≡◌, IfOk, ℕ};
ghost use Rattle.js_direct.specs.declared.plain.Plain.TheVariants as plain_kind;
ghost use Rattle.js_in_place.specs.InPlace.{RunsTo, point_at};
ghost use Rattle.js_in_place.specs.Places.{IsWent};
ghost use Rattle.js_in_place.specs.declared.spot.Spot.{Spot};
ghost use Rattle.js_machine.specs.Views.{View};
ghost use Rattle.js_machine.specs.declared.frame.Mode.TheVariants as mode_kind;

use crate::seat::{How, Seat, Went};
use crate::spot::{Spot, Stand, at_form, at_value, stopped_at};
use js_direct::plain::Plain;
use js_machine::frame::Mode;
use lava_base::memory::OutOfMemory;

/// A seat before anything is known.
#[inline(always)]
pub fn new_seat(at: u32) -> Seat
    ensures { result ≡ record { at = at; value = plain_kind.Undefined; mode = mode_kind.Value } }
{
    Seat {
        at,
        value: Plain::Undefined,
        mode: Mode::Value,
    }
}

/// Where a run stands after a form went so far.
#[inline(always)]
pub fn stand_of(seat: Seat, step: Went) -> Result<Stand, OutOfMemory>
    ensures { IfOk result (λ s. (p : Spot) (left : ℕ) (old new : View)
        → IsWent (λ a. point_at a old p) left old new seat step → RunsTo p left old new s) }
{
    match step.how {
        How::Given => Ok(at_value(seat.value, step.left)),
        How::Left => Ok(at_value(seat.value, step.left)),
        How::Next => Ok(at_form(seat.at, step.left)),
        How::Stopped => Ok(stopped_at(Spot::Form(seat.at), step.left)),
        How::Other => Ok(stopped_at(Spot::Other(seat.mode), step.left)),
        How::Failed => Err(OutOfMemory),
    }
}

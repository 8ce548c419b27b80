// Lists of one form.

ghost use Rattle.js_in_place.specs.Places.{IsWent, at_list};

use crate::seat::{How, Seat, Went, came, given, next};
use js_direct::plain::Plain;
use js_machine::machine::Machine;
use js_store::store::Store;

/// The only form of a list takes its place; where the table has none there, nothing is done.
#[inline(always)]
pub fn only<S: Store>(machine: &Machine<S>, seat: &mut Seat, start: u32, left: u64) -> Went
    ensures { IsWent (at_list start 1 machine.now) left machine.now machine.now seat.new result }
{
    let Ok(there) = machine.listed(start, 1) else {
        return came(How::Failed, left);
    };
    if there == 0 {
        return given(seat, Plain::Undefined, left);
    }
    next(seat, machine.number(start), left)
}

// How far forms get in place.

ghost use Rattle.std.specs.Prelude.{◌≡◌};
ghost use Rattle.js_in_place.specs.Places.{IsWent, at_mode};
ghost use Rattle.js_machine.specs.Views.{View};
ghost use Rattle.js_in_place.specs.declared.seat.How.TheVariants as how_kind;

use js_direct::plain::Plain;
use js_machine::frame::Mode;

/// What came of a form, or of a part of one.
#[derive(Clone, Copy)]
pub enum How {
    /// A value is given, and nothing is left of it.
    Given,
    /// A value comes to the newest frame, and no more is done in place.
    Left,
    /// It goes on with another form.
    Next,
    /// A form is to begin, and no more is done in place.
    Stopped,
    /// The machine's own steps go on.
    Other,
    /// Memory is wanting.
    Failed,
}

/// What came of a form, and how many steps are left.
#[derive(Clone, Copy)]
pub struct Went {
    pub how: How,
    pub left: u64,
}

/// The form that is next, the value that is given, and what is next for the machine's own steps.
#[derive(Clone, Copy)]
pub struct Seat {
    pub at: u32,
    pub value: Plain,
    pub mode: Mode,
}

/// What came of a form, with so much left.
#[inline(always)]
pub fn came(how: How, left: u64) -> Went
    ensures { result ≡ record { how = how; left = left } }
{
    Went { how, left }
}

/// A value is given.
#[inline(always)]
pub fn given(seat: &mut Seat, value: Plain, left: u64) -> Went
    ensures went { result ≡ record { how = how_kind.Given; left = left } }
    ensures value { seat.new ≡ record seat.old { value = value } }
{
    seat.value = value;
    came(How::Given, left)
}

/// Another form is next.
#[inline(always)]
pub fn next(seat: &mut Seat, at: u32, left: u64) -> Went
    ensures went { result ≡ record { how = how_kind.Next; left = left } }
    ensures form { seat.new ≡ record seat.old { at = at } }
{
    seat.at = at;
    came(How::Next, left)
}

/// A form is to begin, and no more is done in place.
#[inline(always)]
pub fn stopped(seat: &mut Seat, at: u32, left: u64) -> Went
    ensures went { result ≡ record { how = how_kind.Stopped; left = left } }
    ensures form { seat.new ≡ record seat.old { at = at } }
{
    seat.at = at;
    came(How::Stopped, left)
}

/// A value comes to the newest frame still.
#[inline(always)]
pub fn held_back(seat: &mut Seat, value: Plain, left: u64) -> Went
    ensures went { result ≡ record { how = how_kind.Left; left = left } }
    ensures value { seat.new ≡ record seat.old { value = value } }
{
    seat.value = value;
    came(How::Left, left)
}

/// The machine's own steps go on.
#[inline(always)]
pub fn led_by(seat: &mut Seat, mode: Mode, left: u64) -> Went
    ensures went { result ≡ record { how = how_kind.Other; left = left } }
    ensures mode { seat.new ≡ record seat.old { mode = mode } }
{
    seat.mode = mode;
    came(How::Other, left)
}

/// The machine's own steps go on, with a form in place where one is next.
#[inline(always)]
pub fn led(seat: &mut Seat, mode: Mode, left: u64) -> Went
    ensures { (w : View) → IsWent (at_mode mode w) left w w seat.new result }
{
    if let Mode::Eval(at) = mode {
        return next(seat, at, left);
    }
    seat.mode = mode;
    came(How::Other, left)
}

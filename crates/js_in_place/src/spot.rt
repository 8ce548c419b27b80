// Where a run in place stands.

ghost use Rattle.std.specs.Prelude.{◌≡◌, true};
ghost use Rattle.js_in_place.specs.declared.spot.Spot.TheVariants as spot_kind;

use js_direct::plain::Plain;
use js_machine::frame::Mode;

/// A form that begins, a plain value that comes to the newest frame, or what else the machine's own steps go on with.
#[derive(Clone, Copy)]
pub enum Spot {
    Form(u32),
    Given(Plain),
    Other(Mode),
}

/// Where a run stands, how many steps it may still take, and whether it is to go on in place.
#[derive(Clone, Copy)]
pub struct Stand {
    pub spot: Spot,
    pub left: u64,
    pub further: bool,
}

/// A form begins.
#[inline]
pub fn at_form(at: u32, left: u64) -> Stand
    ensures { result ≡ record { spot = spot_kind.Form at; left = left; further = true } }
{
    Stand {
        spot: Spot::Form(at),
        left,
        further: true,
    }
}

/// A value is given.
#[inline]
pub fn at_value(value: Plain, left: u64) -> Stand
    ensures { result ≡ record { spot = spot_kind.Given value; left = left; further = true } }
{
    Stand {
        spot: Spot::Given(value),
        left,
        further: true,
    }
}

/// Here nothing more is done in place.
#[inline]
pub fn stopped_at(spot: Spot, left: u64) -> Stand
    ensures spot { result.spot ≡ spot }
    ensures left { result.left ≡ left }
{
    Stand {
        spot,
        left,
        further: false,
    }
}

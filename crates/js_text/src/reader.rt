// Reading a text unit by unit.

ghost use Rattle.std.specs.Prelude.{◌≡◌, ◌<◌, ◌≤◌, length, slice_index};
ghost use Rattle.js_text.specs.declared.text.TheConstants.{MAX_UNITS};

use crate::text::Text;
use std::marker::Model;

/// A text whose units are read at places that mostly stand close together. It keeps the piece in which the last one stood.
#[derive(Drop)]
pub(crate) struct UnitReader<'a> {
    text: &'a Text,
    /// The units of a piece.
    run: &'a [u16],
    /// The place of the first of them.
    start: u32,
}

impl<'a> Model for UnitReader<'a> {
    ghost use Rattle.std.specs.Prelude.{◌≡◌, ◌+◌, ◌≤◌, List, ℕ, length, take, drop};

    ghost Value = { List ℕ };

    ghost view = { λ r. r.text.now };

    ghost invariant = { λ r. (r.run.now ≡ take (length r.run.now) (drop r.start r.text.now))
        × (r.start + length r.run.now ≤ length r.text.now) };
}

impl<'a> UnitReader<'a> {
    /// One that has read nothing yet.
    pub(crate) fn new(text: &'a Text) -> UnitReader<'a>
        requires { 0 < length text.now }
        ensures { result ≡ text.now }
    {
        UnitReader {
            text,
            run: text.run_at(0),
            start: 0,
        }
    }

    /// How many units there are.
    pub(crate) fn len(&self) -> u32
        ensures len { result ≡ length self.now }
        ensures within { result ≤ MAX_UNITS }
    {
        self.text.len()
    }

    /// The unit at a place.
    pub(crate) fn unit(&mut self, at: u32) -> u16
        requires { at < length self.old }
        ensures unit { result ≡ slice_index self.old at }
        ensures text { self.new ≡ self.old }
    {
        if self.start <= at {
            let place = (at - self.start) as usize;
            if place < self.run.len() {
                return self.run[place];
            }
        }
        self.run = self.text.run_at(at);
        self.start = at;
        self.run[0]
    }
}

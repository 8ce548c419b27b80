// Quoted texts.

ghost use Rattle.std.specs.Prelude.{◌≡◌, ◌<◌, ◌&&◌, nat_lt, IfOk, OnOk};
ghost use Rattle.lava_trace.specs.Items as spec;

use crate::left::LineReader;
use js_text::text::{MAX_UNITS, Text, from_units};
use lava_base::list::List;
use lava_base::memory::OutOfMemory;

/// What a hexadecimal digit counts.
fn hex_value(byte: u8) -> u16
    ensures value { result ≡ spec.hex_value byte }
    ensures bound { result < 16 }
{
    if 48 <= byte && byte < 58 {
        return (byte - 48) as u16;
    }
    if 97 <= byte && byte < 103 {
        return (byte - 87) as u16;
    }
    0
}

impl<'a> LineReader<'a> {
    /// Four hexadecimal digits from a place on.
    #[tactic(auto, unfolding(crate::specs::Items::hex_at))]
    fn hex(&self, at: usize) -> u16
        requires { at < 8 }
        ensures { result ≡ spec.hex_at self.now at }
    {
        let first = hex_value(self.byte(at));
        let second = hex_value(self.byte(at + 1));
        let third = hex_value(self.byte(at + 2));
        let fourth = hex_value(self.byte(at + 3));
        first * 4096 + second * 256 + third * 16 + fourth
    }

    /// Reads a unit of a text.
    #[tactic(auto, unfolding(crate::specs::Items::unit_at))]
    fn unit(&mut self) -> u16
        ensures value { result ≡ (spec.unit_at self.old).0 }
        ensures left { self.new ≡ (spec.unit_at self.old).1 }
    {
        let first = self.byte(0);
        let second = self.byte(1);
        if first == 92 {
            if second == 117 {
                let unit = self.hex(2);
                self.skip(6);
                return unit;
            }
            self.skip(2);
            return second as u16;
        }
        self.skip(1);
        first as u16
    }

    /// Whether one more unit may be read, and no `"` closes the text here.
    fn goes_on(&self, most: usize) -> bool
        ensures { result ≡ (nat_lt 0 most && spec.goes_on self.now) }
    {
        0 < most && !self.is_at_end() && self.byte(0) != 34
    }

    /// Reads the units of a text, behind its first `"`.
    #[tactic(auto, using(crate::proofs::Many_laws::one_more, crate::proofs::Many_laws::all_made, crate::proofs::Many_laws::all_left), unfolding(crate::specs::Items::units_at))]
    fn units(&mut self) -> Result<List<u16>, OutOfMemory>
        ensures value { IfOk result (λ units. units ≡ (spec.units_at self.old).0) }
        ensures left { OnOk result (self.new ≡ (spec.units_at self.old).1) }
    {
        let mut units = List::new(self.alloc);
        let mut most = self.len();
        while self.goes_on(most) {
            let unit = self.unit();
            units.push(unit)?;
            most -= 1;
        }
        Ok(units)
    }

    /// Reads a text between two `"`. One that is longer than a text may be is read as the empty one.
    #[tactic(auto, unfolding(crate::specs::Items::text_at))]
    pub(crate) fn text(&mut self) -> Result<Text, OutOfMemory>
        ensures value { IfOk result (λ text. text ≡ (spec.text_at self.old).0) }
        ensures left { OnOk result (self.new ≡ (spec.text_at self.old).1) }
    {
        self.skip(1);
        let units = self.units()?;
        self.skip(1);
        self.text_of(&units)
    }

    /// The text of these units, and the empty one where they are too many.
    fn text_of(&self, units: &List<u16>) -> Result<Text, OutOfMemory>
        ensures { IfOk result (λ text. text ≡ spec.fitting units.now) }
    {
        let fitting = if units.len() <= MAX_UNITS as usize {
            units.as_slice()
        } else {
            &[]
        };
        match from_units(self.alloc, fitting) {
            Ok(text) => Ok(text),
            Err(_) => Err(OutOfMemory),
        }
    }
}

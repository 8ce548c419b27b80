// Fingerprints of texts, by which most unequal ones are told apart at once.

ghost use Rattle.std.specs.Prelude.{◌≡◌, ◌≤◌, length};
ghost use Rattle.js_text.specs.Fingerprints.{fingerprint_with, text_fingerprint};
ghost use Rattle.js_text.specs.declared.text.TheConstants.{MAX_UNITS};

use crate::text::{Node, Text};

/// What the first unit counts in a fingerprint.
const FIRST_WEIGHT: u32 = 256;

/// What the unit in the middle counts.
const MIDDLE_WEIGHT: u32 = 2_048;

/// What the last unit counts. All together stay below 2^32.
const LAST_WEIGHT: u32 = 32_768;

/// The fingerprint of a text's units. It takes constant time.
pub(crate) fn fingerprint_of(units: &[u16]) -> u32
    requires { length units.now ≤ MAX_UNITS }
    ensures { result ≡ text_fingerprint units.now }
{
    let len = units.len();
    if len == 0 {
        return fingerprint_with(0, 0, 0, 0);
    }
    fingerprint_with(len as u32, units[0], units[len / 2], units[len - 1])
}

/// The fingerprint of so many units, of which these are the first, the middle and the last one.
fn fingerprint_with(len: u32, first: u16, middle: u16, last: u16) -> u32
    requires { len ≤ MAX_UNITS }
    ensures { result ≡ fingerprint_with len first middle last }
{
    let (first, middle, last) = (first as u32, middle as u32, last as u32);
    len + first * FIRST_WEIGHT + middle * MIDDLE_WEIGHT + last * LAST_WEIGHT
}

impl Text {
    /// A number that is the same for the same text. It takes constant time, and one look at a text of few units, which was made with it.
    #[inline]
    pub fn fingerprint(&self) -> u32
        ensures { result ≡ text_fingerprint self.now }
    {
        match &*self.node {
            Node::Whole { fingerprint, .. } => *fingerprint,
            _ => self.long_fingerprint(),
        }
    }

    /// The fingerprint of a text whose units stand apart.
    #[inline(never)]
    fn long_fingerprint(&self) -> u32
        ensures { result ≡ text_fingerprint self.now }
    {
        let len = self.len();
        if len == 0 {
            return fingerprint_with(0, 0, 0, 0);
        }
        fingerprint_with(len, self.unit(0), self.unit(len / 2), self.unit(len - 1))
    }
}

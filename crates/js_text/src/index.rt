// Which texts are array indices.

ghost use Rattle.std.specs.Prelude.{◌≡◌, ◌<◌, ◌≤◌, ◌↔◌, length, slice_index, IsTrue, IfSome, IfNone, MatchOption};
ghost use Rattle.std.specs.Str.Parse.{AllDigits, digits_value};
ghost use Rattle.js_text.specs.Indices.{WritesIndex, WritesNoIndex, IsKeyOf, key_of_text};

use crate::text::Text;
use crate::value::Key;

/// The greatest array index, 2^32 - 2.
pub const MAX_INDEX: u32 = 4_294_967_294;

/// How many digits it has.
const MAX_DIGITS: u32 = 10;

/// The array index that a text writes (ECMA-262, CanonicalNumericIndexString): in decimal, at most `MAX_INDEX`, with no leading zero but in "0" itself.
pub fn index_of_text(text: &Text) -> Option<u32>
    ensures index { IfSome result (λ n. WritesIndex text.now n) }
    ensures none { IfNone result (WritesNoIndex text.now) }
{
    if text.len() == 0 || text.len() > MAX_DIGITS || has_leading_zero(text) {
        return None;
    }
    match value_of_digits(text) {
        Some(value) if value <= MAX_INDEX as u64 => Some(value as u32),
        _ => None,
    }
}

/// The property key that a text is (ECMA-262, "The Object Type").
pub fn key_of_text(text: Text) -> Key
    ensures key { IsKeyOf text result }
    ensures exact { result ≡ key_of_text text }
{
    match index_of_text(&text) {
        Some(index) => Key::Index(index),
        None => Key::Text(text),
    }
}

/// Whether there are several units and the first is the digit 0.
fn has_leading_zero(text: &Text) -> bool
    ensures { IsTrue result ↔ ((1 < length text.now) × (slice_index text.now 0 ≡ 48)) }
{
    text.len() > 1 && text.unit(0) == 0x30
}

/// The number that at most ten decimal digits write, and none where a unit is no digit.
fn value_of_digits(text: &Text) -> Option<u64>
    requires { length text.now ≤ MAX_DIGITS }
    ensures { MatchOption result (¬ (AllDigits 10 text.now))
        (λ value. AllDigits 10 text.now × (value ≡ digits_value 10 text.now)) }
{
    let mut value = 0;
    for at in 0..text.len() {
        let unit = text.unit(at);
        if unit < 0x30 || unit > 0x39 {
            return None;
        }
        value = value * 10 + (unit - 0x30) as u64;
    }
    Some(value)
}

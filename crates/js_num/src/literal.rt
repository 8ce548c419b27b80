// The safe integer of a literal.

ghost use Rattle.std.specs.Prelude.{◌≡◌, ℕ, ℤ, ◌<◌, ◌≤◌, IfOk, OnErr};
ghost use Rattle.std.specs.Str.Parse.{AllDigits};
ghost use Rattle.js_num.specs.Numerals.{IsMagnitude, signed};
ghost use Rattle.js_num.specs.Views.{parts_view};
ghost use Rattle.lava_base.specs.SafeIntegers.{IsSafe};
ghost use Rattle.js_num.specs.SafeRange.{NoSafe, IsPastSafe, max_safe};
ghost use Rattle.js_num.specs.StringToNumber.{IsDecimalOf, IsRadixOf, IsLiteralOf};
ghost use Rattle.js_num.specs.Reading.{read_radix};

use crate::digits::with_digits;
use crate::magnitude::{lowered, raised};
use crate::parts::{DecimalParts, parts_of, split_radix};
use crate::safe::NotSafe;

/// The safe integer of digits of a radix, of which there is one at least.
fn radix_number(text: &[u16], radix: u64, digits: &[u16]) -> Result<i64, NotSafe>
    requires { read_radix text.now ≡ Some (radix, digits.now) }
    ensures ok { IfOk result (IsRadixOf text.now) }
    ensures safe { IfOk result IsSafe }
    ensures err { OnErr result (NoSafe (IsRadixOf text.now)) }
{
    if digits.is_empty() {
        return Err(NotSafe);
    }
    Ok(with_digits(0, radix, digits)? as i64)
}

/// The safe number that the digits of a decimal literal write, with the point where the exponent puts it.
fn magnitude_of(parts: DecimalParts<'_>) -> Result<u64, NotSafe>
    requires integer { AllDigits 10 parts.integer.now }
    requires fraction { AllDigits 10 parts.fraction.now }
    requires exponent { AllDigits 10 parts.exponent.now }
    ensures ok { IfOk result (IsMagnitude (parts_view parts.entry)) }
    ensures safe { IfOk result (λ n. n ≤ max_safe) }
    ensures err { OnErr result (IsPastSafe (IsMagnitude (parts_view parts.entry))) }
{
    if parts.down {
        lowered(parts.integer, parts.fraction, parts.exponent)
    } else {
        raised(parts.integer, parts.fraction, parts.exponent)
    }
}

/// The integer of a sign and a safe magnitude.
pub fn signed_integer(negative: bool, magnitude: u64) -> i64
    requires { magnitude ≤ max_safe }
    ensures integer { result ≡ signed negative magnitude }
    ensures safe { IsSafe result }
{
    if negative {
        -(magnitude as i64)
    } else {
        magnitude as i64
    }
}

/// The safe integer of a decimal literal.
fn decimal_number(text: &[u16]) -> Result<i64, NotSafe>
    ensures ok { IfOk result (IsDecimalOf text.now) }
    ensures safe { IfOk result IsSafe }
    ensures err { OnErr result (NoSafe (IsDecimalOf text.now)) }
{
    let Some(parts) = parts_of(text) else {
        return Err(NotSafe);
    };
    let magnitude = magnitude_of(parts)?;
    Ok(signed_integer(parts.negative, magnitude))
}

/// The safe integer of a text that is empty or a literal.
pub fn literal_number(text: &[u16]) -> Result<i64, NotSafe>
    ensures ok { IfOk result (IsLiteralOf text.now) }
    ensures safe { IfOk result IsSafe }
    ensures err { OnErr result (NoSafe (IsLiteralOf text.now)) }
{
    if text.is_empty() {
        return Ok(0);
    }
    match split_radix(text) {
        Some((radix, digits)) => radix_number(text, radix, digits),
        None => decimal_number(text),
    }
}

// The number that the digits of a decimal literal write, with the point where the exponent puts it.

ghost use Rattle.std.specs.Prelude.{◌≡◌, ℕ, ◌+◌, ◌*◌, ◌^◌, ◌<◌, ◌≤◌, ◌++◌, length, IfOk, OnErr};
ghost use Rattle.std.specs.Str.Parse.{AllDigits, digits_value};
ghost use Rattle.js_num.specs.Numerals.{IsRaised, IsLowered, AreZeros};
ghost use Rattle.js_num.specs.SafeRange.{max_safe, IsSafeNatural, IsPastSafe};

use crate::digits::{capped, joined, with_digit};
use crate::safe::NotSafe;

/// So many zeros put any number but 0 past the safe ones.
const MOST_ZEROS: usize = 16;

/// The number with zeros behind its digits, where that is safe.
fn with_zeros(number: u64, zeros: usize) -> Result<u64, NotSafe>
    requires { number ≤ max_safe }
    ensures ok { IfOk result (IsSafeNatural (number * 10 ^ zeros)) }
    ensures err { OnErr result (max_safe < number * 10 ^ zeros) }
{
    let mut next = number;
    for _ in 0..zeros {
        next = with_digit(next, 10, 0)?;
    }
    Ok(next)
}

/// The number, where all the digits behind the point are 0.
fn where_zeros(number: u64, first: &[u16], second: &[u16]) -> Result<u64, NotSafe>
    requires first { AllDigits 10 first.now }
    requires second { AllDigits 10 second.now }
    ensures ok { IfOk result (λ n. (n ≡ number) × AreZeros (first.now ++ second.now)) }
    ensures err { OnErr result (0 < digits_value 10 (first.now ++ second.now)) }
{
    if joined(first, second)? != 0 {
        return Err(NotSafe);
    }
    Ok(number)
}

/// The safe number that the digits write, with the point moved towards their end by the exponent.
pub fn raised(integer: &[u16], fraction: &[u16], exponent: &[u16]) -> Result<u64, NotSafe>
    requires integer { AllDigits 10 integer.now }
    requires fraction { AllDigits 10 fraction.now }
    requires exponent { AllDigits 10 exponent.now }
    ensures ok { IfOk result (IsRaised integer.now fraction.now exponent.now) }
    ensures safe { IfOk result (λ n. n ≤ max_safe) }
    ensures err { OnErr result (IsPastSafe (IsRaised integer.now fraction.now exponent.now)) }
{
    let places = capped(exponent, fraction.len() + MOST_ZEROS);
    if places <= fraction.len() {
        let (before, after) = fraction.split_at(places);
        return where_zeros(joined(integer, before)?, after, &[]);
    }
    with_zeros(joined(integer, fraction)?, places - fraction.len())
}

/// The safe number that the digits write, with the point moved towards their front by the exponent.
pub fn lowered(integer: &[u16], fraction: &[u16], exponent: &[u16]) -> Result<u64, NotSafe>
    requires integer { AllDigits 10 integer.now }
    requires fraction { AllDigits 10 fraction.now }
    requires exponent { AllDigits 10 exponent.now }
    ensures ok { IfOk result (IsLowered integer.now fraction.now exponent.now) }
    ensures safe { IfOk result (λ n. n ≤ max_safe) }
    ensures err { OnErr result (IsPastSafe (IsLowered integer.now fraction.now exponent.now)) }
{
    let places = capped(exponent, integer.len());
    let (before, after) = integer.split_at(integer.len() - places);
    where_zeros(joined(before, &[])?, after, fraction)
}

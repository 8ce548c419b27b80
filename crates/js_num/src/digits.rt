// Digits of a radix, and the numbers that they write.

ghost use Rattle.std.specs.Prelude.{◌≡◌, ◌+◌, ◌*◌, ◌<◌, ◌≤◌, ◌++◌, min, IfOk, OnErr};
ghost use Rattle.std.specs.Char.{digit_value};
ghost use Rattle.std.specs.Str.Parse.{AllDigits, digits_value, digits_value_after};
ghost use Rattle.js_num.specs.SafeRange.{max_safe, IsSafeNatural};
ghost use Rattle.js_num.specs.Numerals.{IsTooLarge};

use crate::safe::NotSafe;
use lava_base::limits::MAX_SAFE_INTEGER;

/// The value of a digit below 36, and 36 of any other unit.
fn value_of_digit(unit: u16) -> u64
    ensures { result ≡ digit_value unit }
{
    match unit {
        0x30..=0x39 => unit as u64 - 0x30,
        0x41..=0x5a => unit as u64 - 0x37,
        0x61..=0x7a => unit as u64 - 0x57,
        _ => 36,
    }
}

/// The number with one more digit at its end, where that is safe.
pub fn with_digit(number: u64, radix: u64, digit: u64) -> Result<u64, NotSafe>
    requires number { number ≤ max_safe }
    requires radix { radix ≤ 16 }
    requires digit { digit ≤ 36 }
    ensures ok { IfOk result (IsSafeNatural (number * radix + digit)) }
    ensures err { OnErr result (max_safe < number * radix + digit) }
{
    let next = number * radix + digit;
    if next > MAX_SAFE_INTEGER {
        return Err(NotSafe);
    }
    Ok(next)
}

/// The safe number that the digits write when they follow those of `number`; not safe also where one of them is no digit of the radix.
pub fn with_digits(number: u64, radix: u64, digits: &[u16]) -> Result<u64, NotSafe>
    requires number { number ≤ max_safe }
    requires radix { (2 ≤ radix) × (radix ≤ 16) }
    ensures digits { IfOk result (λ n. AllDigits radix digits.now) }
    ensures ok { IfOk result (IsSafeNatural (digits_value_after radix number digits.now)) }
    ensures err { OnErr result (IsTooLarge radix number digits.now) }
{
    let mut next = number;
    for unit in digits {
        let digit = value_of_digit(*unit);
        if digit >= radix {
            return Err(NotSafe);
        }
        next = with_digit(next, radix, digit)?;
    }
    Ok(next)
}

/// The safe number that decimal digits write, the second ones after the first.
pub fn joined(first: &[u16], second: &[u16]) -> Result<u64, NotSafe>
    requires first { AllDigits 10 first.now }
    requires second { AllDigits 10 second.now }
    ensures ok { IfOk result (IsSafeNatural (digits_value 10 (first.now ++ second.now))) }
    ensures err { OnErr result (max_safe < digits_value 10 (first.now ++ second.now)) }
{
    let number = with_digits(0, 10, first)?;
    with_digits(number, 10, second)
}

/// The number that decimal digits write, or `most` where it is more.
pub fn capped(digits: &[u16], most: usize) -> usize
    requires { AllDigits 10 digits.now }
    ensures { result ≡ min (digits_value 10 digits.now) most }
{
    let mut number: usize = 0;
    for unit in digits {
        let digit = value_of_digit(*unit) as usize;
        number = number.saturating_mul(10).saturating_add(digit).min(most);
    }
    number
}

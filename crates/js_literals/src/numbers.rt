// The numbers of numeric literals.

ghost use Rattle.std.specs.Prelude.{◌≡◌, ◌≤◌, ℤ, true, length, IfOk, IfSome, IfNone};
ghost use Rattle.lava_base.specs.SafeIntegers.{IsSafe};
ghost use Rattle.js_num.specs.SafeRange.{NoSafe};
ghost use Rattle.js_literals.specs.NumericValues.{IsMv, may_begin, is_visible, is_enclosed};

use crate::units::{byte_units, write_units};
use js_num::safe::Safe;
use lava_base::memory::OutOfMemory;
use std::alloc::Global;

/// How many bytes a literal has at most that takes no memory.
const SHORT: usize = 64;

/// The integer that a numeric literal writes, exactly, and none exactly where it writes no safe integer (ECMA-262, "Static Semantics: MV").
///
/// A literal of at most `SHORT` bytes takes no memory.
pub fn numeric_value(alloc: Global, literal: &[u8]) -> Result<Option<Safe>, OutOfMemory>
    ensures some { IfOk result (λ number. IfSome number (IsMv literal.now)) }
    ensures safe { IfOk result (λ number. IfSome number IsSafe) }
    ensures none { IfOk result (λ number. IfNone number (NoSafe (IsMv literal.now))) }
{
    if !is_enclosed(literal) {
        return Ok(None);
    }
    if literal.len() <= SHORT {
        return Ok(short_value(literal));
    }
    let units = byte_units(alloc, literal)?;
    Ok(value_of_units(&units))
}

/// Whether a text begins as a numeric literal does, and ends with no white space.
fn is_enclosed(text: &[u8]) -> bool
    ensures { result ≡ is_enclosed text.now }
{
    match text {
        [] => false,
        [first, ..] => may_begin(*first) && is_visible(text[text.len() - 1]),
    }
}

/// A digit or a point.
fn may_begin(byte: u8) -> bool
    ensures { result ≡ may_begin byte }
{
    byte.is_ascii_digit() || byte == b'.'
}

/// A character of ASCII that is seen.
fn is_visible(byte: u8) -> bool
    ensures { result ≡ is_visible byte }
{
    33 <= byte && byte <= 126
}

/// The integer of a short literal.
fn short_value(literal: &[u8]) -> Option<Safe>
    requires short { length literal.now ≤ SHORT }
    requires enclosed { is_enclosed literal.now ≡ true }
    ensures some { IfSome result (IsMv literal.now) }
    ensures safe { IfSome result IsSafe }
    ensures none { IfNone result (NoSafe (IsMv literal.now)) }
{
    let mut units = [0; SHORT];
    write_units(literal, &mut units);
    value_of_units(&units[..literal.len()])
}

/// The integer of a literal, as units.
fn value_of_units(literal: &[u16]) -> Option<Safe>
    requires { is_enclosed literal.now ≡ true }
    ensures some { IfSome result (IsMv literal.now) }
    ensures safe { IfSome result IsSafe }
    ensures none { IfNone result (NoSafe (IsMv literal.now)) }
{
    match Safe::from_text(literal) {
        Ok(number) => Some(number),
        Err(_) => None,
    }
}

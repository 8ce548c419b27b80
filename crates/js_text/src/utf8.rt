// Texts from UTF-8.

ghost use Rattle.std.specs.Prelude.{◌≡◌, ℕ, ◌+◌, ◌^◌, ◌<◌, ◌≤◌, ◌↔◌, length, min, IsTrue, IfOk, OnOk, IsErrOf, IsOkUnless};
ghost use Rattle.std.specs.Str.{IsUtf8, chars, IsValidUpTo, StartsWithNoChar};
ghost use Rattle.js_text.specs.Utf8.{utf16_of, units_of, GoesTo, IsFault, IsTooLong, MayFollow};
ghost use Rattle.js_text.specs.declared.fault.TextFault.TheVariants as fault;
ghost use Rattle.js_text.specs.declared.text.TheConstants.{MAX_UNITS};

use crate::fault::TextFault;
use crate::text::{MAX_UNITS, Text, text_of_vec};
use std::alloc::Global;

/// The text whose UTF-8 these bytes are, in UTF-16 (ECMA-262, CodePointsToString).
///
/// `NotUtf8` comes exactly where they are not UTF-8, even if they are too many as well.
/// `TooLong` comes exactly where they are UTF-8 of more than `MAX_UNITS` units, or where the place that `NotUtf8` would tell is past 4,294,967,295.
pub fn from_utf8(alloc: Global, bytes: &[u8]) -> Result<Text, TextFault>
    ensures utf8 { OnOk result (IsUtf8 bytes.now) }
    ensures units { IfOk result (λ text. text ≡ units_of bytes.now) }
    ensures not_utf8 { (at : ℕ) → at < 2 ^ 32
        → IsErrOf result (fault.NotUtf8 at) ↔ IsFault bytes.now at }
    ensures too_long { IsErrOf result TextFault.TooLong ↔ IsTooLong bytes.now }
    ensures memory { IsUtf8 bytes.now → length (units_of bytes.now) ≤ MAX_UNITS
        → IsOkUnless result TextFault.OutOfMemory }
{
    match str::from_utf8(bytes) {
        Ok(text) => text_of_str(alloc, text),
        Err(error) => Err(fault_at(fault_place(bytes, error.valid_up_to()))),
    }
}

/// The text of the characters in UTF-16.
fn text_of_str(alloc: Global, text: &str) -> Result<Text, TextFault>
    ensures units { IfOk result (λ made. made ≡ units_of text.now) }
    ensures too_long { IsErrOf result TextFault.TooLong ↔ (MAX_UNITS < length (units_of text.now)) }
    ensures memory { length (units_of text.now) ≤ MAX_UNITS
        → IsOkUnless result TextFault.OutOfMemory }
{
    let len = capped_len(text);
    if len > MAX_UNITS as usize {
        return Err(TextFault::TooLong);
    }
    let mut units = Vec::with_capacity(alloc, len)?;
    for character in text.chars() {
        let mut buffer = [0; 2];
        units.extend_from_slice(character.encode_utf16(&mut buffer))?;
    }
    Ok(text_of_vec(alloc, units)?)
}

/// How many units the text takes in UTF-16, or `MAX_UNITS + 1` where that is less.
fn capped_len(text: &str) -> usize
    ensures { result ≡ min (length (units_of text.now)) (MAX_UNITS + 1) }
{
    let mut len = 0;
    for character in text.chars() {
        len = (len + character.len_utf16()).min(MAX_UNITS as usize + 1);
    }
    len
}

/// The fault that tells of this place.
fn fault_at(place: usize) -> TextFault
    ensures near { (at : ℕ) → at < 2 ^ 32 → (result ≡ fault.NotUtf8 at) ↔ (place ≡ at) }
    ensures far { (result ≡ fault.TooLong) ↔ (2 ^ 32 ≤ place) }
    ensures fault { ¬ (result ≡ fault.OutOfMemory) }
{
    if place <= u32::MAX as usize {
        TextFault::NotUtf8 { at: place as u32 }
    } else {
        TextFault::TooLong
    }
}

/// The place of the fault, where the first `valid` bytes are the longest front that is UTF-8.
fn fault_place(bytes: &[u8], valid: usize) -> usize
    requires { IsValidUpTo bytes.now valid }
    ensures { IsFault bytes.now result }
{
    valid + begun_len(&bytes[valid..])
}

/// How many of the bytes begin a character, where none stands there whole.
fn begun_len(bytes: &[u8]) -> usize
    requires some { 0 < length bytes.now }
    requires no_char { StartsWithNoChar bytes.now }
    ensures { GoesTo bytes.now result }
{
    let first = bytes[0];
    if first < 0xC2 || 0xF4 < first {
        return 0;
    }
    if bytes.len() < 2 || !may_follow(first, bytes[1]) {
        return 1;
    }
    if bytes.len() < 3 || bytes[2] < 0x80 || 0xBF < bytes[2] {
        return 2;
    }
    3
}

/// Whether a byte may stand after the first one of a character (the Unicode Standard, Well-Formed UTF-8 Byte Sequences).
fn may_follow(first: u8, second: u8) -> bool
    ensures { IsTrue result ↔ MayFollow first second }
{
    let least = match first {
        0xE0 => 0xA0,
        0xF0 => 0x90,
        _ => 0x80,
    };
    let most = match first {
        0xED => 0x9F,
        0xF4 => 0x8F,
        _ => 0xBF,
    };
    least <= second && second <= most
}

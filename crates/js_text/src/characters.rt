// The characters that units spell, and their bytes.

ghost use Rattle.std.specs.Prelude.{◌≡◌, ◌++◌, ◌&&◌, unwrap_or, encode_utf8, IsTrue, OnOk, OnErr};
ghost use Rattle.std.specs.Char.Utf16.{is_high_surrogate, is_low_surrogate, surrogate_pair_char, lone_unit_char};
ghost use Rattle.js_text.specs.Texts.{AddsPartOf};

use lava_base::list::List;
use lava_base::memory::OutOfMemory;

/// Appends the character in UTF-8.
pub(crate) fn push_character(out: &mut List<u8>, character: char) -> Result<(), OutOfMemory>
    ensures ok { OnOk result (out.new ≡ out.old ++ encode_utf8 character) }
    ensures err { OnErr result (AddsPartOf out.old out.new (encode_utf8 character)) }
{
    let mut buffer = [0; 4];
    let bytes = character.encode_utf8(&mut buffer).as_bytes();
    for byte in bytes {
        out.push(*byte)?;
    }
    Ok(())
}

/// Whether a unit is the first of a pair, if the second follows.
pub(crate) fn is_lead(unit: u16) -> bool
    ensures { result ≡ is_high_surrogate unit }
{
    0xD800 <= unit && unit < 0xDC00
}

/// Whether a unit is the second of a pair, if the first stands before it.
pub(crate) fn is_trail(unit: u16) -> bool
    ensures { result ≡ is_low_surrogate unit }
{
    0xDC00 <= unit && unit < 0xE000
}

/// The character that a pair of units is.
pub(crate) fn pair_character(lead: u16, trail: u16) -> char
    requires { IsTrue (is_high_surrogate lead && is_low_surrogate trail) }
    ensures { result ≡ surrogate_pair_char lead trail }
{
    let code = 0x1_0000 + (lead as u32 - 0xD800) * 0x400 + (trail as u32 - 0xDC00);
    char::from_u32(code).unwrap()
}

/// A unit that is in no pair, or U+FFFD where it is a surrogate.
pub(crate) fn lone_character(unit: u16) -> char
    ensures { result ≡ unwrap_or (lone_unit_char unit) 0xFFFD }
{
    char::from_u32(unit as u32).unwrap_or('\u{FFFD}')
}

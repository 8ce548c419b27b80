// The short way of what is ASCII and has no escape.

ghost use Rattle.std.specs.Prelude.{◌≡◌, ◌≤◌, ◌<◌, ◌↔◌, true, length, take, IfOk, IfSome, OnSome, IsTrue, IsErrOf, IsOkUnless};
ghost use Rattle.std.specs.List.{prefix_len};
ghost use Rattle.std.specs.Str.{IsAscii, IsUtf8, chars};
ghost use Rattle.js_literals.specs.Plain.{is_plain};
ghost use Rattle.js_literals.specs.StringValues.{is_end, value_behind, sv, tv};
ghost use Rattle.js_text.specs.declared.text.TheConstants.{MAX_UNITS};

use crate::pieces::Delimiter;
use crate::units::write_units;
use js_text::fault::TextFault;
use js_text::text::{Text, from_units};
use js_text::utf8::from_utf8;
use std::alloc::Global;

/// How many bytes are few: so many are made units aside.
const FEW: usize = 64;

/// Whether a byte is an ASCII character that stands for itself.
fn is_plain(delimiter: Delimiter, byte: u8) -> bool
    ensures { result ≡ is_plain delimiter byte }
{
    match delimiter {
        Delimiter::Quote(quote) => byte < 128 && !(char::from(byte) == quote || byte == b'\\'),
        Delimiter::Template => {
            byte < 128 && !(byte == b'`' || byte == b'\\' || byte == b'$' || byte == b'\r')
        }
    }
}

/// How many such bytes stand at the front.
fn plain_len(delimiter: Delimiter, bytes: &[u8]) -> usize
    ensures len { result ≡ prefix_len (is_plain delimiter) bytes.now }
    ensures within { result ≤ length bytes.now }
{
    let mut end = 0;
    while end < bytes.len() && is_plain(delimiter, bytes[end]) {
        end += 1;
    }
    end
}

/// Whether the bytes are an end of the text, and nothing more.
fn is_close(delimiter: Delimiter, bytes: &[u8]) -> bool
    ensures end { IsTrue result → is_end delimiter bytes.now ≡ true }
    ensures ascii { IsTrue result → IsAscii bytes.now }
{
    match delimiter {
        Delimiter::Quote(quote) => match bytes {
            [byte] => *byte < 128 && char::from(*byte) == quote,
            _ => false,
        },
        Delimiter::Template => matches!(bytes, [b'`'] | [b'$', b'{']),
    }
}

/// The bytes up to the end of the text, where they all stand for themselves and nothing follows.
fn plain_inside(delimiter: Delimiter, bytes: &[u8]) -> Option<&[u8]>
    ensures ascii { OnSome result (IsAscii bytes.now) }
    ensures inside { IfSome result (λ inside. IsAscii inside.now) }
    ensures value { IfSome result (λ inside. value_behind delimiter 0 bytes.now ≡ inside.now) }
{
    let (inside, close) = bytes.split_at(plain_len(delimiter, bytes));
    if is_close(delimiter, close) {
        Some(inside)
    } else {
        None
    }
}

/// The bytes between the quotes of a string literal, where they all stand for themselves.
pub fn plain_string(literal: &[u8]) -> Option<&[u8]>
    ensures utf8 { OnSome result (IsUtf8 literal.now) }
    ensures inside { IfSome result (λ inside. IsAscii inside.now) }
    ensures value { IfSome result (λ inside. sv (chars literal.now) ≡ inside.now) }
{
    match literal {
        [quote, behind @ ..] if *quote < 128 => {
            plain_inside(Delimiter::Quote(char::from(*quote)), behind)
        }
        _ => None,
    }
}

/// The same of a part of a template.
pub fn plain_template(part: &[u8]) -> Option<&[u8]>
    ensures utf8 { OnSome result (IsUtf8 part.now) }
    ensures inside { IfSome result (λ inside. IsAscii inside.now) }
    ensures value { IfSome result (λ inside. tv (chars part.now) ≡ inside.now) }
{
    match part {
        [first, behind @ ..] if *first < 128 => plain_inside(Delimiter::Template, behind),
        _ => None,
    }
}

/// The text of ASCII.
pub fn ascii_text(alloc: Global, ascii: &[u8]) -> Result<Text, TextFault>
    requires { IsAscii ascii.now }
    ensures units { IfOk result (λ text. text ≡ ascii.now) }
    ensures too_long { IsErrOf result TextFault.TooLong ↔ (MAX_UNITS < length ascii.now) }
    ensures memory { length ascii.now ≤ MAX_UNITS → IsOkUnless result TextFault.OutOfMemory }
{
    if ascii.len() <= FEW {
        few_text(alloc, ascii)
    } else {
        from_utf8(alloc, ascii)
    }
}

/// The text of few bytes, each of which is a unit.
fn few_text(alloc: Global, bytes: &[u8]) -> Result<Text, TextFault>
    requires { length bytes.now ≤ FEW }
    ensures units { IfOk result (λ text. text ≡ bytes.now) }
    ensures memory { IsOkUnless result TextFault.OutOfMemory }
{
    let mut units = [0; FEW];
    write_units(bytes, &mut units);
    from_units(alloc, &units[..bytes.len()])
}

// Characters, and which of them ECMA-262 has in which class.

ghost use Rattle.std.specs.Prelude.{◌≡◌, ◌-◌, ◌+◌, ◌<◌, IsTrue};
ghost use Rattle.js_lexer.specs.Characters.{is_line_terminator, is_white_space, is_name_start, is_name_part, is_digit, is_hex_digit, bars_number_end, hex_value};

use unicode_ident::{is_xid_continue, is_xid_start};

/// LF, CR, U+2028 and U+2029 (ECMA-262, "Line Terminators").
pub fn is_line_terminator(c: char) -> bool
    ensures { result ≡ is_line_terminator c }
{
    matches!(c, '\n' | '\r' | '\u{2028}' | '\u{2029}')
}

/// ECMA-262's WhiteSpace.
pub fn is_white_space(c: char) -> bool
    ensures { result ≡ is_white_space c }
{
    matches!(
        c,
        '\t' | '\u{b}' | '\u{c}' | ' ' | '\u{a0}' | '\u{1680}' | '\u{2000}'..='\u{200a}'
            | '\u{202f}'
            | '\u{205f}'
            | '\u{3000}'
            | '\u{feff}'
    )
}

#[tactic(auto, unfolding(crate::specs::Characters::is_name_start))]
/// A character with which a name begins: `$`, `_`, and Unicode's XID_Start.
pub fn is_name_start(c: char) -> bool
    ensures { result ≡ is_name_start c }
{
    c == '$' || c == '_' || is_xid_start(c)
}

#[tactic(auto, unfolding(crate::specs::Characters::is_name_part))]
/// A character with which a name goes on: `$`, and Unicode's XID_Continue, which has `_` and the digits.
pub fn is_name_part(c: char) -> bool
    ensures { result ≡ is_name_part c }
{
    c == '$' || is_xid_continue(c)
}

/// A decimal digit.
pub fn is_digit(c: char) -> bool
    ensures { result ≡ is_digit c }
{
    c.is_ascii_digit()
}

/// A hexadecimal digit.
pub fn is_hex_digit(c: char) -> bool
    ensures { result ≡ is_hex_digit c }
{
    c.is_ascii_hexdigit()
}

#[tactic(auto, unfolding(crate::specs::Characters::bars_number_end))]
/// The start of a name or a digit, before which no numeric literal ends (ECMA-262, "Numeric Literals").
pub fn bars_number_end(c: char) -> bool
    ensures { result ≡ bars_number_end c }
{
    is_digit(c) || c.is_ascii_alphabetic() || c == '$' || c == '_' || is_name_start(c)
}

/// The number that a hexadecimal digit writes.
pub fn hex_value(c: char) -> u32
    requires { IsTrue (is_hex_digit c) }
    ensures value { result ≡ hex_value c }
    ensures below { result < 16 }
{
    let code = c as u32;
    if code < 58 {
        code - 48
    } else if code < 71 {
        code - 55
    } else {
        code - 87
    }
}

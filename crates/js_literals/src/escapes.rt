// What stands behind a backslash (ECMA-262, "String Literals").

ghost use Rattle.std.specs.Prelude.{◌≡◌, ◌≤◌, ◌<◌, ◌-◌, ◌+◌, ◌∷◌, ℕ, List, drop, length, min, IsTrue, IfSome};
ghost use Rattle.js_lexer.specs.Characters.{is_hex_digit, hex_value};
ghost use Rattle.js_lexer.specs.Grammar.{hex_from};
ghost use Rattle.js_literals.specs.Escapes.{Piece, character_escape, escaped_by, hex_digits, code_point, digits_escape, code_point_escape, unicode_escape, escape_sequence, one_of};

use crate::characters::Characters;

/// The characters behind a backslash that stand for others (ECMA-262, String Single Character Escape Sequences), and `0`.
pub static SINGLE_ESCAPES: [(char, char); 7] = [
    ('0', '\0'),
    ('b', '\u{8}'),
    ('t', '\t'),
    ('n', '\n'),
    ('v', '\u{b}'),
    ('f', '\u{c}'),
    ('r', '\r'),
];

/// The first number past the code points.
pub(crate) const PAST_CODE_POINTS: u32 = 0x11_0000;

/// The number that a hexadecimal digit writes.
fn hex_value(digit: char) -> u32
    requires { IsTrue (is_hex_digit digit) }
    ensures value { result ≡ hex_value digit }
    ensures below { result < 16 }
{
    let code = digit as u32;
    if code < 58 {
        code - 48
    } else if code < 71 {
        code - 55
    } else {
        code - 87
    }
}

/// Takes the hexadecimal digits that stand there, `most` of them at most, and gives the number that they write, or `PAST_CODE_POINTS` where that is less.
fn hex_number(rest: &mut Characters<'_>, most: usize) -> u32
    ensures number { result ≡ min (hex_from 0 (hex_digits most rest.old)) PAST_CODE_POINTS }
    ensures rest { rest.new ≡ drop (length (hex_digits most rest.old)) rest.old }
{
    let mut number = 0;
    let mut left = most;
    while let Some(digit) = rest.peek() {
        if left == 0 || !digit.is_ascii_hexdigit() {
            break;
        }
        rest.bump();
        number = (number * 16 + hex_value(digit)).min(PAST_CODE_POINTS);
        left -= 1;
    }
    number
}

/// The code point with this number, where there is one.
fn code_point(number: u32) -> Option<u32>
    ensures code { result ≡ code_point number }
    ensures within { IfSome result (λ c. c < PAST_CODE_POINTS) }
{
    if number < PAST_CODE_POINTS {
        Some(number)
    } else {
        None
    }
}

/// So many digits, behind the `x` or the `u`.
fn digits_escape(rest: &mut Characters<'_>, most: usize) -> Option<u32>
    ensures code { result ≡ (digits_escape most rest.old).code }
    ensures rest { rest.new ≡ drop (digits_escape most rest.old).taken rest.old }
    ensures within { IfSome result (λ c. c < PAST_CODE_POINTS) }
{
    code_point(hex_number(rest, most))
}

/// Takes a character where it stands there.
pub fn pass_character(rest: &mut Characters<'_>, character: char)
    ensures { rest.new ≡ drop (one_of character rest.old) rest.old }
{
    if rest.peek() == Some(character) {
        rest.bump();
    }
}

/// Digits and a `}`, behind the `{`.
fn code_point_escape(rest: &mut Characters<'_>) -> Option<u32>
    ensures code { result ≡ (code_point_escape rest.old).code }
    ensures rest { rest.new ≡ drop (code_point_escape rest.old).taken rest.old }
    ensures within { IfSome result (λ c. c < PAST_CODE_POINTS) }
{
    let most = rest.most();
    let code = digits_escape(rest, most);
    pass_character(rest, '}');
    code
}

/// Behind the `u`.
fn unicode_escape(rest: &mut Characters<'_>) -> Option<u32>
    ensures code { result ≡ (unicode_escape rest.old).code }
    ensures rest { rest.new ≡ drop (unicode_escape rest.old).taken rest.old }
    ensures within { IfSome result (λ c. c < PAST_CODE_POINTS) }
{
    if rest.peek() != Some('{') {
        return digits_escape(rest, 4);
    }
    rest.bump();
    code_point_escape(rest)
}

/// The character that the first row with this one gives, or else itself.
fn escaped_by(rows: &[(char, char)], character: char) -> char
    ensures { result ≡ escaped_by rows.now character }
{
    match rows {
        [] => character,
        [(escaped, code), more @ ..] => {
            if *escaped == character {
                *code
            } else {
                escaped_by(more, character)
            }
        }
    }
}

/// Behind a backslash and the character after it.
fn escape_of(character: char, rest: &mut Characters<'_>) -> Option<u32>
    ensures code { result ≡ (escape_sequence (character ∷ rest.old)).code }
    ensures rest { let all = character ∷ rest.old in
        rest.new ≡ drop (escape_sequence all).taken all }
    ensures within { IfSome result (λ c. c < PAST_CODE_POINTS) }
{
    match character {
        'u' => unicode_escape(rest),
        'x' => digits_escape(rest, 2),
        '\r' => {
            pass_character(rest, '\n');
            None
        }
        '\n' | '\u{2028}' | '\u{2029}' => None,
        _ => Some(escaped_by(&SINGLE_ESCAPES, character) as u32),
    }
}

/// Takes what stands behind a backslash, and gives its code point, where it has one.
pub fn escape_sequence(rest: &mut Characters<'_>) -> Option<u32>
    ensures code { result ≡ (escape_sequence rest.old).code }
    ensures rest { rest.new ≡ drop (escape_sequence rest.old).taken rest.old }
    ensures within { IfSome result (λ c. c < PAST_CODE_POINTS) }
{
    match rest.bump() {
        Some(character) => escape_of(character, rest),
        None => None,
    }
}

// Escape sequences from a `u` on (ECMA-262, UnicodeEscapeSequence).

ghost use Rattle.std.specs.Prelude.{◌≡◌, Ok, Err};
ghost use Rattle.js_lexer.specs.Escapes.{escape_step, escape_stop, backslash_step, hex_step, first_step, digits_step, unicode_step};
ghost use Rattle.js_lexer.specs.declared.machine.Stop.TheVariants as stops;

use crate::characters::{hex_value, is_hex_digit};
use crate::machine::{Machine, Step, Stop};

/// What was read of an escape.
#[derive(Clone, Copy, Debug, PartialEq, Eq)]
pub enum Escape {
    /// The backslash; `u` comes next.
    Backslash,
    /// The `u`.
    Unicode,
    /// `u` and a hexadecimal digit, of four.
    ThreeDigits,
    /// Two of four.
    TwoDigits,
    /// Three of four.
    OneDigit,
    /// `u{`.
    Brace,
    /// `u{` and hexadecimal digits that write this number.
    CodePoint(u32),
}

/// The least number that is too large for another digit behind it: with one it is past 0x10FFFF.
const TOO_LARGE: u32 = 0x1_1000;

impl Machine for Escape {
    ghost steps = { escape_step };

    ghost stops = { escape_stop };

    type Outcome = ();

    fn step(self, c: char) -> Step<Escape, ()> {
        match self {
            Escape::Backslash => backslash_step(c),
            Escape::Unicode => unicode_step(c),
            Escape::ThreeDigits => hex_step(Step::Go(Escape::TwoDigits), c),
            Escape::TwoDigits => hex_step(Step::Go(Escape::OneDigit), c),
            Escape::OneDigit => hex_step(Step::With(()), c),
            Escape::Brace => first_step(c),
            Escape::CodePoint(value) => digits_step(value, c),
        }
    }

    fn stop(self) -> Result<(), Stop> {
        Err(Stop::Cut)
    }
}

fn backslash_step(c: char) -> Step<Escape, ()>
    ensures { result ≡ backslash_step c }
{
    if c == 'u' {
        Step::Go(Escape::Unicode)
    } else {
        Step::Bad
    }
}

fn unicode_step(c: char) -> Step<Escape, ()>
    ensures { result ≡ unicode_step c }
{
    if c == '{' {
        Step::Go(Escape::Brace)
    } else {
        hex_step(Step::Go(Escape::ThreeDigits), c)
    }
}

/// A hexadecimal digit goes on with `next`.
fn hex_step(next: Step<Escape, ()>, c: char) -> Step<Escape, ()>
    ensures { result ≡ hex_step next c }
{
    if is_hex_digit(c) { next } else { Step::Bad }
}

fn first_step(c: char) -> Step<Escape, ()>
    ensures { result ≡ first_step c }
{
    if is_hex_digit(c) {
        Step::Go(Escape::CodePoint(hex_value(c)))
    } else {
        Step::Bad
    }
}

fn digits_step(value: u32, c: char) -> Step<Escape, ()>
    ensures { result ≡ digits_step value c }
{
    if c == '}' {
        Step::With(())
    } else if value < TOO_LARGE && is_hex_digit(c) {
        Step::Go(Escape::CodePoint(value * 16 + hex_value(c)))
    } else {
        Step::Bad
    }
}

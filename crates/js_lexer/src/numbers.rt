// Numeric literals.

ghost use Rattle.std.specs.Prelude.{◌≡◌};
ghost use Rattle.js_lexer.specs.Grammar.{is_nonzero_digit, is_octal_digit, is_binary_digit};
ghost use Rattle.js_lexer.specs.Machines.{run, Gives};
ghost use Rattle.js_lexer.specs.Numbers.{number, is_radix_digit, number_end, only_digit, first_character, after_zero, after_integer, after_point, after_fraction, after_exponent_indicator, after_exponent_digits, only_radix_digit, after_radix_digits, number_step, number_stop};
ghost use Rattle.js_lexer.specs.declared.numbers.NumberPart.TheVariants as parts;

use crate::characters::{bars_number_end, is_digit, is_hex_digit};
use crate::cursor::Cursor;
use crate::machine::{Machine, Step, Stop, read};

/// What is known of a numeric literal.
#[derive(Clone, Copy, Debug, PartialEq, Eq)]
pub enum Numeral {
    /// A number, without separators.
    Number,
    /// A number with separators between its digits (ECMA-262's NumericLiteralSeparator).
    Separated,
    /// A BigInt, with separators or without.
    BigInt,
}

/// The radix of a NonDecimalIntegerLiteral.
#[derive(Clone, Copy, Debug, PartialEq, Eq)]
pub enum Radix {
    /// `0x`
    Hexadecimal,
    /// `0o`
    Octal,
    /// `0b`
    Binary,
}

/// The part of a numeric literal that was read last, with whether a separator was read by then.
#[derive(Clone, Copy, Debug, PartialEq, Eq)]
pub enum NumberPart {
    /// Nothing was read.
    Start,
    /// A `.` was read first.
    LeadingPoint,
    /// A `0` was read first.
    Zero,
    /// The digits of a DecimalIntegerLiteral.
    Integer(bool),
    /// A separator after these.
    IntegerSeparator,
    /// The `.` after a DecimalIntegerLiteral.
    Point(bool),
    /// The digits behind the `.`.
    Fraction(bool),
    /// A separator after these.
    FractionSeparator,
    /// ECMA-262's ExponentIndicator.
    ExponentIndicator(bool),
    /// The sign of a SignedInteger.
    ExponentSign(bool),
    /// The digits of a SignedInteger.
    ExponentDigits(bool),
    /// A separator after these.
    ExponentSeparator,
    /// `0x`, `0o` or `0b`.
    RadixPrefix(Radix),
    /// The digits of a NonDecimalIntegerLiteral.
    RadixDigits(Radix, bool),
    /// A separator after these.
    RadixSeparator(Radix),
    /// ECMA-262's BigIntLiteralSuffix.
    BigIntSuffix,
}

impl Machine for NumberPart {
    ghost use Rattle.js_lexer.specs.Numbers.{number_step as step_of, number_stop as stop_of};

    type Outcome = Numeral;

    ghost steps = { step_of };

    ghost stops = { stop_of };

    fn step(self, c: char) -> Step<NumberPart, Numeral> {
        number_step(self, c)
    }

    fn stop(self) -> Result<Numeral, Stop> {
        number_stop(self)
    }
}

/// Reads a NumericLiteral, which ends where neither the start of a name nor a digit follows. `Stop::Cut` where the text ends inside it.
pub fn numeric_literal(cursor: &mut Cursor) -> Result<Numeral, Stop>
    ensures { Gives (run number_step number_stop parts.Start cursor.old) result cursor.new }
{
    read(cursor, NumberPart::Start)
}

// What a character does behind the part that was read last.
fn number_step(part: NumberPart, c: char) -> Step<NumberPart, Numeral>
    ensures { result ≡ number_step part c }
{
    match part {
        NumberPart::Start => first_character(c),
        NumberPart::LeadingPoint => only_digit(NumberPart::Fraction(false), c),
        NumberPart::Zero => after_zero(c),
        NumberPart::Integer(separated) => after_integer(separated, c),
        NumberPart::IntegerSeparator => only_digit(NumberPart::Integer(true), c),
        NumberPart::Point(separated) => after_point(separated, c),
        NumberPart::Fraction(separated) => after_fraction(separated, c),
        NumberPart::FractionSeparator => only_digit(NumberPart::Fraction(true), c),
        NumberPart::ExponentIndicator(separated) => after_exponent_indicator(separated, c),
        NumberPart::ExponentSign(separated) => only_digit(NumberPart::ExponentDigits(separated), c),
        NumberPart::ExponentDigits(separated) => after_exponent_digits(separated, c),
        NumberPart::ExponentSeparator => only_digit(NumberPart::ExponentDigits(true), c),
        NumberPart::RadixPrefix(radix) => only_radix_digit(radix, false, c),
        NumberPart::RadixDigits(radix, separated) => after_radix_digits(radix, separated, c),
        NumberPart::RadixSeparator(radix) => only_radix_digit(radix, true, c),
        NumberPart::BigIntSuffix => number_end(Numeral::BigInt, c),
    }
}

// What the end of the text does there.
fn number_stop(part: NumberPart) -> Result<Numeral, Stop>
    ensures { result ≡ number_stop part }
{
    match part {
        NumberPart::Zero => Ok(Numeral::Number),
        NumberPart::Integer(separated)
        | NumberPart::Point(separated)
        | NumberPart::Fraction(separated)
        | NumberPart::ExponentDigits(separated)
        | NumberPart::RadixDigits(_, separated) => Ok(number(separated)),
        NumberPart::BigIntSuffix => Ok(Numeral::BigInt),
        _ => Err(Stop::Cut),
    }
}

// A literal without `n`, with separators or without.
fn number(separated: bool) -> Numeral
    ensures { result ≡ number separated }
{
    if separated {
        Numeral::Separated
    } else {
        Numeral::Number
    }
}

// ECMA-262's NonZeroDigit.
fn is_nonzero_digit(c: char) -> bool
    ensures { result ≡ is_nonzero_digit c }
{
    matches!(c, '1'..='9')
}

// ECMA-262's HexDigit, OctalDigit or BinaryDigit.
fn is_radix_digit(radix: Radix, c: char) -> bool
    ensures { result ≡ is_radix_digit radix c }
{
    match radix {
        Radix::Hexadecimal => is_hex_digit(c),
        Radix::Octal => matches!(c, '0'..='7'),
        Radix::Binary => matches!(c, '0' | '1'),
    }
}

// The literal ends before the character, where it may.
fn number_end(numeral: Numeral, c: char) -> Step<NumberPart, Numeral>
    ensures { result ≡ number_end numeral c }
{
    if bars_number_end(c) {
        Step::Bad
    } else {
        Step::Before(numeral)
    }
}

// Only a digit goes on.
fn only_digit(next: NumberPart, c: char) -> Step<NumberPart, Numeral>
    ensures { result ≡ only_digit next c }
{
    if is_digit(c) {
        Step::Go(next)
    } else {
        Step::Bad
    }
}

fn first_character(c: char) -> Step<NumberPart, Numeral>
    ensures { result ≡ first_character c }
{
    if c == '0' {
        Step::Go(NumberPart::Zero)
    } else if is_nonzero_digit(c) {
        Step::Go(NumberPart::Integer(false))
    } else if c == '.' {
        Step::Go(NumberPart::LeadingPoint)
    } else {
        Step::Bad
    }
}

fn after_zero(c: char) -> Step<NumberPart, Numeral>
    ensures { result ≡ after_zero c }
{
    if c == 'x' || c == 'X' {
        Step::Go(NumberPart::RadixPrefix(Radix::Hexadecimal))
    } else if c == 'o' || c == 'O' {
        Step::Go(NumberPart::RadixPrefix(Radix::Octal))
    } else if c == 'b' || c == 'B' {
        Step::Go(NumberPart::RadixPrefix(Radix::Binary))
    } else if c == '.' {
        Step::Go(NumberPart::Point(false))
    } else if c == 'e' || c == 'E' {
        Step::Go(NumberPart::ExponentIndicator(false))
    } else if c == 'n' {
        Step::Go(NumberPart::BigIntSuffix)
    } else {
        number_end(Numeral::Number, c)
    }
}

fn after_integer(separated: bool, c: char) -> Step<NumberPart, Numeral>
    ensures { result ≡ after_integer separated c }
{
    if is_digit(c) {
        Step::Go(NumberPart::Integer(separated))
    } else if c == '_' {
        Step::Go(NumberPart::IntegerSeparator)
    } else if c == '.' {
        Step::Go(NumberPart::Point(separated))
    } else if c == 'e' || c == 'E' {
        Step::Go(NumberPart::ExponentIndicator(separated))
    } else if c == 'n' {
        Step::Go(NumberPart::BigIntSuffix)
    } else {
        number_end(number(separated), c)
    }
}

fn after_point(separated: bool, c: char) -> Step<NumberPart, Numeral>
    ensures { result ≡ after_point separated c }
{
    if is_digit(c) {
        Step::Go(NumberPart::Fraction(separated))
    } else if c == 'e' || c == 'E' {
        Step::Go(NumberPart::ExponentIndicator(separated))
    } else {
        number_end(number(separated), c)
    }
}

fn after_fraction(separated: bool, c: char) -> Step<NumberPart, Numeral>
    ensures { result ≡ after_fraction separated c }
{
    if is_digit(c) {
        Step::Go(NumberPart::Fraction(separated))
    } else if c == '_' {
        Step::Go(NumberPart::FractionSeparator)
    } else if c == 'e' || c == 'E' {
        Step::Go(NumberPart::ExponentIndicator(separated))
    } else {
        number_end(number(separated), c)
    }
}

fn after_exponent_indicator(separated: bool, c: char) -> Step<NumberPart, Numeral>
    ensures { result ≡ after_exponent_indicator separated c }
{
    if c == '+' || c == '-' {
        Step::Go(NumberPart::ExponentSign(separated))
    } else {
        only_digit(NumberPart::ExponentDigits(separated), c)
    }
}

fn after_exponent_digits(separated: bool, c: char) -> Step<NumberPart, Numeral>
    ensures { result ≡ after_exponent_digits separated c }
{
    if is_digit(c) {
        Step::Go(NumberPart::ExponentDigits(separated))
    } else if c == '_' {
        Step::Go(NumberPart::ExponentSeparator)
    } else {
        number_end(number(separated), c)
    }
}

// Only a digit of the radix goes on.
fn only_radix_digit(radix: Radix, separated: bool, c: char) -> Step<NumberPart, Numeral>
    ensures { result ≡ only_radix_digit radix separated c }
{
    if is_radix_digit(radix, c) {
        Step::Go(NumberPart::RadixDigits(radix, separated))
    } else {
        Step::Bad
    }
}

fn after_radix_digits(radix: Radix, separated: bool, c: char) -> Step<NumberPart, Numeral>
    ensures { result ≡ after_radix_digits radix separated c }
{
    if is_radix_digit(radix, c) {
        Step::Go(NumberPart::RadixDigits(radix, separated))
    } else if c == '_' {
        Step::Go(NumberPart::RadixSeparator(radix))
    } else if c == 'n' {
        Step::Go(NumberPart::BigIntSuffix)
    } else {
        number_end(number(separated), c)
    }
}

// Strings and templates (ECMA-262, "String Literals", "Template Literal Lexical Components"), behind their first character.

ghost use Rattle.std.specs.Prelude.{◌≡◌};
ghost use Rattle.js_lexer.specs.Machines.{run, Gives};
ghost use Rattle.js_lexer.specs.Quoted.{quoted_step, quoted_stop, plain_step, string_step, template_step, after_escape, after_backslash_step, opened, go};

use crate::characters::{is_digit, is_hex_digit};
use crate::cursor::Cursor;
use crate::escapes::Escape;
use crate::machine::{Machine, Step, Stop, read};

/// What encloses a text.
#[derive(Clone, Copy, Debug, PartialEq, Eq)]
pub enum Quote {
    /// `"`
    Double,
    /// `'`
    Single,
    /// A grave accent, or the `}` and the `${` of a substitution.
    Template,
}

/// How a text ends.
#[derive(Clone, Copy, Debug, PartialEq, Eq)]
pub enum End {
    /// With its quote.
    Closed,
    /// With the `${` of a substitution.
    Substitution,
}

/// What was read of a character of a text.
#[derive(Clone, Copy, Debug, PartialEq, Eq)]
pub enum Part {
    /// Nothing: the next character begins one.
    Plain,
    /// A backslash.
    Backslash,
    /// A backslash and `0`, behind which no digit may stand.
    Zero,
    /// A backslash and `x`.
    TwoHexDigits,
    /// A backslash, `x` and a hexadecimal digit.
    OneHexDigit,
    /// A backslash, and an escape from `u` on.
    Escape(Escape),
    /// A backslash and CR, to which LF belongs.
    CarriageReturn,
    /// `$`, in a template.
    Dollar,
}

/// How far a text is read.
#[derive(Clone, Copy, Debug, PartialEq, Eq)]
pub struct Quoted {
    pub quote: Quote,
    pub part: Part,
}

impl Machine for Quoted {
    ghost steps = { quoted_step };

    ghost stops = { quoted_stop };

    type Outcome = End;

    fn step(self, c: char) -> Step<Quoted, End> {
        let quote = self.quote;
        match self.part {
            Part::Plain => plain_step(quote, c),
            Part::Backslash => after_backslash_step(quote, c),
            Part::Zero if is_digit(c) => Step::Bad,
            Part::Zero => plain_step(quote, c),
            Part::TwoHexDigits if is_hex_digit(c) => go(quote, Part::OneHexDigit),
            Part::TwoHexDigits => Step::Bad,
            Part::OneHexDigit if is_hex_digit(c) => go(quote, Part::Plain),
            Part::OneHexDigit => Step::Bad,
            Part::Escape(escape) => after_escape(quote, escape.step(c)),
            Part::CarriageReturn if c == '\n' => go(quote, Part::Plain),
            Part::CarriageReturn => plain_step(quote, c),
            Part::Dollar if c == '{' => Step::With(End::Substitution),
            Part::Dollar => plain_step(quote, c),
        }
    }

    fn stop(self) -> Result<End, Stop> {
        Err(Stop::Cut)
    }
}

/// Reads a text behind its first character, the quote or the `}` of a substitution. After a refusal it is left open how much was taken.
pub fn quoted_text(cursor: &mut Cursor, quote: Quote) -> Result<End, Stop>
    ensures { Gives (run quoted_step quoted_stop (opened quote) cursor.old) result cursor.new }
{
    let part = Part::Plain;
    read(cursor, Quoted { quote, part })
}

fn go(quote: Quote, part: Part) -> Step<Quoted, End>
    ensures { result ≡ go quote part }
{
    Step::Go(Quoted { quote, part })
}

/// A character of a text begins.
fn plain_step(quote: Quote, c: char) -> Step<Quoted, End>
    ensures { result ≡ plain_step quote c }
{
    match quote {
        Quote::Template => template_step(c),
        Quote::Double => string_step(quote, '"', c),
        Quote::Single => string_step(quote, '\'', c),
    }
}

fn string_step(quote: Quote, close: char, c: char) -> Step<Quoted, End>
    ensures { result ≡ string_step quote close c }
{
    if c == close {
        Step::With(End::Closed)
    } else if c == '\\' {
        go(quote, Part::Backslash)
    } else if c == '\n' || c == '\r' {
        Step::Bad
    } else {
        go(quote, Part::Plain)
    }
}

fn template_step(c: char) -> Step<Quoted, End>
    ensures { result ≡ template_step c }
{
    if c == '`' {
        Step::With(End::Closed)
    } else if c == '\\' {
        go(Quote::Template, Part::Backslash)
    } else if c == '$' {
        go(Quote::Template, Part::Dollar)
    } else {
        go(Quote::Template, Part::Plain)
    }
}

/// The character behind a backslash. Octal escapes are refused, and so are `\8` and `\9`.
fn after_backslash_step(quote: Quote, c: char) -> Step<Quoted, End>
    ensures { result ≡ after_backslash_step quote c }
{
    if c == '0' {
        go(quote, Part::Zero)
    } else if is_digit(c) {
        Step::Bad
    } else if c == 'x' {
        go(quote, Part::TwoHexDigits)
    } else if c == 'u' {
        go(quote, Part::Escape(Escape::Unicode))
    } else if c == '\r' {
        go(quote, Part::CarriageReturn)
    } else {
        go(quote, Part::Plain)
    }
}

/// What a step of an escape is to the text that it stands in.
fn after_escape(quote: Quote, step: Step<Escape, ()>) -> Step<Quoted, End>
    ensures { result ≡ after_escape quote step }
{
    match step {
        Step::Go(escape) => go(quote, Part::Escape(escape)),
        Step::With(()) => go(quote, Part::Plain),
        Step::Before(()) => Step::Bad,
        Step::Bad => Step::Bad,
    }
}

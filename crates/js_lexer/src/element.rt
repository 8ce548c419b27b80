// Elements of a source: what its lexical grammar divides it into (ECMA-262, InputElement).

ghost use Rattle.std.specs.Prelude.{◌≡◌};
ghost use Rattle.js_lexer.specs.Answers.{form_name};
ghost use Rattle.js_lexer.specs.Machines.{Gives};
ghost use Rattle.js_lexer.specs.Characters.{is_digit};
ghost use Rattle.js_lexer.specs.Rules.{begins_with};
ghost use Rattle.js_lexer.specs.Scanning.{element_of, unnamed_of, other_of, number_of, string_of, template_of, slash_of, dot_of, private_of, escape_of, word_of, mark_of};

use crate::characters::{is_digit, is_line_terminator, is_name_start, is_white_space};
use crate::comments::{block_comment, skip_line};
use crate::cursor::Cursor;
use crate::escapes::Escape;
use crate::machine::{Stop, read};
use crate::names::skip_name;
use crate::numbers::{Numeral, numeric_literal};
use crate::punctuators::{Punctuator, read_punctuator};
use crate::quoted::{End, Quote, quoted_text};
use crate::token::TemplatePart;

/// An element of a source.
#[derive(Clone, Copy, Debug, PartialEq, Eq)]
pub enum Element {
    /// White space, a line terminator or a comment.
    Gap,
    /// A name or a keyword.
    Word,
    /// A numeric literal.
    Number,
    /// A string literal.
    String,
    /// A template, or a part of one.
    Template(TemplatePart),
    Punctuator(Punctuator),
}

/// A lexical form of ECMA-262 that the profile leaves out.
#[derive(Clone, Copy, Debug, PartialEq, Eq)]
pub enum Form {
    /// A BigInt literal.
    BigInt,
    /// A number with separators.
    Separator,
    /// A name with an escape.
    Escape,
    /// A private name.
    Private,
    /// A decorator.
    Decorator,
}

impl Form {
    /// The name by which a refusal tells the form.
    pub fn name(self) -> &'static str
        ensures { result.now ≡ form_name self }
    {
        match self {
            Form::BigInt => "bigint",
            Form::Separator => "separator",
            Form::Escape => "escape",
            Form::Private => "private",
            Form::Decorator => "decorator",
        }
    }
}

/// Why no element is taken.
#[derive(Clone, Copy, Debug, PartialEq, Eq)]
pub enum NoElement {
    /// None stands there.
    Stopped(Stop),
    /// A form that the profile leaves out stands there.
    LeftOut(Form),
}

#[tactic(auto, using(crate::proofs::Scan_steps::unnamed_next))]
/// Takes the next element. `inside` says whether a `}` goes on with a template. After a refusal it is left open how much was taken.
pub fn take_element(cursor: &mut Cursor, inside: bool) -> Result<Element, NoElement>
    ensures { Gives (element_of inside cursor.old) result cursor.new }
{
    let Some(c) = cursor.peek() else {
        return Err(NoElement::Stopped(Stop::Bad));
    };
    if is_name_start(c) {
        cursor.bump();
        return word(cursor);
    }
    unnamed(cursor, c, inside)
}

/// An element that begins with `c`, which begins no name.
fn unnamed(cursor: &mut Cursor, c: char, inside: bool) -> Result<Element, NoElement>
    ensures { Gives (unnamed_of inside c cursor.old) result cursor.new }
{
    if is_white_space(c) || is_line_terminator(c) {
        cursor.bump();
        Ok(Element::Gap)
    } else if is_digit(c) {
        number(cursor)
    } else {
        other(cursor, c, inside)
    }
}

/// An element that begins with `c`, which begins neither a name nor a decimal integer.
fn other(cursor: &mut Cursor, c: char, inside: bool) -> Result<Element, NoElement>
    ensures { Gives (other_of inside c cursor.old) result cursor.new }
{
    match c {
        '"' => string(cursor, Quote::Double),
        '\'' => string(cursor, Quote::Single),
        '`' => template(cursor, TemplatePart::Whole, TemplatePart::Head),
        '}' if inside => template(cursor, TemplatePart::Tail, TemplatePart::Middle),
        '/' => slash(cursor),
        '.' => dot(cursor),
        '\\' => escape(cursor),
        '#' => private(cursor),
        '@' => Err(NoElement::LeftOut(Form::Decorator)),
        _ => mark(cursor),
    }
}

/// The rest of a name. An escape in it is left out.
fn word(cursor: &mut Cursor) -> Result<Element, NoElement>
    ensures { Gives (word_of cursor.old) result cursor.new }
{
    skip_name(cursor);
    if cursor.peek() == Some('\\') {
        let mut ahead = cursor.copy();
        ahead.bump();
        if let Ok(()) = read(&mut ahead, Escape::Backslash) {
            return Err(NoElement::LeftOut(Form::Escape));
        }
    }
    Ok(Element::Word)
}

fn number(cursor: &mut Cursor) -> Result<Element, NoElement>
    ensures { Gives (number_of cursor.old) result cursor.new }
{
    match numeric_literal(cursor) {
        Ok(Numeral::Number) => Ok(Element::Number),
        Ok(Numeral::Separated) => Err(NoElement::LeftOut(Form::Separator)),
        Ok(Numeral::BigInt) => Err(NoElement::LeftOut(Form::BigInt)),
        Err(stop) => Err(NoElement::Stopped(stop)),
    }
}

fn string(cursor: &mut Cursor, quote: Quote) -> Result<Element, NoElement>
    ensures { Gives (string_of quote cursor.old) result cursor.new }
{
    cursor.bump();
    match quoted_text(cursor, quote) {
        Ok(_) => Ok(Element::String),
        Err(stop) => Err(NoElement::Stopped(stop)),
    }
}

/// A template from its grave accent on, or from the `}` of a substitution.
fn template(
    cursor: &mut Cursor,
    closed: TemplatePart,
    goes_on: TemplatePart,
) -> Result<Element, NoElement>
    ensures { Gives (template_of closed goes_on cursor.old) result cursor.new }
{
    cursor.bump();
    match quoted_text(cursor, Quote::Template) {
        Ok(End::Closed) => Ok(Element::Template(closed)),
        Ok(End::Substitution) => Ok(Element::Template(goes_on)),
        Err(stop) => Err(NoElement::Stopped(stop)),
    }
}

/// A comment, or a punctuator that begins with `/`.
fn slash(cursor: &mut Cursor) -> Result<Element, NoElement>
    ensures { Gives (slash_of cursor.old) result cursor.new }
{
    let mut ahead = cursor.copy();
    ahead.bump();
    match ahead.bump() {
        Some('/') => {
            skip_line(&mut ahead);
            *cursor = ahead;
            Ok(Element::Gap)
        }
        Some('*') => {
            let comment = block_comment(&mut ahead);
            *cursor = ahead;
            match comment {
                Ok(()) => Ok(Element::Gap),
                Err(stop) => Err(NoElement::Stopped(stop)),
            }
        }
        _ => mark(cursor),
    }
}

/// A number without an integer part, or a punctuator that begins with `.`.
fn dot(cursor: &mut Cursor) -> Result<Element, NoElement>
    ensures { Gives (dot_of cursor.old) result cursor.new }
{
    let mut ahead = cursor.copy();
    ahead.bump();
    if is_digit_next(&ahead) {
        number(cursor)
    } else {
        mark(cursor)
    }
}

fn is_digit_next(cursor: &Cursor) -> bool
    ensures { result ≡ begins_with is_digit cursor.now }
{
    match cursor.peek() {
        Some(c) => is_digit(c),
        None => false,
    }
}

/// A name that begins with an escape.
fn escape(cursor: &mut Cursor) -> Result<Element, NoElement>
    ensures { Gives (escape_of cursor.old) result cursor.new }
{
    cursor.bump();
    match read(cursor, Escape::Backslash) {
        Ok(()) => Err(NoElement::LeftOut(Form::Escape)),
        Err(stop) => Err(NoElement::Stopped(stop)),
    }
}

/// A private name, from its `#` on.
fn private(cursor: &mut Cursor) -> Result<Element, NoElement>
    ensures { Gives (private_of cursor.old) result cursor.new }
{
    cursor.bump();
    match cursor.peek() {
        None => Err(NoElement::Stopped(Stop::Cut)),
        Some('\\') => {
            cursor.bump();
            match read(cursor, Escape::Backslash) {
                Ok(()) => Err(NoElement::LeftOut(Form::Private)),
                Err(stop) => Err(NoElement::Stopped(stop)),
            }
        }
        Some(c) if is_name_start(c) => Err(NoElement::LeftOut(Form::Private)),
        Some(_) => Err(NoElement::Stopped(Stop::Bad)),
    }
}

fn mark(cursor: &mut Cursor) -> Result<Element, NoElement>
    ensures { Gives (mark_of cursor.old) result cursor.new }
{
    match read_punctuator(cursor) {
        Some(mark) => Ok(Element::Punctuator(mark)),
        None => Err(NoElement::Stopped(Stop::Bad)),
    }
}

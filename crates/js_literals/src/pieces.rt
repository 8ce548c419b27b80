// The pieces of a string literal or a template: characters, escapes and line continuations.

ghost use Rattle.std.specs.Prelude.{◌≡◌, ◌<◌, ◌∷◌, ℕ, drop, IfSome};
ghost use Rattle.js_literals.specs.Escapes.{escape_sequence, one_of};
ghost use Rattle.js_literals.specs.StringValues.{front_piece, string_character, template_character, is_end};
ghost use Rattle.js_literals.specs.declared.escapes.TheConstants.{PAST_CODE_POINTS};

use crate::characters::Characters;
use crate::escapes::{escape_sequence, pass_character};

/// What encloses a text.
#[derive(Clone, Copy, Debug, PartialEq, Eq)]
pub enum Delimiter {
    /// This quote, on both sides.
    Quote(char),
    /// A grave accent, or the `}` and the `${` of a substitution.
    Template,
}

/// Whether the text ends here.
pub fn is_end(delimiter: Delimiter, rest: &Characters<'_>) -> bool
    ensures { result ≡ is_end delimiter rest.now }
{
    match rest.peek() {
        Some(character) => is_end_at(delimiter, character, rest),
        None => true,
    }
}

/// Whether the text ends at this character, with which the rest begins.
fn is_end_at(delimiter: Delimiter, character: char, rest: &Characters<'_>) -> bool
    ensures { result ≡ is_end delimiter (character ∷ drop 1 rest.now) }
{
    match delimiter {
        Delimiter::Quote(quote) => character == quote,
        Delimiter::Template => character == '`' || (character == '$' && rest.second() == Some('{')),
    }
}

/// Takes a character and what belongs to it, and gives its code point, where it has one.
pub fn take_piece(delimiter: Delimiter, rest: &mut Characters<'_>) -> Option<u32>
    ensures code { result ≡ (front_piece delimiter rest.old).code }
    ensures rest { rest.new ≡ drop (front_piece delimiter rest.old).taken (drop 1 rest.old) }
    ensures within { IfSome result (λ c. c < PAST_CODE_POINTS) }
{
    match rest.bump() {
        Some(character) => piece_of(delimiter, character, rest),
        None => None,
    }
}

/// Takes what belongs to this character, behind it.
fn piece_of(delimiter: Delimiter, character: char, rest: &mut Characters<'_>) -> Option<u32>
    ensures code { result ≡ (front_piece delimiter (character ∷ rest.old)).code }
    ensures rest { rest.new ≡ drop (front_piece delimiter (character ∷ rest.old)).taken rest.old }
    ensures within { IfSome result (λ c. c < PAST_CODE_POINTS) }
{
    match delimiter {
        Delimiter::Quote(_) => string_character(character, rest),
        Delimiter::Template => template_character(character, rest),
    }
}

/// The same in a string literal.
fn string_character(character: char, rest: &mut Characters<'_>) -> Option<u32>
    ensures code { result ≡ (string_character character rest.old).code }
    ensures rest { rest.new ≡ drop (string_character character rest.old).taken rest.old }
    ensures within { IfSome result (λ c. c < PAST_CODE_POINTS) }
{
    if character == '\\' {
        escape_sequence(rest)
    } else {
        Some(character as u32)
    }
}

/// The same in a template: CR, and CR with LF behind it, is LF.
fn template_character(character: char, rest: &mut Characters<'_>) -> Option<u32>
    ensures code { result ≡ (template_character character rest.old).code }
    ensures rest { rest.new ≡ drop (template_character character rest.old).taken rest.old }
    ensures within { IfSome result (λ c. c < PAST_CODE_POINTS) }
{
    if character != '\r' {
        return string_character(character, rest);
    }
    pass_character(rest, '\n');
    Some(0x0a)
}

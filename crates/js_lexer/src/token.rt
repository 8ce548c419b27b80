// Tokens.

use crate::keywords::Keyword;
use crate::punctuators::Punctuator;
use lava_base::place::Place;

/// A token of a source (ECMA-262, CommonToken and the parts of templates).
#[derive(Clone, Copy, Debug, PartialEq, Eq)]
pub struct Token {
    /// The place of its first character.
    pub start: Place,
    /// The byte of the source at which it begins, from 0.
    pub from: u32,
    /// The byte at which it ends: its text is the bytes from `from` up to `to`.
    pub to: u32,
    pub kind: TokenKind,
    /// Whether a line terminator stands between it and the token before it, in a comment too, or the start of the source.
    pub after_line: bool,
}

/// What a token is.
#[derive(Clone, Copy, Debug, PartialEq, Eq)]
pub enum TokenKind {
    /// An IdentifierName that is no reserved word.
    Name,
    /// A reserved word.
    Keyword(Keyword),
    Punctuator(Punctuator),
    /// A NumericLiteral, as written.
    Number,
    /// A StringLiteral, with its quotes.
    String,
    /// A template, or the part of one up to a substitution, between two, or behind the last.
    Template(TemplatePart),
}

/// What a template token is.
#[derive(Clone, Copy, Debug, PartialEq, Eq)]
pub enum TemplatePart {
    /// NoSubstitutionTemplate: from one grave accent to the other.
    Whole,
    /// TemplateHead: from a grave accent to a `${`.
    Head,
    /// TemplateMiddle: from the `}` of a substitution to a `${`.
    Middle,
    /// TemplateTail: from the `}` of a substitution to a grave accent.
    Tail,
}

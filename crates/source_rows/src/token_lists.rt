// Tokens, keywords and punctuators.
//
// A token is written as a letter with the bytes from and to which it goes: n a name, k a keyword, p a punctuator, d a number,
// s a string, w a whole template, h the head of one, m a middle and t a tail. `^` stands before one behind a line terminator.

use crate::bytes::escaped_bytes;
use crate::fault::Fault;
use crate::refusals::push_refusal;
use js_lexer::keywords::keyword_of;
use js_lexer::lexer::tokens;
use js_lexer::token::{TemplatePart, Token, TokenKind};
use lava_base::place::Place;
use std::alloc::{AllocError, Global};

/// `tokens SOURCE`: its tokens.
pub fn push_tokens(alloc: Global, out: &mut String, line: &str) -> Result<(), Fault> {
    write!(out, "{line} =")?;
    push_list(alloc, out, escaped_bytes(alloc, line)?.as_slice(), false)
}

/// `places SOURCE`: the places of its tokens, line and unit.
pub fn push_places(alloc: Global, out: &mut String, line: &str) -> Result<(), Fault> {
    write!(out, "{line} =")?;
    push_list(alloc, out, escaped_bytes(alloc, line)?.as_slice(), true)
}

/// `keyword WORD`: the keyword that it is, and the text of that one.
pub fn push_keyword(out: &mut String, word: &str) -> Result<(), Fault> {
    match keyword_of(word.as_bytes()) {
        Some(keyword) => write!(out, "{word} = {keyword:?} {}", keyword.text())?,
        None => write!(out, "{word} = none")?,
    }
    Ok(())
}

/// `punctuator SOURCE`: the punctuator that the source begins with, and how long it is.
pub fn push_punctuator(alloc: Global, out: &mut String, source: &str) -> Result<(), Fault> {
    let first = first_token(alloc, source)?;
    match first.kind {
        TokenKind::Punctuator(punctuator) => write!(out, "{source} = {punctuator:?} {}", first.to)?,
        _ => write!(out, "{source} = none")?,
    }
    Ok(())
}

fn first_token(alloc: Global, source: &str) -> Result<Token, Fault> {
    match tokens(alloc, source.as_bytes()) {
        Ok(list) => Ok(*list.as_slice().first().ok_or(Fault::Line)?),
        Err(_) => Err(Fault::Line),
    }
}

// Appends the tokens of a source, or only their places, or its refusal.
fn push_list(
    alloc: Global,
    out: &mut String,
    source: &[u8],
    only_place: bool,
) -> Result<(), Fault> {
    match tokens(alloc, source) {
        Ok(list) => push_each(out, list.as_slice(), only_place)?,
        Err(fault) => {
            out.push(' ')?;
            push_refusal(out, &fault)?;
        }
    }
    Ok(())
}

fn push_each(out: &mut String, list: &[Token], only_place: bool) -> Result<(), AllocError> {
    for token in list {
        if only_place {
            let Place { line, unit } = token.start;
            write!(out, " {line}:{unit}")?;
        } else {
            push_token(out, token)?;
        }
    }
    Ok(())
}

fn push_token(out: &mut String, token: &Token) -> Result<(), AllocError> {
    let after = if token.after_line { "^" } else { "" };
    let letter = letter_of(token.kind);
    let Token { from, to, .. } = *token;
    write!(out, " {after}{letter}{from}-{to}")
}

fn letter_of(kind: TokenKind) -> char {
    match kind {
        TokenKind::Name => 'n',
        TokenKind::Keyword(_) => 'k',
        TokenKind::Punctuator(_) => 'p',
        TokenKind::Number => 'd',
        TokenKind::String => 's',
        TokenKind::Template(TemplatePart::Whole) => 'w',
        TokenKind::Template(TemplatePart::Head) => 'h',
        TokenKind::Template(TemplatePart::Middle) => 'm',
        TokenKind::Template(TemplatePart::Tail) => 't',
    }
}

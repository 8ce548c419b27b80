// Sources and the expressions that their tokens begin with, one after the other.

ghost use Rattle.std.specs.Prelude.{◌≤◌, length};
ghost use Rattle.js_lexer.specs.Sources.{IsTokens};
ghost use Rattle.js_lexer.specs.declared.spot.TheConstants.{MAX_SOURCE};

use crate::fault::Fault;
use crate::refusals::push_refusal;
use js_cursor::cursor::Cursor;
use js_cursor::expression::{discard, expression};
use js_fault::fault::SyntaxFault;
use js_lexer::lexer::tokens;
use js_lexer::spot::MAX_SOURCE;
use js_lexer::token::Token;
use std::alloc::{AllocError, Global};

/// `cursor SOURCE`: how many tokens are left behind each expression, up to the end or a refusal, which is asked for twice.
pub fn push_row(alloc: Global, out: &mut String, line: &str) -> Result<(), Fault> {
    write!(out, "{line} =")?;
    let source = line.replace(alloc, '¶', "\n")?;
    if source.len() > MAX_SOURCE as usize {
        return Err(Fault::TooLong);
    }
    push_source(alloc, out, source.as_bytes())?;
    Ok(())
}

/// The same, of a source that is not too long.
fn push_source(alloc: Global, out: &mut String, source: &[u8]) -> Result<(), AllocError>
    requires { length source.now ≤ MAX_SOURCE }
{
    match tokens(alloc, source) {
        Ok(tokens) => push_expressions(alloc, out, source, tokens.as_slice()),
        Err(fault) => push_fault(out, &fault),
    }
}

/// Reads expressions up to the end, or up to a refusal that was answered again.
fn push_expressions(
    alloc: Global,
    out: &mut String,
    source: &[u8],
    tokens: &[Token],
) -> Result<(), AllocError>
    requires size { length source.now ≤ MAX_SOURCE }
    requires tokens { IsTokens source.now tokens.now }
{
    let mut cursor = Cursor::new(alloc, tokens, source);
    for _ in 0..tokens.len() {
        match expression(alloc, &mut cursor) {
            Ok(tree) => {
                discard(tree);
                write!(out, " {}", cursor.left().len())?;
            }
            Err(fault) => {
                push_fault(out, &fault)?;
                return push_again(alloc, out, &mut cursor);
            }
        }
        if cursor.left().is_empty() {
            return Ok(());
        }
    }
    Ok(())
}

/// What is answered behind a refusal.
fn push_again(alloc: Global, out: &mut String, cursor: &mut Cursor) -> Result<(), AllocError> {
    match expression(alloc, cursor) {
        Ok(tree) => {
            discard(tree);
            out.push_str(" ok")
        }
        Err(fault) => push_fault(out, &fault),
    }
}

fn push_fault(out: &mut String, fault: &SyntaxFault) -> Result<(), AllocError> {
    out.push_str(" ")?;
    push_refusal(out, fault)
}

// Literals of one token.

ghost use Rattle.std.specs.Prelude.{◌≡◌, IfOk};
ghost use Rattle.js_expr.specs.Literals as spec;

use crate::expressions::expression_phrase;
use crate::names::bytes_of;
use crate::numbers::number_of;
use js_lexer::keywords::Keyword;
use js_lexer::token::{Token, TokenKind};
use js_literals::strings::string_value;
use js_phrase::phrase::Phrase;
use js_phrase::queue::Queue;
use js_text::text::Text;
use js_tree::tree::Expr;
use lava_base::memory::OutOfMemory;
use lava_base::place::Place;
use std::alloc::Global;

/// `this` (ECMA-262, PrimaryExpression).
pub fn this_expression(alloc: Global, parts: &mut Queue<Phrase>) -> Result<Phrase, OutOfMemory>
    ensures { IfOk result (λ p. p ≡ spec.this_expression parts.old) }
{
    let place = parts.token().start;
    expression_phrase(alloc, Expr::This { place })
}

/// `true`, `false`, and `null` for any other token.
fn word_literal(place: Place, kind: TokenKind) -> Expr
    ensures { result ≡ spec.word_literal place kind }
{
    match kind {
        TokenKind::Keyword(Keyword::True) => Expr::Bool { place, value: true },
        TokenKind::Keyword(Keyword::False) => Expr::Bool {
            place,
            value: false,
        },
        _ => Expr::Null { place },
    }
}

/// ECMA-262, NullLiteral and BooleanLiteral.
pub fn null_or_boolean(alloc: Global, parts: &mut Queue<Phrase>) -> Result<Phrase, OutOfMemory>
    ensures { IfOk result (λ p. p ≡ spec.null_or_boolean parts.old) }
{
    let token = parts.token();
    let literal = word_literal(token.start, token.kind);
    expression_phrase(alloc, literal)
}

/// ECMA-262, NumericLiteral.
pub fn numeric_literal(
    alloc: Global,
    source: &[u8],
    parts: &mut Queue<Phrase>,
) -> Result<Phrase, OutOfMemory>
    ensures { IfOk result (λ p. p ≡ spec.numeric_literal source.now parts.old) }
{
    let token = parts.token();
    let value = number_of(alloc, bytes_of(source, token))?;
    let place = token.start;
    expression_phrase(alloc, Expr::Number { place, value })
}

/// The value of a string literal (ECMA-262, "Static Semantics: SV"). What has none is answered by want of memory.
pub fn string_text(alloc: Global, source: &[u8], token: Token) -> Result<Text, OutOfMemory>
    ensures { IfOk result (λ text. text ≡ spec.string_text source.now token) }
{
    match string_value(alloc, bytes_of(source, token)) {
        Ok(text) => Ok(text),
        Err(_) => Err(OutOfMemory),
    }
}

/// ECMA-262, StringLiteral.
pub fn string_literal(
    alloc: Global,
    source: &[u8],
    parts: &mut Queue<Phrase>,
) -> Result<Phrase, OutOfMemory>
    ensures { IfOk result (λ p. p ≡ spec.string_literal source.now parts.old) }
{
    let token = parts.token();
    let value = string_text(alloc, source, token)?;
    let place = token.start;
    expression_phrase(alloc, Expr::String { place, value })
}

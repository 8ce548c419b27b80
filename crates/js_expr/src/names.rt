// Names.

ghost use Rattle.std.specs.Prelude.{◌≡◌, IfOk};
ghost use Rattle.js_expr.specs.Names as spec;

use crate::expressions::expression_phrase;
use js_lexer::token::Token;
use js_literals::names::identifier_text;
use js_phrase::phrase::Phrase;
use js_phrase::queue::Queue;
use js_tree::tree::{Expr, Identifier};
use lava_base::memory::OutOfMemory;
use std::alloc::Global;

/// The bytes of a token; none where it is no token of the source.
pub fn bytes_of(source: &[u8], token: Token) -> &[u8]
    ensures { result.now ≡ spec.bytes_of source.now token }
{
    let from = token.from as usize;
    let to = token.to as usize;
    if from <= to && to <= source.len() {
        &source[from..to]
    } else {
        &[]
    }
}

/// The name that a token is (ECMA-262, "Static Semantics: StringValue" of IdentifierName). What is no text is answered by want of memory.
pub fn identifier(alloc: Global, source: &[u8], token: Token) -> Result<Identifier, OutOfMemory>
    ensures { IfOk result (λ n. n ≡ spec.identifier source.now token) }
{
    match identifier_text(alloc, bytes_of(source, token)) {
        Ok(name) => Ok(Identifier {
            place: token.start,
            name,
        }),
        Err(_) => Err(OutOfMemory),
    }
}

/// ECMA-262, IdentifierReference.
pub fn identifier_reference(
    alloc: Global,
    source: &[u8],
    parts: &mut Queue<Phrase>,
) -> Result<Phrase, OutOfMemory>
    ensures { IfOk result (λ p. p ≡ spec.identifier_reference source.now parts.old) }
{
    let name = identifier(alloc, source, parts.token())?;
    expression_phrase(alloc, Expr::Name(name))
}

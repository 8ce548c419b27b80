// `var`, `let` and `const`.

ghost use Rattle.std.specs.Prelude.{◌≡◌, IfOk};
ghost use Rattle.js_stmt.specs.Declarations as spec;

use crate::statements::statement_phrase;
use js_lexer::keywords::Keyword;
use js_lexer::token::TokenKind;
use js_phrase::phrase::Phrase;
use js_phrase::queue::Queue;
use js_tree::tree::{Declaration, DeclarationKind, Stmt};
use lava_base::memory::OutOfMemory;
use sqlite_items::Boxed;
use std::alloc::Global;

/// What a declaration is, by its word.
fn declaration_kind(kind: TokenKind) -> DeclarationKind
    ensures { result ≡ spec.declaration_kind kind }
{
    match kind {
        TokenKind::Keyword(Keyword::Var) => DeclarationKind::Var,
        TokenKind::Keyword(Keyword::Const) => DeclarationKind::Const,
        _ => DeclarationKind::Let,
    }
}

/// A declaration, without what ends it.
fn declaration(alloc: Global, parts: &mut Queue<Phrase>) -> Result<Declaration, OutOfMemory>
    ensures { IfOk result (λ d. d ≡ spec.declaration parts.old) }
{
    let word = parts.token();
    let declarators = parts.elements(alloc)?;
    Ok(Declaration {
        place: word.start,
        kind: declaration_kind(word.kind),
        declarators,
    })
}

/// `var` (ECMA-262, VariableStatement), or `let` or `const` (ECMA-262, LexicalDeclaration).
pub fn declaration_statement(
    alloc: Global,
    parts: &mut Queue<Phrase>,
) -> Result<Phrase, OutOfMemory>
    ensures { IfOk result (λ p. p ≡ spec.declaration_statement parts.old) }
{
    let declaration = declaration(alloc, parts)?;
    statement_phrase(alloc, Stmt::Declare(declaration))
}

/// A declaration in the head of a `for` (ECMA-262, ForDeclaration).
pub fn for_declaration(alloc: Global, parts: &mut Queue<Phrase>) -> Result<Phrase, OutOfMemory>
    ensures { IfOk result (λ p. p ≡ spec.for_declaration parts.old) }
{
    let declaration = declaration(alloc, parts)?;
    Ok(Phrase::Declaration(Boxed::new(alloc, declaration)?))
}

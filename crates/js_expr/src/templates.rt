// Template literals.

ghost use Rattle.std.specs.Prelude.{◌≡◌, IfOk};
ghost use Rattle.js_expr.specs.Templates as spec;

use crate::expressions::expression_phrase;
use crate::names::bytes_of;
use js_lexer::token::Token;
use js_literals::strings::template_value;
use js_phrase::phrase::{Phrase, Substitution};
use js_phrase::queue::Queue;
use js_text::text::Text;
use js_tree::tree::Expr;
use lava_base::memory::OutOfMemory;
use sqlite_items::{Boxed, Items};
use std::alloc::Global;

/// The cooked value of a template token (ECMA-262, "Static Semantics: TV"). What has none is answered by want of memory.
fn cooked(alloc: Global, source: &[u8], token: Token) -> Result<Text, OutOfMemory>
    ensures { IfOk result (λ text. text ≡ spec.cooked source.now token) }
{
    match template_value(alloc, bytes_of(source, token)) {
        Ok(text) => Ok(text),
        Err(_) => Err(OutOfMemory),
    }
}

/// ECMA-262, NoSubstitutionTemplate.
pub fn no_substitution_template(
    alloc: Global,
    source: &[u8],
    parts: &mut Queue<Phrase>,
) -> Result<Phrase, OutOfMemory>
    ensures { IfOk result (λ p. p ≡ spec.no_substitution_template source.now parts.old) }
{
    let token = parts.token();
    let mut strings = Items::new(alloc);
    strings.push(cooked(alloc, source, token)?)?;
    let template = Expr::Template {
        place: token.start,
        strings,
        substitutions: Items::new(alloc),
    };
    expression_phrase(alloc, template)
}

/// The string between two substitutions, with the second one (ECMA-262, TemplateMiddleList).
pub fn template_middle(
    alloc: Global,
    source: &[u8],
    parts: &mut Queue<Phrase>,
) -> Result<Phrase, OutOfMemory>
    ensures { IfOk result (λ p. p ≡ spec.template_middle source.now parts.old) }
{
    let string = cooked(alloc, source, parts.token())?;
    let value = parts.expression(alloc)?;
    let substitution = Substitution { string, value };
    Ok(Phrase::Substitution(Boxed::new(alloc, substitution)?))
}

/// ECMA-262, SubstitutionTemplate.
pub fn substitution_template(
    alloc: Global,
    source: &[u8],
    parts: &mut Queue<Phrase>,
) -> Result<Phrase, OutOfMemory>
    ensures { IfOk result (λ p. p ≡ spec.substitution_template source.now parts.old) }
{
    let head = parts.token();
    let mut strings = Items::new(alloc);
    strings.push(cooked(alloc, source, head)?)?;
    let mut substitutions = Items::new(alloc);
    substitutions.push(parts.expression(alloc)?)?;
    let tail = parts.substitutions(&mut strings, &mut substitutions)?;
    strings.push(cooked(alloc, source, tail)?)?;
    let template = Expr::Template {
        place: head.start,
        strings,
        substitutions,
    };
    expression_phrase(alloc, template)
}

// Classes.

ghost use Rattle.std.specs.Prelude.{◌≡◌, IfOk};
ghost use Rattle.js_stmt.specs.Classes as spec;

use js_expr::expressions::expression_phrase;
use js_phrase::phrase::Phrase;
use js_phrase::queue::Queue;
use js_tree::tree::{Class, Expr, Stmt};
use lava_base::memory::OutOfMemory;
use sqlite_items::Boxed;
use std::alloc::Global;

/// What stands behind `extends` (ECMA-262, ClassHeritage).
pub fn class_heritage(alloc: Global, parts: &mut Queue<Phrase>) -> Result<Phrase, OutOfMemory>
    ensures { IfOk result (λ p. p ≡ spec.class_heritage parts.old) }
{
    parts.skip();
    Ok(Phrase::Expression(parts.expression(alloc)?))
}

/// A class, with a name or without (ECMA-262, ClassTail).
fn class_definition(alloc: Global, parts: &mut Queue<Phrase>) -> Result<Boxed<Class>, OutOfMemory>
    ensures { IfOk result (λ c. c ≡ spec.class_definition parts.old) }
{
    let place = parts.token().start;
    let name = parts.optional_name();
    let heritage = parts.optional_expression(alloc)?;
    let members = parts.members(alloc)?;
    let class = Class {
        place,
        name,
        heritage,
        members,
    };
    Ok(Boxed::new(alloc, class)?)
}

/// A class that is an expression (ECMA-262, ClassExpression).
pub fn class_expression(alloc: Global, parts: &mut Queue<Phrase>) -> Result<Phrase, OutOfMemory>
    ensures { IfOk result (λ p. p ≡ spec.class_expression parts.old) }
{
    let class = class_definition(alloc, parts)?;
    expression_phrase(alloc, Expr::Class(class))
}

/// A class that is a statement (ECMA-262, ClassDeclaration).
pub fn class_declaration(alloc: Global, parts: &mut Queue<Phrase>) -> Result<Phrase, OutOfMemory>
    ensures { IfOk result (λ p. p ≡ spec.class_declaration parts.old) }
{
    let class = class_definition(alloc, parts)?;
    Ok(Phrase::Statement(Boxed::new(alloc, Stmt::ClassDeclaration(class))?))
}

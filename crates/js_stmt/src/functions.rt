// Functions.

ghost use Rattle.std.specs.Prelude.{◌≡◌, IfOk};
ghost use Rattle.js_stmt.specs.Functions as spec;

use js_expr::expressions::expression_phrase;
use js_phrase::phrase::{Parameters, Phrase};
use js_phrase::queue::Queue;
use js_tree::tree::{
    Body, Expr, Function, FunctionKind, Identifier, Pattern, PatternElement, Stmt,
};
use lava_base::memory::OutOfMemory;
use lava_base::place::Place;
use sqlite_items::{Boxed, Items};
use std::alloc::Global;

/// The parameters of a function (ECMA-262, FormalParameters).
pub fn formal_parameters(alloc: Global, parts: &mut Queue<Phrase>) -> Result<Phrase, OutOfMemory>
    ensures { IfOk result (λ p. p ≡ spec.formal_parameters parts.old) }
{
    let place = parts.token().start;
    let parameters = parts.parameter_list(alloc, place)?;
    Ok(Phrase::Parameters(Boxed::new(alloc, parameters)?))
}

/// The statements of a function (ECMA-262, FunctionBody), or of a module (ECMA-262, ModuleBody).
pub fn function_body(alloc: Global, parts: &mut Queue<Phrase>) -> Result<Phrase, OutOfMemory>
    ensures { IfOk result (λ p. p ≡ spec.function_body parts.old) }
{
    Ok(Phrase::Statements(parts.statement_list(alloc)?))
}

/// A function with these parts.
pub(crate) fn function(
    place: Place,
    kind: FunctionKind,
    name: Option<Identifier>,
    parameters: Items<PatternElement>,
    rest: Option<Boxed<Pattern>>,
    statements: Items<Boxed<Stmt>>,
) -> Function
    ensures { result ≡ spec.function place kind name parameters rest statements }
{
    Function {
        place,
        kind,
        name,
        parameters,
        rest,
        body: Body::Statements(statements),
    }
}

/// `function`, with a name or without.
fn plain_function(alloc: Global, parts: &mut Queue<Phrase>) -> Result<Boxed<Function>, OutOfMemory>
    ensures { IfOk result (λ f. f ≡ spec.plain_function parts.old) }
{
    let place = parts.token().start;
    let name = parts.optional_name();
    let Parameters { elements, rest, .. } = parts.parameters(alloc)?.into_inner();
    let statements = parts.statements(alloc);
    let made = function(place, FunctionKind::Plain, name, elements, rest, statements);
    Ok(Boxed::new(alloc, made)?)
}

/// A function that is an expression (ECMA-262, FunctionExpression).
pub fn function_expression(alloc: Global, parts: &mut Queue<Phrase>) -> Result<Phrase, OutOfMemory>
    ensures { IfOk result (λ p. p ≡ spec.function_expression parts.old) }
{
    let function = plain_function(alloc, parts)?;
    expression_phrase(alloc, Expr::Function(function))
}

/// A function that is a statement (ECMA-262, FunctionDeclaration).
pub fn function_declaration(alloc: Global, parts: &mut Queue<Phrase>) -> Result<Phrase, OutOfMemory>
    ensures { IfOk result (λ p. p ≡ spec.function_declaration parts.old) }
{
    let function = plain_function(alloc, parts)?;
    Ok(Phrase::Statement(Boxed::new(alloc, Stmt::FunctionDeclaration(function))?))
}

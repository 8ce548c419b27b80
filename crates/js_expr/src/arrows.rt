// Arrow functions.

ghost use Rattle.std.specs.Prelude.{◌≡◌, IfOk};
ghost use Rattle.js_expr.specs.Arrows as spec;

use crate::expressions::expression_phrase;
use js_cover::targets::arrow_parameters_of;
use js_phrase::phrase::{Parameters, Phrase};
use js_phrase::queue::Queue;
use js_tree::tree::{Body, Expr, Function, FunctionKind};
use lava_base::memory::OutOfMemory;
use sqlite_items::Boxed;
use std::alloc::Global;

/// An expression that is a body (ECMA-262, ConciseBody).
pub fn expression_body(alloc: Global, parts: &mut Queue<Phrase>) -> Result<Phrase, OutOfMemory>
    ensures { IfOk result (λ p. p ≡ spec.expression_body parts.old) }
{
    Ok(Phrase::Expression(parts.expression(alloc)?))
}

/// The function with these parameters and this body.
fn arrow(parameters: Parameters, body: Body) -> Function
    ensures { result ≡ spec.arrow parameters body }
{
    let Parameters {
        place,
        elements,
        rest,
    } = parameters;
    Function {
        place,
        kind: FunctionKind::Arrow,
        name: None,
        parameters: elements,
        rest,
        body,
    }
}

/// ECMA-262, ArrowFunction.
pub fn arrow_function(alloc: Global, parts: &mut Queue<Phrase>) -> Result<Phrase, OutOfMemory>
    ensures { IfOk result (λ p. p ≡ spec.arrow_function parts.old) }
{
    let parameters = arrow_parameters_of(alloc, parts.next())?.into_inner();
    parts.skip();
    let body = parts.body(alloc)?;
    let function = Boxed::new(alloc, arrow(parameters, body))?;
    expression_phrase(alloc, Expr::Function(function))
}

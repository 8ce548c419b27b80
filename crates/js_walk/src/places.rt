// Where expressions begin, and which of two places is the later one.

ghost use Rattle.std.specs.Prelude.{◌≡◌};
ghost use Rattle.js_walk.specs.Places as spec;

use js_tree::tree::Expr;
use lava_base::place::Place;

/// Whether a place stands before another one.
pub fn is_before(a: Place, b: Place) -> bool
    ensures { result ≡ spec.is_before a b }
{
    a.line < b.line || (a.line == b.line && a.unit < b.unit)
}

/// The later one of two places.
pub fn later(a: Place, b: Place) -> Place
    ensures { result ≡ spec.later a b }
{
    if is_before(a, b) { b } else { a }
}

/// The place of an expression's first token.
pub fn place_of(expression: &Expr) -> Place
    ensures { result ≡ spec.place_of expression.now }
{
    match expression {
        Expr::Name(name) => name.place,
        Expr::This { place, .. } => *place,
        Expr::Null { place, .. } => *place,
        Expr::Bool { place, .. } => *place,
        Expr::Number { place, .. } => *place,
        Expr::String { place, .. } => *place,
        Expr::Template { place, .. } => *place,
        Expr::Array { place, .. } => *place,
        Expr::Object { place, .. } => *place,
        Expr::Function(function) => function.get().place,
        Expr::Class(class) => class.get().place,
        Expr::Parenthesized { place, .. } => *place,
        Expr::NewTarget { place, .. } => *place,
        Expr::Member { place, .. } => *place,
        Expr::Index { place, .. } => *place,
        Expr::SuperMember { place, .. } => *place,
        Expr::SuperIndex { place, .. } => *place,
        Expr::Call { place, .. } => *place,
        Expr::SuperCall { place, .. } => *place,
        Expr::New { place, .. } => *place,
        Expr::Chain { place, .. } => *place,
        Expr::Unary { place, .. } => *place,
        Expr::Update { place, .. } => *place,
        Expr::Binary { place, .. } => *place,
        Expr::Logical { place, .. } => *place,
        Expr::Conditional { place, .. } => *place,
        Expr::Assign { place, .. } => *place,
        Expr::OperatorAssign { place, .. } => *place,
        Expr::Comma { place, .. } => *place,
    }
}

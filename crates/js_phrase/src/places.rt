// Where expressions begin.

ghost use Rattle.std.specs.Prelude.{◌≡◌};
ghost use Rattle.js_phrase.specs.Places as spec;

use js_lexer::token::{Token, TokenKind};
use js_tree::tree::Expr;
use lava_base::place::Place;

/// The place of nothing.
pub const NO_PLACE: Place = Place { line: 0, unit: 0 };

/// The token of no source.
pub const NO_TOKEN: Token = Token {
    start: NO_PLACE,
    from: 0,
    to: 0,
    kind: TokenKind::Name,
    after_line: false,
};

/// The place of an expression's first token.
pub fn place_of(expression: &Expr) -> Place
    ensures { result ≡ spec.place_of expression.now }
{
    match expression {
        Expr::Name(name) => name.place,
        Expr::This { place, .. } => *place,
        Expr::Null { place, .. } => *place,
        Expr::Bool { place, .. } => *place,
        Expr::Number { place, .. } => *place,
        Expr::String { place, .. } => *place,
        Expr::Template { place, .. } => *place,
        Expr::Array { place, .. } => *place,
        Expr::Object { place, .. } => *place,
        Expr::Function(function) => function.get().place,
        Expr::Class(class) => class.get().place,
        Expr::Parenthesized { place, .. } => *place,
        Expr::NewTarget { place, .. } => *place,
        Expr::Member { place, .. } => *place,
        Expr::Index { place, .. } => *place,
        Expr::SuperMember { place, .. } => *place,
        Expr::SuperIndex { place, .. } => *place,
        Expr::Call { place, .. } => *place,
        Expr::SuperCall { place, .. } => *place,
        Expr::New { place, .. } => *place,
        Expr::Chain { place, .. } => *place,
        Expr::Unary { place, .. } => *place,
        Expr::Update { place, .. } => *place,
        Expr::Binary { place, .. } => *place,
        Expr::Logical { place, .. } => *place,
        Expr::Conditional { place, .. } => *place,
        Expr::Assign { place, .. } => *place,
        Expr::OperatorAssign { place, .. } => *place,
        Expr::Comma { place, .. } => *place,
    }
}

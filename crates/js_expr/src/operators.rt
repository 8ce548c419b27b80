// Operators, by their tokens. What is no operator of a family is as the first one of it.

ghost use Rattle.std.specs.Prelude.{◌≡◌};
ghost use Rattle.js_expr.specs.Operators as spec;

use js_lexer::keywords::Keyword;
use js_lexer::punctuators::Punctuator;
use js_lexer::token::TokenKind;
use js_tree::operator::{
    AssignmentOperator, BinaryOperator, LogicalOperator, UnaryOperator, UpdateOperator,
};

/// The unary operator that a word is.
fn unary_word(word: Keyword) -> UnaryOperator
    ensures { result ≡ spec.unary_word word }
{
    match word {
        Keyword::Delete => UnaryOperator::Delete,
        Keyword::Void => UnaryOperator::Void,
        Keyword::Typeof => UnaryOperator::Typeof,
        _ => UnaryOperator::Delete,
    }
}

/// The unary operator that a punctuator is.
fn unary_mark(mark: Punctuator) -> UnaryOperator
    ensures { result ≡ spec.unary_mark mark }
{
    match mark {
        Punctuator::Plus => UnaryOperator::Plus,
        Punctuator::Minus => UnaryOperator::Minus,
        Punctuator::Tilde => UnaryOperator::BitwiseNot,
        Punctuator::Exclamation => UnaryOperator::LogicalNot,
        _ => UnaryOperator::Delete,
    }
}

/// The operator of a unary expression (ECMA-262, UnaryExpression).
pub fn unary_operator(kind: TokenKind) -> UnaryOperator
    ensures { result ≡ spec.unary_operator kind }
{
    match kind {
        TokenKind::Keyword(word) => unary_word(word),
        TokenKind::Punctuator(mark) => unary_mark(mark),
        _ => UnaryOperator::Delete,
    }
}

/// `++` or `--` (ECMA-262, UpdateExpression).
pub fn update_operator(kind: TokenKind) -> UpdateOperator
    ensures { result ≡ spec.update_operator kind }
{
    match kind {
        TokenKind::Punctuator(Punctuator::Increment) => UpdateOperator::Increment,
        TokenKind::Punctuator(Punctuator::Decrement) => UpdateOperator::Decrement,
        _ => UpdateOperator::Increment,
    }
}

/// The operator between two operands that a word is.
fn binary_word(word: Keyword) -> BinaryOperator
    ensures { result ≡ spec.binary_word word }
{
    match word {
        Keyword::Instanceof => BinaryOperator::Instanceof,
        Keyword::In => BinaryOperator::In,
        _ => BinaryOperator::Exponentiate,
    }
}

/// The operator between two operands that a punctuator is.
fn binary_mark(mark: Punctuator) -> BinaryOperator
    ensures { result ≡ spec.binary_mark mark }
{
    match mark {
        Punctuator::StarStar => BinaryOperator::Exponentiate,
        Punctuator::Star => BinaryOperator::Multiply,
        Punctuator::Slash => BinaryOperator::Divide,
        Punctuator::Percent => BinaryOperator::Remainder,
        Punctuator::Plus => BinaryOperator::Add,
        Punctuator::Minus => BinaryOperator::Subtract,
        Punctuator::ShiftLeft => BinaryOperator::LeftShift,
        Punctuator::ShiftRight => BinaryOperator::SignedRightShift,
        Punctuator::UnsignedShiftRight => BinaryOperator::UnsignedRightShift,
        Punctuator::Less => BinaryOperator::Less,
        Punctuator::Greater => BinaryOperator::Greater,
        Punctuator::LessOrEqual => BinaryOperator::LessOrEqual,
        Punctuator::GreaterOrEqual => BinaryOperator::GreaterOrEqual,
        Punctuator::Equal => BinaryOperator::LooselyEqual,
        Punctuator::NotEqual => BinaryOperator::LooselyUnequal,
        Punctuator::StrictEqual => BinaryOperator::StrictlyEqual,
        Punctuator::StrictNotEqual => BinaryOperator::StrictlyUnequal,
        Punctuator::Ampersand => BinaryOperator::BitwiseAnd,
        Punctuator::Caret => BinaryOperator::BitwiseXor,
        Punctuator::Bar => BinaryOperator::BitwiseOr,
        _ => BinaryOperator::Exponentiate,
    }
}

/// The operator that evaluates both its operands (ECMA-262, ExponentiationExpression to BitwiseORExpression).
pub fn binary_operator(kind: TokenKind) -> BinaryOperator
    ensures { result ≡ spec.binary_operator kind }
{
    match kind {
        TokenKind::Keyword(word) => binary_word(word),
        TokenKind::Punctuator(mark) => binary_mark(mark),
        _ => BinaryOperator::Exponentiate,
    }
}

/// `&&`, `||` or `??` (ECMA-262, LogicalANDExpression, LogicalORExpression, CoalesceExpression).
pub fn logical_operator(kind: TokenKind) -> LogicalOperator
    ensures { result ≡ spec.logical_operator kind }
{
    match kind {
        TokenKind::Punctuator(Punctuator::LogicalAnd) => LogicalOperator::And,
        TokenKind::Punctuator(Punctuator::LogicalOr) => LogicalOperator::Or,
        TokenKind::Punctuator(Punctuator::Coalesce) => LogicalOperator::Coalesce,
        _ => LogicalOperator::And,
    }
}

/// The operator before the `=` of a punctuator.
fn assignment_mark(mark: Punctuator) -> AssignmentOperator
    ensures { result ≡ spec.assignment_mark mark }
{
    match mark {
        Punctuator::ExponentiateAssign => AssignmentOperator::Binary(BinaryOperator::Exponentiate),
        Punctuator::MultiplyAssign => AssignmentOperator::Binary(BinaryOperator::Multiply),
        Punctuator::DivideAssign => AssignmentOperator::Binary(BinaryOperator::Divide),
        Punctuator::RemainderAssign => AssignmentOperator::Binary(BinaryOperator::Remainder),
        Punctuator::AddAssign => AssignmentOperator::Binary(BinaryOperator::Add),
        Punctuator::SubtractAssign => AssignmentOperator::Binary(BinaryOperator::Subtract),
        Punctuator::ShiftLeftAssign => AssignmentOperator::Binary(BinaryOperator::LeftShift),
        Punctuator::ShiftRightAssign => {
            AssignmentOperator::Binary(BinaryOperator::SignedRightShift)
        }
        Punctuator::UnsignedShiftRightAssign => {
            AssignmentOperator::Binary(BinaryOperator::UnsignedRightShift)
        }
        Punctuator::BitAndAssign => AssignmentOperator::Binary(BinaryOperator::BitwiseAnd),
        Punctuator::BitXorAssign => AssignmentOperator::Binary(BinaryOperator::BitwiseXor),
        Punctuator::BitOrAssign => AssignmentOperator::Binary(BinaryOperator::BitwiseOr),
        Punctuator::LogicalAndAssign => AssignmentOperator::Logical(LogicalOperator::And),
        Punctuator::LogicalOrAssign => AssignmentOperator::Logical(LogicalOperator::Or),
        Punctuator::CoalesceAssign => AssignmentOperator::Logical(LogicalOperator::Coalesce),
        _ => AssignmentOperator::Binary(BinaryOperator::Exponentiate),
    }
}

/// ECMA-262, AssignmentOperator.
pub fn assignment_operator(kind: TokenKind) -> AssignmentOperator
    ensures { result ≡ spec.assignment_operator kind }
{
    match kind {
        TokenKind::Punctuator(mark) => assignment_mark(mark),
        _ => AssignmentOperator::Binary(BinaryOperator::Exponentiate),
    }
}

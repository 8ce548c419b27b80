// What the parts of a syntax tree have become while it is made.

use js_lexer::token::Token;
use js_tree::tree::{
    ArrayElement, ClassMember, Clause, Declaration, Expr, ForInit, ForTarget, Function, Identifier,
    LinkStep, Pattern, PatternElement, PatternField, Property, PropertyKey, Stmt,
};
use lava_base::place::Place;
use sqlite_items::{Boxed, Items};

/// What stands between parentheses: an expression, or the parameters of an arrow function (ECMA-262,
/// CoverParenthesizedExpressionAndArrowParameterList).
#[derive(Drop)]
pub struct Cover {
    /// The place of the `(`.
    pub place: Place,
    pub operands: Operands,
    /// What stands behind `...`.
    pub rest: Option<Boxed<Pattern>>,
}

/// Expressions with commas between them, but for what stands behind `...`.
#[derive(Drop)]
pub enum Operands {
    NoOperand,
    Single(Boxed<Expr>),
    Several(Items<Boxed<Expr>>),
}

/// What stands between the parentheses of a `for`.
#[derive(Drop)]
pub enum ForHead {
    Loop {
        init: ForInit,
        test: Option<Boxed<Expr>>,
        update: Option<Boxed<Expr>>,
    },
    Of {
        target: ForTarget,
        iterated: Boxed<Expr>,
    },
    In {
        target: ForTarget,
        object: Boxed<Expr>,
    },
}

/// What stands behind the block of a `try`.
#[derive(Drop)]
pub struct TryTail {
    pub parameter: Option<Boxed<Pattern>>,
    pub handler: Option<Items<Boxed<Stmt>>>,
    pub finalizer: Option<Items<Boxed<Stmt>>>,
}

/// Parameters, between parentheses (ECMA-262, FormalParameters).
#[derive(Drop)]
pub struct Parameters {
    /// The place of the `(`.
    pub place: Place,
    pub elements: Items<PatternElement>,
    /// What stands behind `...`.
    pub rest: Option<Boxed<Pattern>>,
}

/// A string of a template, and the substitution behind it.
#[derive(Drop)]
pub struct Substitution {
    pub string: js_text::text::Text,
    pub value: Boxed<Expr>,
}

/// What a tree of the grammar has become: of each production that which its parent takes of it.
#[derive(Drop)]
pub enum Phrase {
    /// A part that is left out.
    Absent,
    Token(Token),
    Name(Identifier),
    Expression(Boxed<Expr>),
    /// Expressions between parentheses.
    Covered(Boxed<Cover>),
    /// Expressions with commas between them, inside parentheses.
    Operands(Boxed<Cover>),
    /// `...` and an expression.
    Spread(Boxed<Expr>),
    /// `=` and an expression.
    Initializer(Boxed<Expr>),
    Key(PropertyKey),
    Property(Boxed<Property>),
    Member(Boxed<ClassMember>),
    Function(Boxed<Function>),
    Parameters(Boxed<Parameters>),
    /// What follows a comma of an array literal.
    Slot(ArrayElement),
    Step(LinkStep),
    Substitution(Boxed<Substitution>),
    Pattern(Boxed<Pattern>),
    /// `...` and a pattern.
    Rest(Boxed<Pattern>),
    Element(PatternElement),
    /// A comma of an array pattern behind which there is no element.
    Hole,
    Field(Boxed<PatternField>),
    Statement(Boxed<Stmt>),
    /// Statements between braces.
    Statements(Items<Boxed<Stmt>>),
    Declaration(Boxed<Declaration>),
    Head(Boxed<ForHead>),
    Clause(Boxed<Clause>),
    /// `default` and the clauses behind it.
    Clauses(Items<Clause>),
    Tail(Boxed<TryTail>),
}

impl Phrase {
    /// Drops it. A match that binds what it doesn't know and calls this has one drop to prove, and not one a variant.
    pub fn discard(self) {}
}

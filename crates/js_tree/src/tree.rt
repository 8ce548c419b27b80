// Syntax trees: a variant for each form of the language. A place is that of the form's first token.

use crate::operator::{
    AssignmentOperator, BinaryOperator, LogicalOperator, UnaryOperator, UpdateOperator,
};
use js_text::text::Text;
use lava_base::place::Place;
use sqlite_items::{Boxed, Items};

/// What a source is read as.
#[derive(Clone, Copy, Debug, PartialEq, Eq)]
pub enum SourceKind {
    /// A module of a package.
    Module,
    /// A text that a compartment evaluates.
    EvaluatedText,
}

/// A source: its statements (ECMA-262, StatementList).
#[derive(Drop)]
pub struct Module {
    pub kind: SourceKind,
    pub body: Items<Boxed<Stmt>>,
}

/// A name where it stands (ECMA-262, Identifier).
#[derive(Drop)]
pub struct Identifier {
    pub place: Place,
    pub name: Text,
}

/// An expression (ECMA-262, Expression).
#[cycle(tree)]
#[derive(Drop)]
pub enum Expr {
    /// IdentifierReference.
    Name(Identifier),
    /// `this`
    This {
        place: Place,
    },
    /// `null`
    Null {
        place: Place,
    },
    /// `true`, `false`
    Bool {
        place: Place,
        value: bool,
    },
    /// NumericLiteral: a safe integer, or none where it writes no safe integer.
    Number {
        place: Place,
        value: Option<i64>,
    },
    /// StringLiteral, by its value.
    String {
        place: Place,
        value: Text,
    },
    /// TemplateLiteral: the cooked values of its strings, one more than there are substitutions.
    Template {
        place: Place,
        strings: Items<Text>,
        substitutions: Items<Boxed<Expr>>,
    },
    /// ArrayLiteral.
    Array {
        place: Place,
        elements: Items<ArrayElement>,
    },
    /// ObjectLiteral.
    Object {
        place: Place,
        properties: Items<Property>,
    },
    /// FunctionExpression and ArrowFunction.
    Function(Boxed<Function>),
    /// ClassExpression.
    Class(Boxed<Class>),
    /// ParenthesizedExpression.
    Parenthesized {
        place: Place,
        inner: Boxed<Expr>,
    },
    /// `new.target`
    NewTarget {
        place: Place,
    },
    /// MemberExpression `.` IdentifierName.
    Member {
        place: Place,
        object: Boxed<Expr>,
        name: Identifier,
    },
    /// MemberExpression `[` Expression `]`.
    Index {
        place: Place,
        object: Boxed<Expr>,
        key: Boxed<Expr>,
    },
    /// `super` `.` IdentifierName.
    SuperMember {
        place: Place,
        name: Identifier,
    },
    /// `super` `[` Expression `]`.
    SuperIndex {
        place: Place,
        key: Boxed<Expr>,
    },
    /// CallExpression.
    Call {
        place: Place,
        callee: Boxed<Expr>,
        arguments: Items<Argument>,
    },
    /// SuperCall.
    SuperCall {
        place: Place,
        arguments: Items<Argument>,
    },
    /// `new`, with arguments or without.
    New {
        place: Place,
        callee: Boxed<Expr>,
        arguments: Items<Argument>,
    },
    /// OptionalExpression: what stands before the first `?.`, and all links from there on.
    Chain {
        place: Place,
        base: Boxed<Expr>,
        links: Items<Link>,
    },
    /// UnaryExpression.
    Unary {
        place: Place,
        operator: UnaryOperator,
        operand: Boxed<Expr>,
    },
    /// UpdateExpression; `prefix` where the operator stands before its operand.
    Update {
        place: Place,
        operator: UpdateOperator,
        prefix: bool,
        operand: Boxed<Expr>,
    },
    /// Operators that evaluate both operands.
    Binary {
        place: Place,
        operator: BinaryOperator,
        left: Boxed<Expr>,
        right: Boxed<Expr>,
    },
    /// `&&`, `||`, `??`
    Logical {
        place: Place,
        operator: LogicalOperator,
        left: Boxed<Expr>,
        right: Boxed<Expr>,
    },
    /// ConditionalExpression.
    Conditional {
        place: Place,
        test: Boxed<Expr>,
        consequent: Boxed<Expr>,
        alternate: Boxed<Expr>,
    },
    /// AssignmentExpression with `=`.
    Assign {
        place: Place,
        target: Boxed<Pattern>,
        value: Boxed<Expr>,
    },
    /// AssignmentExpression with an operator.
    OperatorAssign {
        place: Place,
        operator: AssignmentOperator,
        target: Boxed<Expr>,
        value: Boxed<Expr>,
    },
    /// Expressions with commas between them.
    Comma {
        place: Place,
        operands: Items<Boxed<Expr>>,
    },
}

/// An argument of a call (ECMA-262, ArgumentList).
#[cycle(tree)]
#[derive(Drop)]
pub enum Argument {
    Operand(Boxed<Expr>),
    /// `...`
    SpreadArgument(Boxed<Expr>),
}

/// An element of an array literal (ECMA-262, ElementList).
#[cycle(tree)]
#[derive(Drop)]
pub enum ArrayElement {
    /// Nothing between two commas.
    Hole,
    Element(Boxed<Expr>),
    SpreadElement(Boxed<Expr>),
}

/// What a property is called (ECMA-262, PropertyName).
#[cycle(tree)]
#[derive(Drop)]
pub enum PropertyKey {
    /// An IdentifierName, or a StringLiteral by its value.
    Named(Identifier),
    /// A NumericLiteral: a safe integer, or none where it writes no safe integer.
    Numbered { place: Place, value: Option<i64> },
    /// `[` AssignmentExpression `]`.
    Computed { place: Place, key: Boxed<Expr> },
}

/// A property of an object literal (ECMA-262, PropertyDefinition).
#[cycle(tree)]
#[derive(Drop)]
pub enum Property {
    /// With a value; a name alone is the key and the value.
    Valued {
        key: PropertyKey,
        value: Boxed<Expr>,
    },
    /// A method, getter or setter, as its function says.
    Defined {
        key: PropertyKey,
        function: Boxed<Function>,
    },
    /// `...`
    SpreadProperty(Boxed<Expr>),
    /// CoverInitializedName, which only a literal that becomes a pattern has.
    Initialized {
        name: Identifier,
        default: Boxed<Expr>,
    },
}

/// A link of a chain of members and calls in which there is a `?.` (ECMA-262, OptionalChain).
#[cycle(tree)]
#[derive(Drop)]
pub struct Link {
    /// Whether `?.` stands before it.
    pub optional: bool,
    pub step: LinkStep,
}

/// What a link does.
#[cycle(tree)]
#[derive(Drop)]
pub enum LinkStep {
    MemberLink(Identifier),
    IndexLink(Boxed<Expr>),
    CallLink(Items<Argument>),
}

/// What an assignment, a declaration or a parameter binds (ECMA-262, BindingPattern and AssignmentPattern).
#[cycle(tree)]
#[derive(Drop)]
pub enum Pattern {
    /// A name.
    Bound(Identifier),
    /// Another target of an assignment: a member, or what an early error refuses.
    Target(Boxed<Expr>),
    /// ObjectBindingPattern and ObjectAssignmentPattern.
    ObjectPattern {
        place: Place,
        fields: Items<PatternField>,
        rest: Option<Boxed<Pattern>>,
    },
    /// ArrayBindingPattern and ArrayAssignmentPattern; a hole is none.
    ArrayPattern {
        place: Place,
        elements: Items<Option<PatternElement>>,
        rest: Option<Boxed<Pattern>>,
    },
}

/// A pattern and its default (ECMA-262, BindingElement and AssignmentElement).
#[cycle(tree)]
#[derive(Drop)]
pub struct PatternElement {
    pub pattern: Boxed<Pattern>,
    pub default: Option<Boxed<Expr>>,
}

/// A property of an object pattern (ECMA-262, BindingProperty and AssignmentProperty).
#[cycle(tree)]
#[derive(Drop)]
pub struct PatternField {
    pub key: PropertyKey,
    pub element: PatternElement,
}

/// Which functions there are.
#[derive(Clone, Copy, Debug, PartialEq, Eq)]
pub enum FunctionKind {
    /// FunctionDeclaration and FunctionExpression.
    Plain,
    Arrow,
    Method,
    Getter,
    Setter,
}

/// A function (ECMA-262, FunctionDeclaration, FunctionExpression, ArrowFunction, MethodDefinition).
#[cycle(tree)]
#[derive(Drop)]
pub struct Function {
    pub place: Place,
    pub kind: FunctionKind,
    /// The name behind `function`.
    pub name: Option<Identifier>,
    pub parameters: Items<PatternElement>,
    /// The parameter behind `...`.
    pub rest: Option<Boxed<Pattern>>,
    pub body: Body,
}

/// The body of a function.
#[cycle(tree)]
#[derive(Drop)]
pub enum Body {
    /// FunctionBody.
    Statements(Items<Boxed<Stmt>>),
    /// The expression behind `=>`.
    Concise(Boxed<Expr>),
}

/// A class (ECMA-262, ClassDeclaration and ClassExpression).
#[cycle(tree)]
#[derive(Drop)]
pub struct Class {
    pub place: Place,
    pub name: Option<Identifier>,
    /// ClassHeritage.
    pub heritage: Option<Boxed<Expr>>,
    pub members: Items<ClassMember>,
}

/// A method, getter or setter of a class (ECMA-262, ClassElement).
#[cycle(tree)]
#[derive(Drop)]
pub struct ClassMember {
    pub place: Place,
    pub is_static: bool,
    pub key: PropertyKey,
    pub function: Boxed<Function>,
}

/// How names are declared.
#[derive(Clone, Copy, Debug, PartialEq, Eq)]
pub enum DeclarationKind {
    Var,
    Let,
    Const,
}

/// `var`, `let` or `const` with what it declares, without `;`.
#[cycle(tree)]
#[derive(Drop)]
pub struct Declaration {
    pub place: Place,
    pub kind: DeclarationKind,
    pub declarators: Items<PatternElement>,
}

/// What stands first in the head of a `for` (ECMA-262, ForStatement).
#[cycle(tree)]
#[derive(Drop)]
pub enum ForInit {
    NoInit,
    InitDeclaration(Declaration),
    InitExpression(Boxed<Expr>),
}

/// What a for-in or for-of statement gives its values to (ECMA-262, ForInOfStatement).
#[cycle(tree)]
#[derive(Drop)]
pub enum ForTarget {
    /// ForDeclaration and `var` ForBinding.
    ForBinding {
        kind: DeclarationKind,
        pattern: Boxed<Pattern>,
    },
    /// LeftHandSideExpression.
    ForAssignment(Boxed<Pattern>),
}

/// A clause of a `switch`; `default` has no test (ECMA-262, CaseClause and DefaultClause).
#[cycle(tree)]
#[derive(Drop)]
pub struct Clause {
    pub test: Option<Boxed<Expr>>,
    pub body: Items<Boxed<Stmt>>,
}

/// ECMA-262, Catch.
#[cycle(tree)]
#[derive(Drop)]
pub struct Catch {
    pub parameter: Option<Boxed<Pattern>>,
    pub body: Items<Boxed<Stmt>>,
}

/// A statement or declaration (ECMA-262, StatementListItem).
#[cycle(tree)]
#[derive(Drop)]
pub enum Stmt {
    /// VariableStatement and LexicalDeclaration.
    Declare(Declaration),
    FunctionDeclaration(Boxed<Function>),
    ClassDeclaration(Boxed<Class>),
    /// ExpressionStatement.
    Expression(Boxed<Expr>),
    Block {
        place: Place,
        body: Items<Boxed<Stmt>>,
    },
    /// EmptyStatement.
    Empty {
        place: Place,
    },
    If {
        place: Place,
        test: Boxed<Expr>,
        consequent: Boxed<Stmt>,
        alternate: Option<Boxed<Stmt>>,
    },
    While {
        place: Place,
        test: Boxed<Expr>,
        body: Boxed<Stmt>,
    },
    DoWhile {
        place: Place,
        body: Boxed<Stmt>,
        test: Boxed<Expr>,
    },
    For {
        place: Place,
        init: ForInit,
        test: Option<Boxed<Expr>>,
        update: Option<Boxed<Expr>>,
        body: Boxed<Stmt>,
    },
    ForOf {
        place: Place,
        target: ForTarget,
        iterated: Boxed<Expr>,
        body: Boxed<Stmt>,
    },
    ForIn {
        place: Place,
        target: ForTarget,
        object: Boxed<Expr>,
        body: Boxed<Stmt>,
    },
    Continue {
        place: Place,
        label: Option<Identifier>,
    },
    Break {
        place: Place,
        label: Option<Identifier>,
    },
    Return {
        place: Place,
        value: Option<Boxed<Expr>>,
    },
    Throw {
        place: Place,
        value: Boxed<Expr>,
    },
    Switch {
        place: Place,
        value: Boxed<Expr>,
        clauses: Items<Clause>,
    },
    Try {
        place: Place,
        block: Items<Boxed<Stmt>>,
        handler: Option<Boxed<Catch>>,
        finalizer: Option<Items<Boxed<Stmt>>>,
    },
    Labelled {
        label: Identifier,
        body: Boxed<Stmt>,
    },
    Debugger {
        place: Place,
    },
}

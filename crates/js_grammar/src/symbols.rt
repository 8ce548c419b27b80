// Terminals, productions and nonterminals: what the rows of the table are about.

/// A terminal: what the grammar asks of one token. Words and punctuators that it never tells apart are one, and a token whose
/// meaning hangs on its neighbour is one of its own (ECMA-262, The Syntactic Grammar).
#[derive(Clone, Copy, Drop)]
pub enum Terminal {
    /// `get`, where a property name follows.
    Get,
    /// `set`, where a property name follows.
    Set,
    /// An identifier that is none of the others here.
    Name,
    /// `async`, where `of` follows.
    AsyncOf,
    /// `of`.
    Of,
    /// `of`, where `:` follows.
    OfColon,
    /// An identifier, where `:` follows.
    NameColon,
    /// `__proto__`, where `:` follows.
    ProtoColon,
    /// `target`, where `:` follows.
    TargetColon,
    /// `target`.
    Target,
    /// `this`
    This,
    /// `null`, `true`, `false`
    NullOrBoolean,
    /// `instanceof`
    Instanceof,
    /// `in`
    In,
    /// `delete`, `void`, `typeof`
    UnaryWord,
    /// `break`, `continue`
    BreakOrContinue,
    /// `case`
    Case,
    /// `catch`
    Catch,
    /// `class`
    Class,
    /// `let`, `const`
    LetOrConst,
    /// `debugger`
    Debugger,
    /// `default`
    Default,
    /// `do`
    Do,
    /// `else`
    Else,
    /// `export`
    Export,
    /// `extends`
    Extends,
    /// `finally`
    Finally,
    /// `for`
    For,
    /// `function`
    Function,
    /// `if`
    If,
    /// `import`
    Import,
    /// `new`, where no `.` follows.
    New,
    /// `new`, where `.` follows.
    NewDot,
    /// `return`
    Return,
    /// `super`
    Super,
    /// `switch`
    Switch,
    /// `throw`
    Throw,
    /// `try`
    Try,
    /// `var`
    Var,
    /// `while`
    While,
    /// `with`
    With,
    /// `static`, where no member of a class follows.
    Static,
    /// A reserved word that no production has: `enum`, `yield`, `implements`, `interface`, `package`, `private`, `protected`, `public`.
    Reserved,
    /// `static`, where a property name follows.
    StaticKey,
    /// A numeric literal.
    Number,
    /// A string literal that is none of the next.
    String,
    /// A string literal of the value `__proto__`, where `:` follows.
    ProtoString,
    /// A template without substitutions.
    Template,
    /// A template up to a substitution.
    TemplateHead,
    /// A template between two substitutions.
    TemplateMiddle,
    /// A template behind the last substitution.
    TemplateTail,
    /// `{`
    LeftBrace,
    /// `}`
    RightBrace,
    /// `(`
    LeftParenthesis,
    /// `)`
    RightParenthesis,
    /// `[`
    LeftBracket,
    /// `]`
    RightBracket,
    /// `.`
    Dot,
    /// `...`
    Ellipsis,
    /// `;`
    Semicolon,
    /// `,`, where no `...` follows.
    Comma,
    /// `,`, where `...` follows.
    CommaRest,
    /// `?`
    Question,
    /// `?.`
    OptionalChain,
    /// `:`
    Colon,
    /// `=>`
    Arrow,
    /// `=>` behind a line terminator.
    ArrowAfterLine,
    /// `=`
    Equals,
    /// `+=` and the other operators that assign, but for `=` and `/=`.
    AssignmentOperator,
    /// `/=`
    SlashEquals,
    /// `??`
    Coalesce,
    /// `||`
    LogicalOr,
    /// `&&`
    LogicalAnd,
    /// `|`
    Bar,
    /// `^`
    Caret,
    /// `&`
    Ampersand,
    /// `==`, `!=`, `===`, `!==`
    EqualityOperator,
    /// `<`, `>`, `<=`, `>=`
    RelationalOperator,
    /// `<<`, `>>`, `>>>`
    ShiftOperator,
    /// `!`, `~`
    UnaryMark,
    /// `+`, `-`
    PlusOrMinus,
    /// `*`
    Star,
    /// `/`
    Slash,
    /// `%`
    Percent,
    /// `**`
    StarStar,
    /// `++`, `--`
    UpdateOperator,
    /// `++`, `--` behind a line terminator.
    UpdateOperatorAfterLine,
    /// The start of the source.
    Start,
    /// The end of the source.
    End,
    /// An inserted semicolon.
    Inserted,
    /// An inserted semicolon that only a do-while statement takes.
    InsertedAfterDoWhile,
}

/// A production: one right-hand side, by its name (ECMA-262, Syntactic and Other Grammars).
#[derive(Clone, Copy, Drop)]
pub enum Production {
    NewMemberName,
    NewMemberKey,
    NewTaggedTemplate,
    NewSuperProperty,
    IdentifierReference,
    This,
    NumericLiteral,
    StringLiteral,
    NullOrBooleanLiteral,
    NoSubstitutionTemplate,
    SubstitutionTemplate,
    ArrayLiteral,
    ObjectLiteral,
    FunctionExpression,
    ClassExpression,
    CoverParenthesized,
    Import,
    Regexp,
    NewTarget,
    NewWithArguments,
    New,
    SuperPropertyOrCall,
    MemberName,
    MemberKey,
    Call,
    TaggedTemplate,
    OptionalChain,
    PostfixUpdate,
    PrefixUpdate,
    Unary,
    Exponentiation,
    Multiplicative,
    Additive,
    Shift,
    Relational,
    In,
    Equality,
    BitwiseAnd,
    BitwiseXor,
    BitwiseOr,
    LogicalAnd,
    LogicalOr,
    Coalesce,
    Conditional,
    Assignment,
    OperatorAssignment,
    ArrowFunction,
    Comma,
    CoalesceNoIn,
    RelationalNoIn,
    EqualityNoIn,
    BitwiseAndNoIn,
    BitwiseXorNoIn,
    BitwiseOrNoIn,
    LogicalAndNoIn,
    LogicalOrNoIn,
    ConditionalNoIn,
    AssignmentNoIn,
    OperatorAssignmentNoIn,
    ArrowFunctionNoIn,
    CommaNoIn,
    ForVar,
    ForLexical,
    ForWithoutInit,
    ForWithInit,
    ForOf,
    ForIn,
    AnyWordName,
    ReservedWordName,
    ClassWordName,
    StaticWordName,
    StringName,
    NumericName,
    ComputedPropertyName,
    SpreadElement,
    SpreadProperty,
    NamedProperty,
    KeyedProperty,
    Getter,
    Setter,
    GeneratorMark,
    StaticMethod,
    EmptyClassElement,
    Method,
    StaticElement,
    StaticNamedMethod,
    PropertyValue,
    MethodTail,
    CoverInitializedName,
    FieldEnd,
    FieldInitializer,
    StaticBlock,
    StaticGenerator,
    VariableStatement,
    Block,
    EmptyStatement,
    ExpressionStatement,
    IfStatement,
    IfElseStatement,
    WhileStatement,
    DoWhileStatement,
    ForStatement,
    BreakOrContinueStatement,
    ReturnStatement,
    ThrowStatement,
    SwitchStatement,
    TryStatement,
    LabelledStatement,
    WithStatement,
    DebuggerStatement,
    FunctionDeclaration,
    ClassDeclaration,
    LexicalDeclaration,
    ExportDeclaration,
    SuperName,
    SuperKey,
    SuperCall,
    OptionalName,
    OptionalKey,
    OptionalCall,
    BindingIdentifier,
    ObjectBindingPattern,
    ArrayBindingPattern,
    CommaBindingElement,
    BindingElement,
    BindingRestElement,
    CommaBindingRestElement,
    BindingRestProperty,
    NamedBindingProperty,
    KeyedBindingProperty,
    BindingPropertyValue,
    Initializer,
    CatchClause,
    FinallyClause,
    TemplateMiddle,
    CoverComma,
    CoverRest,
    CommaElement,
    FormalParameters,
    FunctionBody,
    ClassHeritage,
    SpreadArgument,
    ExpressionBody,
    ExpressionBodyNoIn,
    InitializerNoIn,
    VariableDeclaration,
    VariableDeclarationNoIn,
    CommaVariableDeclaration,
    CommaVariableDeclarationNoIn,
    LabelIdentifier,
    CaseClause,
    DefaultClause,
    CatchParameter,
    Module,
    Source,
}

/// A nonterminal: what may stand where a constituent is wanted (ECMA-262, Syntactic and Other Grammars).
#[derive(Clone, Copy, Drop)]
pub enum Nonterminal {
    Callee,
    NewWithoutArguments,
    NewExpression,
    MemberExpression,
    LeftHandSideExpression,
    AssignmentTarget,
    SimpleTarget,
    UpdateExpression,
    UpdateOperand,
    UnaryExpression,
    ExponentiationExpression,
    MultiplicativeExpression,
    AdditiveExpression,
    ShiftExpression,
    RelationalExpression,
    EqualityExpression,
    BitwiseAndExpression,
    BitwiseXorExpression,
    BitwiseOrExpression,
    LogicalAndExpression,
    LogicalOrExpression,
    ShortCircuitExpression,
    AssignmentExpression,
    Expression,
    CoalesceExpressionHead,
    ExpressionBody,
    ConciseBody,
    RelationalExpressionNoIn,
    EqualityExpressionNoIn,
    BitwiseAndExpressionNoIn,
    BitwiseXorExpressionNoIn,
    BitwiseOrExpressionNoIn,
    LogicalAndExpressionNoIn,
    LogicalOrExpressionNoIn,
    ShortCircuitExpressionNoIn,
    AssignmentExpressionNoIn,
    ExpressionNoIn,
    CoalesceExpressionHeadNoIn,
    ExpressionBodyNoIn,
    ConciseBodyNoIn,
    StatementExpression,
    SameLineExpression,
    CoverAssignmentExpression,
    CoverElement,
    CommaElement,
    CoverExpression,
    CoverCommaHead,
    CoverCommaTail,
    Argument,
    ArrowParameters,
    TemplateMiddle,
    PropertyDefinition,
    PropertyTail,
    KeyedPropertyTail,
    PropertyName,
    LiteralPropertyName,
    MethodName,
    StaticMethodName,
    ClassElement,
    StaticMember,
    MemberTail,
    StaticTail,
    FunctionName,
    FormalParameters,
    FormalParameter,
    FunctionBody,
    ClassHeritage,
    SuperTail,
    SuperProperty,
    OptionalTail,
    BindingIdentifier,
    BindingTarget,
    BindingElement,
    BindingRestElement,
    BindingFirst,
    CommaBinding,
    BindingProperty,
    BindingPropertyTail,
    BindingPropertyValue,
    Initializer,
    InitializerNoIn,
    VariableDeclaration,
    VariableDeclarationNoIn,
    CommaVariableDeclaration,
    CommaVariableDeclarationNoIn,
    Statement,
    LabelledItem,
    StatementListItem,
    ModuleItem,
    IfWithoutElse,
    LabelIdentifier,
    Block,
    CaseClause,
    DefaultClause,
    TryTail,
    CatchParameter,
    FinallyClause,
    ForBinding,
    ForHead,
    ForInit,
    ForOfTarget,
    ForInTarget,
    Module,
    Source,
}

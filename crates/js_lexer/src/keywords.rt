// Keywords.

ghost use Rattle.std.specs.Prelude.{◌≡◌, IfSome, IfNone};
ghost use Rattle.std.specs.List.{find};
ghost use Rattle.js_lexer.specs.Keywords.{keyword_text, is_text_of, of_length};
ghost use Rattle.js_lexer.specs.declared.keywords.Keyword.{Keyword};

/// A reserved word of strict code (ECMA-262, ReservedWord and the words that strict code keeps from identifiers). `await` and `async` are names.
#[derive(Clone, Copy, Debug, PartialEq, Eq)]
pub enum Keyword {
    /// `break`
    Break,
    /// `case`
    Case,
    /// `catch`
    Catch,
    /// `class`
    Class,
    /// `const`
    Const,
    /// `continue`
    Continue,
    /// `debugger`
    Debugger,
    /// `default`
    Default,
    /// `delete`
    Delete,
    /// `do`
    Do,
    /// `else`
    Else,
    /// `enum`
    Enum,
    /// `export`
    Export,
    /// `extends`
    Extends,
    /// `false`
    False,
    /// `finally`
    Finally,
    /// `for`
    For,
    /// `function`
    Function,
    /// `if`
    If,
    /// `import`
    Import,
    /// `in`
    In,
    /// `instanceof`
    Instanceof,
    /// `new`
    New,
    /// `null`
    Null,
    /// `return`
    Return,
    /// `super`
    Super,
    /// `switch`
    Switch,
    /// `this`
    This,
    /// `throw`
    Throw,
    /// `true`
    True,
    /// `try`
    Try,
    /// `typeof`
    Typeof,
    /// `var`
    Var,
    /// `void`
    Void,
    /// `while`
    While,
    /// `with`
    With,
    /// `yield`
    Yield,
    /// `let`
    Let,
    /// `static`
    Static,
    /// `implements`
    Implements,
    /// `interface`
    Interface,
    /// `package`
    Package,
    /// `private`
    Private,
    /// `protected`
    Protected,
    /// `public`
    Public,
}

impl Keyword {
    /// The word.
    pub fn text(self) -> &'static str
        ensures { result.now ≡ keyword_text self }
    {
        match self {
            Keyword::Break => "break",
            Keyword::Case => "case",
            Keyword::Catch => "catch",
            Keyword::Class => "class",
            Keyword::Const => "const",
            Keyword::Continue => "continue",
            Keyword::Debugger => "debugger",
            Keyword::Default => "default",
            Keyword::Delete => "delete",
            Keyword::Do => "do",
            Keyword::Else => "else",
            Keyword::Enum => "enum",
            Keyword::Export => "export",
            Keyword::Extends => "extends",
            Keyword::False => "false",
            Keyword::Finally => "finally",
            Keyword::For => "for",
            Keyword::Function => "function",
            Keyword::If => "if",
            Keyword::Import => "import",
            Keyword::In => "in",
            Keyword::Instanceof => "instanceof",
            Keyword::New => "new",
            Keyword::Null => "null",
            Keyword::Return => "return",
            Keyword::Super => "super",
            Keyword::Switch => "switch",
            Keyword::This => "this",
            Keyword::Throw => "throw",
            Keyword::True => "true",
            Keyword::Try => "try",
            Keyword::Typeof => "typeof",
            Keyword::Var => "var",
            Keyword::Void => "void",
            Keyword::While => "while",
            Keyword::With => "with",
            Keyword::Yield => "yield",
            Keyword::Let => "let",
            Keyword::Static => "static",
            Keyword::Implements => "implements",
            Keyword::Interface => "interface",
            Keyword::Package => "package",
            Keyword::Private => "private",
            Keyword::Protected => "protected",
            Keyword::Public => "public",
        }
    }
}

static OF_TWO: [Keyword; 3] = [Keyword::Do, Keyword::If, Keyword::In];

static OF_THREE: [Keyword; 5] = [
    Keyword::For,
    Keyword::New,
    Keyword::Try,
    Keyword::Var,
    Keyword::Let,
];

static OF_FOUR: [Keyword; 8] = [
    Keyword::Case,
    Keyword::Else,
    Keyword::Enum,
    Keyword::Null,
    Keyword::This,
    Keyword::True,
    Keyword::Void,
    Keyword::With,
];

static OF_FIVE: [Keyword; 9] = [
    Keyword::Break,
    Keyword::Catch,
    Keyword::Class,
    Keyword::Const,
    Keyword::False,
    Keyword::Super,
    Keyword::Throw,
    Keyword::While,
    Keyword::Yield,
];

static OF_SIX: [Keyword; 8] = [
    Keyword::Delete,
    Keyword::Export,
    Keyword::Import,
    Keyword::Return,
    Keyword::Switch,
    Keyword::Typeof,
    Keyword::Static,
    Keyword::Public,
];

static OF_SEVEN: [Keyword; 5] = [
    Keyword::Default,
    Keyword::Extends,
    Keyword::Finally,
    Keyword::Package,
    Keyword::Private,
];

static OF_EIGHT: [Keyword; 3] = [Keyword::Continue, Keyword::Debugger, Keyword::Function];

static OF_NINE: [Keyword; 2] = [Keyword::Interface, Keyword::Protected];

static OF_TEN: [Keyword; 2] = [Keyword::Instanceof, Keyword::Implements];

/// The keywords of a length in bytes.
fn of_length(length: usize) -> &'static [Keyword]
    ensures { result.now ≡ of_length length }
{
    match length {
        2 => &OF_TWO,
        3 => &OF_THREE,
        4 => &OF_FOUR,
        5 => &OF_FIVE,
        6 => &OF_SIX,
        7 => &OF_SEVEN,
        8 => &OF_EIGHT,
        9 => &OF_NINE,
        10 => &OF_TEN,
        _ => &[],
    }
}

/// The first of the keywords whose text is the word.
fn among(keywords: &[Keyword], word: &[u8]) -> Option<Keyword>
    ensures { result ≡ find (is_text_of word.now) keywords.now }
{
    keywords
        .iter()
        .copied()
        .find(|k| k.text().as_bytes() == word)
}

/// The keyword whose text the bytes of a word are, if there is one.
pub fn keyword_of(word: &[u8]) -> Option<Keyword>
    ensures some { IfSome result (λ k. keyword_text k ≡ word.now) }
    ensures none { IfNone result ((k : Keyword) → ¬ (keyword_text k ≡ word.now)) }
{
    among(of_length(word.len()), word)
}

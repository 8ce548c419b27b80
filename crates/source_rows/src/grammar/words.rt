// The words that stand for terminals.

use js_grammar::symbols::Terminal;

macro_rules! words {
    ($($word:literal $terminal:ident)*) => {
        [$(($word, Terminal::$terminal)),*]
    };
}

/// Terminals by words: a colon or line behind a word says what stands beside the token.
static WORDS: [(&'static str, Terminal); 56] = words! {
    "name" Name
    "of" Of
    "of:" OfColon
    "async-of" AsyncOf
    "proto:" ProtoColon
    "this" This
    "in" In
    "typeof" UnaryWord
    "class" Class
    "let" LetOrConst
    "else" Else
    "export" Export
    "for" For
    "function" Function
    "if" If
    "import" Import
    "new" New
    "return" Return
    "super" Super
    "with" With
    "static" Static
    "static-key" StaticKey
    "1" Number
    "string" String
    "template" Template
    "template-head" TemplateHead
    "{" LeftBrace
    "}" RightBrace
    "(" LeftParenthesis
    ")" RightParenthesis
    "[" LeftBracket
    "]" RightBracket
    "." Dot
    "..." Ellipsis
    ";" Semicolon
    "," Comma
    ",..." CommaRest
    "?." OptionalChain
    ":" Colon
    "=>" Arrow
    "=>line" ArrowAfterLine
    "=" Equals
    "+=" AssignmentOperator
    "/=" SlashEquals
    "??" Coalesce
    "||" LogicalOr
    "!" UnaryMark
    "+" PlusOrMinus
    "*" Star
    "/" Slash
    "**" StarStar
    "++" UpdateOperator
    "end" End
    "inserted" Inserted
    "while" While
    "do" Do
};

/// The terminal that a word stands for.
pub fn terminal_of(word: &str) -> Option<Terminal> {
    for (name, terminal) in &WORDS {
        if *name == word {
            return Some(*terminal);
        }
    }
    None
}

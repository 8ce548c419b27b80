// What tokens are to the grammar.

ghost use Rattle.std.specs.Prelude.{◌≡◌};
ghost use Rattle.js_reader.specs.Terminals.{text_of, is_colon, is_dot, is_ellipsis, is_name, is_key, before, before_of, label_terminal, name_terminal, word_terminal, keyword_terminal, mark_terminal, punctuator_terminal, is_proto, string_terminal, template_terminal, word_or_label, terminal_of};

use js_grammar::symbols::Terminal;
use js_lexer::keywords::Keyword;
use js_lexer::punctuators::Punctuator;
use js_lexer::token::{TemplatePart, Token, TokenKind};

/// The bytes of a token; none where it is no token of the source.
pub fn text_of<'a>(source: &'a [u8], token: &Token) -> &'a [u8]
    ensures { result.now ≡ text_of source.now token.now }
{
    let from = token.from as usize;
    let to = token.to as usize;
    if from <= to && to <= source.len() {
        &source[from..to]
    } else {
        &[]
    }
}

/// Whether a token is `:`.
fn is_colon(kind: TokenKind) -> bool
    ensures { result ≡ is_colon kind }
{
    matches!(kind, TokenKind::Punctuator(Punctuator::Colon))
}

/// Whether a token is `.`.
fn is_dot(kind: TokenKind) -> bool
    ensures { result ≡ is_dot kind }
{
    matches!(kind, TokenKind::Punctuator(Punctuator::Dot))
}

/// Whether a token is `...`.
fn is_ellipsis(kind: TokenKind) -> bool
    ensures { result ≡ is_ellipsis kind }
{
    matches!(kind, TokenKind::Punctuator(Punctuator::Ellipsis))
}

/// Whether a property name begins with a token.
fn is_key(kind: TokenKind) -> bool
    ensures { result ≡ is_key kind }
{
    match kind {
        TokenKind::Name => true,
        TokenKind::Keyword(_) => true,
        TokenKind::String => true,
        TokenKind::Number => true,
        TokenKind::Punctuator(Punctuator::LeftBracket) => true,
        _ => false,
    }
}

/// Whether `:` is the first of these tokens.
fn is_before_colon(later: &[Token]) -> bool
    ensures { result ≡ before is_colon later.now }
{
    match later {
        [] => false,
        [next, ..] => is_colon(next.kind),
    }
}

/// Whether `.` is the first of these tokens.
fn is_before_dot(later: &[Token]) -> bool
    ensures { result ≡ before is_dot later.now }
{
    match later {
        [] => false,
        [next, ..] => is_dot(next.kind),
    }
}

/// Whether `...` is the first of these tokens.
fn is_before_ellipsis(later: &[Token]) -> bool
    ensures { result ≡ before is_ellipsis later.now }
{
    match later {
        [] => false,
        [next, ..] => is_ellipsis(next.kind),
    }
}

/// Whether a property name begins with the first of these tokens.
fn is_before_key(later: &[Token]) -> bool
    ensures { result ≡ before is_key later.now }
{
    match later {
        [] => false,
        [next, ..] => is_key(next.kind),
    }
}

/// Whether the name `of` is the first of these tokens.
fn is_before_of(source: &[u8], later: &[Token]) -> bool
    ensures { result ≡ before_of source.now later.now }
{
    match later {
        [] => false,
        [next, ..] => {
            matches!(next.kind, TokenKind::Name) && text_of(source, next) == "of".as_bytes()
        }
    }
}

/// The terminal of a name before `:`.
fn label_terminal(text: &[u8]) -> Terminal
    ensures { result ≡ label_terminal text.now }
{
    if text == "of".as_bytes() {
        Terminal::OfColon
    } else if text == "target".as_bytes() {
        Terminal::TargetColon
    } else if text == "__proto__".as_bytes() {
        Terminal::ProtoColon
    } else {
        Terminal::NameColon
    }
}

/// The terminal of a name that is not before `:`.
fn name_terminal(source: &[u8], text: &[u8], later: &[Token]) -> Terminal
    ensures { result ≡ name_terminal source.now text.now later.now }
{
    if text == "of".as_bytes() {
        Terminal::Of
    } else if text == "target".as_bytes() {
        Terminal::Target
    } else if text == "get".as_bytes() && is_before_key(later) {
        Terminal::Get
    } else if text == "set".as_bytes() && is_before_key(later) {
        Terminal::Set
    } else if text == "async".as_bytes() && is_before_of(source, later) {
        Terminal::AsyncOf
    } else {
        Terminal::Name
    }
}

/// The terminal of a keyword, whatever stands behind it.
fn word_terminal(keyword: Keyword) -> Terminal
    ensures { result ≡ word_terminal keyword }
{
    match keyword {
        Keyword::Break => Terminal::BreakOrContinue,
        Keyword::Case => Terminal::Case,
        Keyword::Catch => Terminal::Catch,
        Keyword::Class => Terminal::Class,
        Keyword::Const => Terminal::LetOrConst,
        Keyword::Continue => Terminal::BreakOrContinue,
        Keyword::Debugger => Terminal::Debugger,
        Keyword::Default => Terminal::Default,
        Keyword::Delete => Terminal::UnaryWord,
        Keyword::Do => Terminal::Do,
        Keyword::Else => Terminal::Else,
        Keyword::Enum => Terminal::Reserved,
        Keyword::Export => Terminal::Export,
        Keyword::Extends => Terminal::Extends,
        Keyword::False => Terminal::NullOrBoolean,
        Keyword::Finally => Terminal::Finally,
        Keyword::For => Terminal::For,
        Keyword::Function => Terminal::Function,
        Keyword::If => Terminal::If,
        Keyword::Import => Terminal::Import,
        Keyword::In => Terminal::In,
        Keyword::Instanceof => Terminal::Instanceof,
        Keyword::New => Terminal::New,
        Keyword::Null => Terminal::NullOrBoolean,
        Keyword::Return => Terminal::Return,
        Keyword::Super => Terminal::Super,
        Keyword::Switch => Terminal::Switch,
        Keyword::This => Terminal::This,
        Keyword::Throw => Terminal::Throw,
        Keyword::True => Terminal::NullOrBoolean,
        Keyword::Try => Terminal::Try,
        Keyword::Typeof => Terminal::UnaryWord,
        Keyword::Var => Terminal::Var,
        Keyword::Void => Terminal::UnaryWord,
        Keyword::While => Terminal::While,
        Keyword::With => Terminal::With,
        Keyword::Yield => Terminal::Reserved,
        Keyword::Let => Terminal::LetOrConst,
        Keyword::Static => Terminal::Static,
        Keyword::Implements => Terminal::Reserved,
        Keyword::Interface => Terminal::Reserved,
        Keyword::Package => Terminal::Reserved,
        Keyword::Private => Terminal::Reserved,
        Keyword::Protected => Terminal::Reserved,
        Keyword::Public => Terminal::Reserved,
    }
}

/// The terminal of a keyword before these tokens.
fn keyword_terminal(keyword: Keyword, later: &[Token]) -> Terminal
    ensures { result ≡ keyword_terminal keyword later.now }
{
    match keyword {
        Keyword::New => {
            if is_before_dot(later) {
                Terminal::NewDot
            } else {
                Terminal::New
            }
        }
        Keyword::Static => {
            if is_before_key(later) {
                Terminal::StaticKey
            } else {
                Terminal::Static
            }
        }
        _ => word_terminal(keyword),
    }
}

/// The terminal of a punctuator, whatever stands beside it.
fn mark_terminal(mark: Punctuator) -> Terminal
    ensures { result ≡ mark_terminal mark }
{
    match mark {
        Punctuator::LeftBrace => Terminal::LeftBrace,
        Punctuator::RightBrace => Terminal::RightBrace,
        Punctuator::LeftParenthesis => Terminal::LeftParenthesis,
        Punctuator::RightParenthesis => Terminal::RightParenthesis,
        Punctuator::LeftBracket => Terminal::LeftBracket,
        Punctuator::RightBracket => Terminal::RightBracket,
        Punctuator::Dot => Terminal::Dot,
        Punctuator::Ellipsis => Terminal::Ellipsis,
        Punctuator::Semicolon => Terminal::Semicolon,
        Punctuator::Comma => Terminal::Comma,
        Punctuator::Less => Terminal::RelationalOperator,
        Punctuator::Greater => Terminal::RelationalOperator,
        Punctuator::LessOrEqual => Terminal::RelationalOperator,
        Punctuator::GreaterOrEqual => Terminal::RelationalOperator,
        Punctuator::Equal => Terminal::EqualityOperator,
        Punctuator::NotEqual => Terminal::EqualityOperator,
        Punctuator::StrictEqual => Terminal::EqualityOperator,
        Punctuator::StrictNotEqual => Terminal::EqualityOperator,
        Punctuator::Plus => Terminal::PlusOrMinus,
        Punctuator::Minus => Terminal::PlusOrMinus,
        Punctuator::Star => Terminal::Star,
        Punctuator::Slash => Terminal::Slash,
        Punctuator::Percent => Terminal::Percent,
        Punctuator::StarStar => Terminal::StarStar,
        Punctuator::Increment => Terminal::UpdateOperator,
        Punctuator::Decrement => Terminal::UpdateOperator,
        Punctuator::ShiftLeft => Terminal::ShiftOperator,
        Punctuator::ShiftRight => Terminal::ShiftOperator,
        Punctuator::UnsignedShiftRight => Terminal::ShiftOperator,
        Punctuator::Ampersand => Terminal::Ampersand,
        Punctuator::Bar => Terminal::Bar,
        Punctuator::Caret => Terminal::Caret,
        Punctuator::Exclamation => Terminal::UnaryMark,
        Punctuator::Tilde => Terminal::UnaryMark,
        Punctuator::LogicalAnd => Terminal::LogicalAnd,
        Punctuator::LogicalOr => Terminal::LogicalOr,
        Punctuator::Coalesce => Terminal::Coalesce,
        Punctuator::Question => Terminal::Question,
        Punctuator::OptionalChain => Terminal::OptionalChain,
        Punctuator::Colon => Terminal::Colon,
        Punctuator::Assign => Terminal::Equals,
        Punctuator::AddAssign => Terminal::AssignmentOperator,
        Punctuator::SubtractAssign => Terminal::AssignmentOperator,
        Punctuator::MultiplyAssign => Terminal::AssignmentOperator,
        Punctuator::DivideAssign => Terminal::SlashEquals,
        Punctuator::RemainderAssign => Terminal::AssignmentOperator,
        Punctuator::ExponentiateAssign => Terminal::AssignmentOperator,
        Punctuator::ShiftLeftAssign => Terminal::AssignmentOperator,
        Punctuator::ShiftRightAssign => Terminal::AssignmentOperator,
        Punctuator::UnsignedShiftRightAssign => Terminal::AssignmentOperator,
        Punctuator::BitAndAssign => Terminal::AssignmentOperator,
        Punctuator::BitOrAssign => Terminal::AssignmentOperator,
        Punctuator::BitXorAssign => Terminal::AssignmentOperator,
        Punctuator::LogicalAndAssign => Terminal::AssignmentOperator,
        Punctuator::LogicalOrAssign => Terminal::AssignmentOperator,
        Punctuator::CoalesceAssign => Terminal::AssignmentOperator,
        Punctuator::Arrow => Terminal::Arrow,
    }
}

/// The terminal of a punctuator before these tokens.
fn punctuator_terminal(mark: Punctuator, after_line: bool, later: &[Token]) -> Terminal
    ensures { result ≡ punctuator_terminal mark after_line later.now }
{
    match mark {
        Punctuator::Comma => {
            if is_before_ellipsis(later) {
                Terminal::CommaRest
            } else {
                Terminal::Comma
            }
        }
        Punctuator::Arrow => {
            if after_line {
                Terminal::ArrowAfterLine
            } else {
                Terminal::Arrow
            }
        }
        Punctuator::Increment | Punctuator::Decrement => {
            if after_line {
                Terminal::UpdateOperatorAfterLine
            } else {
                Terminal::UpdateOperator
            }
        }
        _ => mark_terminal(mark),
    }
}

/// Whether a string literal has the value `__proto__`.
fn is_proto(text: &[u8]) -> bool
    ensures { result ≡ is_proto text.now }
{
    text == "'__proto__'".as_bytes() || text == "\"__proto__\"".as_bytes()
}

/// The terminal of a string literal before these tokens.
fn string_terminal(text: &[u8], later: &[Token]) -> Terminal
    ensures { result ≡ string_terminal text.now later.now }
{
    if is_before_colon(later) && is_proto(text) {
        Terminal::ProtoString
    } else {
        Terminal::String
    }
}

/// The terminal of a template, or of a part of one.
fn template_terminal(part: TemplatePart) -> Terminal
    ensures { result ≡ template_terminal part }
{
    match part {
        TemplatePart::Whole => Terminal::Template,
        TemplatePart::Head => Terminal::TemplateHead,
        TemplatePart::Middle => Terminal::TemplateMiddle,
        TemplatePart::Tail => Terminal::TemplateTail,
    }
}

/// The terminal of a name before these tokens.
fn word_or_label(source: &[u8], text: &[u8], later: &[Token]) -> Terminal
    ensures { result ≡ word_or_label source.now text.now later.now }
{
    if is_before_colon(later) {
        label_terminal(text)
    } else {
        name_terminal(source, text, later)
    }
}

/// The terminal of a token that stands before these (ECMA-262, Grammar Summary).
#[tactic(auto, unfolding(crate::specs::Terminals::terminal_of))]
pub fn terminal_of(source: &[u8], token: &Token, later: &[Token]) -> Terminal
    ensures { result ≡ terminal_of source.now token.now later.now }
{
    match token.kind {
        TokenKind::Name => word_or_label(source, text_of(source, token), later),
        TokenKind::Keyword(keyword) => keyword_terminal(keyword, later),
        TokenKind::Punctuator(mark) => punctuator_terminal(mark, token.after_line, later),
        TokenKind::Number => Terminal::Number,
        TokenKind::String => string_terminal(text_of(source, token), later),
        TokenKind::Template(part) => template_terminal(part),
    }
}

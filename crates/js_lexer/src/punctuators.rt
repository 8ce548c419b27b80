// Punctuators.

ghost use Rattle.std.specs.Prelude.{◌≡◌, IfSome, IfNone};
ghost use Rattle.js_lexer.specs.Characters.{first_of};
ghost use Rattle.js_lexer.specs.Punctuators.{IsPunctuator, IsReading, NoPunctuator, follows, single, with_equals, twice, extended, grown, dots, question, started, punctuator_of};
ghost use Rattle.js_lexer.specs.declared.punctuators.Punctuator.{Punctuator};

use crate::characters::is_digit;
use crate::cursor::Cursor;

/// A punctuator (ECMA-262, Punctuator, DivPunctuator and RightBracePunctuator).
#[derive(Clone, Copy, Debug, PartialEq, Eq)]
pub enum Punctuator {
    /// `{`
    LeftBrace,
    /// `}`
    RightBrace,
    /// `(`
    LeftParenthesis,
    /// `)`
    RightParenthesis,
    /// `[`
    LeftBracket,
    /// `]`
    RightBracket,
    /// `.`
    Dot,
    /// `...`
    Ellipsis,
    /// `;`
    Semicolon,
    /// `,`
    Comma,
    /// `<`
    Less,
    /// `>`
    Greater,
    /// `<=`
    LessOrEqual,
    /// `>=`
    GreaterOrEqual,
    /// `==`
    Equal,
    /// `!=`
    NotEqual,
    /// `===`
    StrictEqual,
    /// `!==`
    StrictNotEqual,
    /// `+`
    Plus,
    /// `-`
    Minus,
    /// `*`
    Star,
    /// `/`
    Slash,
    /// `%`
    Percent,
    /// `**`
    StarStar,
    /// `++`
    Increment,
    /// `--`
    Decrement,
    /// `<<`
    ShiftLeft,
    /// `>>`
    ShiftRight,
    /// `>>>`
    UnsignedShiftRight,
    /// `&`
    Ampersand,
    /// `|`
    Bar,
    /// `^`
    Caret,
    /// `!`
    Exclamation,
    /// `~`
    Tilde,
    /// `&&`
    LogicalAnd,
    /// `||`
    LogicalOr,
    /// `??`
    Coalesce,
    /// `?`
    Question,
    /// `?.`
    OptionalChain,
    /// `:`
    Colon,
    /// `=`
    Assign,
    /// `+=`
    AddAssign,
    /// `-=`
    SubtractAssign,
    /// `*=`
    MultiplyAssign,
    /// `/=`
    DivideAssign,
    /// `%=`
    RemainderAssign,
    /// `**=`
    ExponentiateAssign,
    /// `<<=`
    ShiftLeftAssign,
    /// `>>=`
    ShiftRightAssign,
    /// `>>>=`
    UnsignedShiftRightAssign,
    /// `&=`
    BitAndAssign,
    /// `|=`
    BitOrAssign,
    /// `^=`
    BitXorAssign,
    /// `&&=`
    LogicalAndAssign,
    /// `||=`
    LogicalOrAssign,
    /// `??=`
    CoalesceAssign,
    /// `=>`
    Arrow,
}

/// The punctuator of one character.
fn single(c: char) -> Option<Punctuator>
    ensures { result ≡ single c }
{
    match c {
        '{' => Some(Punctuator::LeftBrace),
        '}' => Some(Punctuator::RightBrace),
        '(' => Some(Punctuator::LeftParenthesis),
        ')' => Some(Punctuator::RightParenthesis),
        '[' => Some(Punctuator::LeftBracket),
        ']' => Some(Punctuator::RightBracket),
        '.' => Some(Punctuator::Dot),
        ';' => Some(Punctuator::Semicolon),
        ',' => Some(Punctuator::Comma),
        '<' => Some(Punctuator::Less),
        '>' => Some(Punctuator::Greater),
        '+' => Some(Punctuator::Plus),
        '-' => Some(Punctuator::Minus),
        '*' => Some(Punctuator::Star),
        '/' => Some(Punctuator::Slash),
        '%' => Some(Punctuator::Percent),
        '&' => Some(Punctuator::Ampersand),
        '|' => Some(Punctuator::Bar),
        '^' => Some(Punctuator::Caret),
        '!' => Some(Punctuator::Exclamation),
        '~' => Some(Punctuator::Tilde),
        '?' => Some(Punctuator::Question),
        ':' => Some(Punctuator::Colon),
        '=' => Some(Punctuator::Assign),
        _ => None,
    }
}

/// The punctuator with `=` behind it, where that is one.
fn with_equals(punctuator: Punctuator) -> Option<Punctuator>
    ensures { result ≡ with_equals punctuator }
{
    match punctuator {
        Punctuator::Less => Some(Punctuator::LessOrEqual),
        Punctuator::Greater => Some(Punctuator::GreaterOrEqual),
        Punctuator::Equal => Some(Punctuator::StrictEqual),
        Punctuator::NotEqual => Some(Punctuator::StrictNotEqual),
        Punctuator::Plus => Some(Punctuator::AddAssign),
        Punctuator::Minus => Some(Punctuator::SubtractAssign),
        Punctuator::Star => Some(Punctuator::MultiplyAssign),
        Punctuator::Slash => Some(Punctuator::DivideAssign),
        Punctuator::Percent => Some(Punctuator::RemainderAssign),
        Punctuator::StarStar => Some(Punctuator::ExponentiateAssign),
        Punctuator::ShiftLeft => Some(Punctuator::ShiftLeftAssign),
        Punctuator::ShiftRight => Some(Punctuator::ShiftRightAssign),
        Punctuator::UnsignedShiftRight => Some(Punctuator::UnsignedShiftRightAssign),
        Punctuator::Ampersand => Some(Punctuator::BitAndAssign),
        Punctuator::Bar => Some(Punctuator::BitOrAssign),
        Punctuator::Caret => Some(Punctuator::BitXorAssign),
        Punctuator::Exclamation => Some(Punctuator::NotEqual),
        Punctuator::LogicalAnd => Some(Punctuator::LogicalAndAssign),
        Punctuator::LogicalOr => Some(Punctuator::LogicalOrAssign),
        Punctuator::Coalesce => Some(Punctuator::CoalesceAssign),
        Punctuator::Assign => Some(Punctuator::Equal),
        _ => None,
    }
}

/// The character other than `=` that makes another punctuator of this one, and that punctuator.
fn twice(punctuator: Punctuator) -> Option<(char, Punctuator)>
    ensures { result ≡ twice punctuator }
{
    match punctuator {
        Punctuator::Less => Some(('<', Punctuator::ShiftLeft)),
        Punctuator::Greater => Some(('>', Punctuator::ShiftRight)),
        Punctuator::Plus => Some(('+', Punctuator::Increment)),
        Punctuator::Minus => Some(('-', Punctuator::Decrement)),
        Punctuator::Star => Some(('*', Punctuator::StarStar)),
        Punctuator::ShiftRight => Some(('>', Punctuator::UnsignedShiftRight)),
        Punctuator::Ampersand => Some(('&', Punctuator::LogicalAnd)),
        Punctuator::Bar => Some(('|', Punctuator::LogicalOr)),
        Punctuator::Question => Some(('?', Punctuator::Coalesce)),
        Punctuator::Assign => Some(('>', Punctuator::Arrow)),
        _ => None,
    }
}

/// The punctuator with one character more, where that is one.
fn extended(punctuator: Punctuator, c: char) -> Option<Punctuator>
    ensures { result ≡ extended punctuator c }
{
    if c == '=' {
        return with_equals(punctuator);
    }
    match twice(punctuator) {
        Some((next, longer)) if c == next => Some(longer),
        _ => None,
    }
}

/// Whether the character that comes next, if any, may follow the punctuator.
fn may_follow(punctuator: Punctuator, cursor: &Cursor) -> bool
    ensures { result ≡ follows punctuator cursor.now }
{
    match punctuator {
        Punctuator::Dot | Punctuator::OptionalChain => !cursor.peek().is_some_and(is_digit),
        Punctuator::Slash => !matches!(cursor.peek(), Some('/' | '*')),
        _ => true,
    }
}

/// Behind a punctuator: takes what makes it longer, a character at a time.
fn grown(cursor: &mut Cursor, shortest: Punctuator) -> Punctuator
    ensures { (result, cursor.new) ≡ grown shortest cursor.old }
{
    let mut found = shortest;
    while let Some(c) = cursor.peek() {
        let Some(longer) = extended(found, c) else {
            return found;
        };
        cursor.bump();
        found = longer;
    }
    found
}

/// Behind a `.`: takes two more, where both stand there (`...`), or nothing.
fn dots(cursor: &mut Cursor) -> Punctuator
    ensures { (result, cursor.new) ≡ dots cursor.old }
{
    let mut ahead = cursor.copy();
    if ahead.bump() == Some('.') && ahead.bump() == Some('.') {
        *cursor = ahead;
        return Punctuator::Ellipsis;
    }
    Punctuator::Dot
}

/// Behind a `?`: takes a `.` that no digit follows (`?.`), or else what makes `?` longer.
fn question(cursor: &mut Cursor) -> Punctuator
    ensures { (result, cursor.new) ≡ question cursor.old }
{
    let mut ahead = cursor.copy();
    if ahead.bump() == Some('.') && may_follow(Punctuator::OptionalChain, &ahead) {
        *cursor = ahead;
        return Punctuator::OptionalChain;
    }
    grown(cursor, Punctuator::Question)
}

/// Behind a punctuator of one character: takes what makes it longer.
fn started(cursor: &mut Cursor, first: Punctuator) -> Punctuator
    ensures { (result, cursor.new) ≡ started first cursor.old }
{
    match first {
        Punctuator::Dot => dots(cursor),
        Punctuator::Question => question(cursor),
        _ => grown(cursor, first),
    }
}

/// Takes the longest punctuator that stands at the cursor, or nothing where none stands there.
#[tactic(auto, using(crate::proofs::Punctuator_laws::none_read))]
pub fn read_punctuator(cursor: &mut Cursor) -> Option<Punctuator>
    ensures gives { IsReading (punctuator_of cursor.old) result cursor.new }
    ensures longest { IfSome result (λ p. IsPunctuator p cursor.old cursor.new) }
    ensures none { IfNone result (NoPunctuator cursor.old) }
    ensures unmoved { IfNone result (cursor.new ≡ cursor.old) }
{
    let mut ahead = cursor.copy();
    let first = single(ahead.bump()?)?;
    if !may_follow(first, &ahead) {
        return None;
    }
    let found = started(&mut ahead, first);
    *cursor = ahead;
    Some(found)
}

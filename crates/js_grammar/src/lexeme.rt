// Tokens as the grammar sees them.
use crate::symbols::Terminal;

/// A token: its terminal, whether a line terminator stands before it, and its place in the list of tokens.
#[derive(Clone, Copy, Drop)]
pub struct Lexeme {
    pub terminal: Terminal,
    pub after_line: bool,
    pub at: u32,
}

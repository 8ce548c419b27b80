// What stands, in the order of the text, each production behind its parts.
use crate::lexeme::Lexeme;
use crate::symbols::Production;

#[derive(Clone, Copy, Drop)]
pub enum Event {
    Leaf(Lexeme),
    Absent,
    /// A production, and how many parts it has; `MAX_PARTS` stands for as many and more.
    Node(Production, u32),
}

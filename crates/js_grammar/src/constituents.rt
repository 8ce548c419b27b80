// What the rows of the table are made of.
use crate::symbols::{Nonterminal, Production, Terminal};

/// Terminals: one, those from one to another, or those of two such runs.
#[derive(Clone, Copy, Drop)]
pub enum Terminals {
    Is(Terminal),
    Between(Terminal, Terminal),
    Either(Terminal, Terminal, Terminal, Terminal),
}

/// How often an optional constituent stands.
#[derive(Clone, Copy, Drop)]
pub enum Repetition {
    /// At most once.
    Once,
    /// Any number of times.
    Many,
    /// Any number of times, between tokens of these terminals, and one of them may stand behind the last.
    Listed(Terminals),
}

/// A constituent of a production: what may stand at one place of its right-hand side.
#[derive(Clone, Copy, Drop)]
pub enum Constituent {
    /// A token.
    Token(Terminals),
    /// A part.
    Part(Nonterminal),
    /// A part that may be left out, or stand several times.
    Optional(Nonterminal, Repetition),
    /// Behind an element of a list: the token that parts it from the next, or the end of the list.
    Further(Nonterminal, Terminals),
}

/// Productions: those from one to another, or those of two such runs.
#[derive(Clone, Copy, Drop)]
pub enum Productions {
    Run(Production, Production),
    Runs(Production, Production, Production, Production),
}

/// What the first token of a part may be (ECMA-262, Lookahead Restrictions).
#[derive(Clone, Copy, Drop)]
pub enum Lookahead {
    /// Anything.
    Any,
    /// No `{`.
    NotBrace,
    /// Nothing by which a declaration, a block or a labelled statement begins.
    NotDeclaration,
    /// No token behind a line terminator.
    SameLine,
}

/// A nonterminal of the table.
#[derive(Clone, Copy, Drop)]
pub struct NonterminalRow {
    pub nonterminal: Nonterminal,
    /// Its productions.
    pub has: Productions,
    /// The productions that a partial tree of it may have: those that may yet become the first part of one of its own, too.
    pub may: Productions,
    pub lookahead: Lookahead,
    /// The one of these productions that begins by a part, and goes on with it by no token, if there is one.
    pub through: Option<Production>,
}

// Why a source is refused: what the lexer, the parser and the early rules answer, and where.
#![tactic(auto)]

pub mod fault;

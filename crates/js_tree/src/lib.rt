// Syntax trees: a variant for each form of the language, with the place of its first token.
//
// - `tree` has sources, statements, expressions and patterns, `operator` the operators.
#![tactic(auto)]

pub mod operator;
pub mod tree;

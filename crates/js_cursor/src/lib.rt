//! Expressions one after the other, from the tokens of a source.
//!
//! - `cursor` has `Cursor`: the tokens that are left, and the refusal that is repeated.
//! - `expression` reads the expression that the tokens begin with.
//! - `laws` says that there is one.
//!
//! It stands above js_parser, since a function's body is a list of statements and the reading of an expression makes whole trees.
#![tactic(auto)]

pub mod cursor;
pub mod expression;
pub mod laws;

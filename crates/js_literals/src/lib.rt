//! What the tokens of a source are worth: the texts of string literals, of the parts of templates and of names, and the numbers of numeric literals.
//!
//! - `strings` has the texts of string literals and of the parts of templates, and tells without memory whether a string literal has a text.
//! - `names` has the texts of names.
//! - `pieces` takes one character, escape or line continuation at a time; `escapes` has what stands behind a backslash.
//! - `plain` has the short way of what is ASCII without an escape.
//! - `characters` is what is left of a literal.
//!
//! Definitions are in specs/: `Escapes`, `StringValues`, `NumericValues`.
#![tactic(auto)]

mod characters;
mod escapes;
pub mod laws;
pub mod names;
pub mod numbers;
mod pieces;
mod plain;
pub mod strings;
mod units;

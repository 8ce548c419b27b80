//! Programs: sources that have a syntax tree and no early error.
//!
//! - `program` reads a source: `read_program` and `read_evaluated`.
//! - `laws`: a source has one syntax tree at most.
//!
//! Definitions are in specs/: `Programs` says what a program is, and what is wrong with what is none.
#![tactic(auto)]

pub mod laws;
pub mod program;

pub use js_parser;

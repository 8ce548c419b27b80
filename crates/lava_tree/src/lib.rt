//! `lava tree FILE`: the lines of the core term that a module is lowered to.
//!
//! - `tree` is the command: it reads the file, and appends the lines or says why there are none.
//! - `tree_source` reads, lowers and prints a module.
//! - `tree_outcome` has how the command ends, with status and line.
//!
//! Definitions are in specs/: `TreeAnswers` has the cause of each answer.
#![tactic(auto)]

pub mod tree;
pub mod tree_outcome;
pub mod tree_source;

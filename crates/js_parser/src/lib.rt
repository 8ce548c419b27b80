//! From the events of a source's tree to its syntax tree.
//!
//! - `forms` with `expression_forms` has the form of each production of the grammar.
//! - `maker` goes over the events of a tree, and makes of each production what its form makes of its parts; `modules` has what the whole is.
//! - `parse` reads a source to its syntax tree: `parse_module` and `parse_text`.
//!
//! Definitions are in specs/, under the same names; `Trees` says what the tree of a source becomes.
#![tactic(auto)]

pub mod expression_forms;
pub mod forms;
pub mod maker;
pub mod modules;
pub mod parse;

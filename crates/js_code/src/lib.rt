// The core terms of a run as tables of small rows.
//
// - `node` has the rows.
// - `code` has the tables and what is read of them, `grow` how they grow, and `leaves` literals and labels.
// - `compile` is the way from a term to its rows: `operands`, `functions` and `branching` append what a row names.
#![tactic(auto)]

mod branching;
pub mod code;
pub mod compile;
mod functions;
mod grow;
mod leaves;
pub mod node;
mod operands;

// The terms of expressions.
//
// - `assignments` has assignments, `updates` `++` and `--`, `expressions` operators and the row of each form.
#![tactic(auto)]

pub mod assignments;
mod below;
pub mod expressions;
pub mod updates;

pub use js_lower_calls;

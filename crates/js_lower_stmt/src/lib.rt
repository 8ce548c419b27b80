// The terms of statements.
//
// - `frames` has the scopes that statements open, `blocks` declarations and blocks, `loops` loops, `clauses` `switch` and `try`.
// - `statements` has labels, jumps and the row of each form.
// - `below` asks for the terms of what lies below.
#![tactic(auto)]

mod below;
pub mod blocks;
pub mod clauses;
pub mod frames;
pub mod loops;
pub mod statements;

pub use js_lower_patterns;
pub use js_lower_patterns::{js_lower_calls, js_lower_expr};

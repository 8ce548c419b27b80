// The terms of patterns.
//
// - `bound` has where the values come from that patterns bind, `patterns` the row of each form.
// - `below` asks for the terms of what lies below.
#![tactic(auto)]

mod below;
pub mod bound;
pub mod patterns;

pub use js_lower_expr;
pub use js_lower_expr::js_lower_calls;

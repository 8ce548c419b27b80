// The terms of calls, literals, functions and classes.
//
// - `parts` has arguments, arrays, objects and template literals, `functions` functions and classes.
// - `calls` has members and calls, `chains` those with `?.`.
#![tactic(auto)]

mod below;
pub mod calls;
pub mod chains;
pub mod functions;
pub mod parts;

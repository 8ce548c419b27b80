//! The makers of statements, bindings, functions and classes: what each production makes of what its parts have become.
//!
//! A form takes the parts, the first one first, and gives the phrase that its parent takes.
//!
//! - `statements` has those that are no more than their statements or expression; `branches`, `loops` with `for_heads`, `jumps`, `switches`, `tries` and
//!   `labels` have the others.
//! - `declarations` has `var`, `let` and `const`, `bindings` what these and parameters bind.
//! - `functions`, `methods` and `classes` have what their names say.
//!
//! Definitions are in specs/, under the same names: each form is the function there.
#![tactic(auto)]

pub mod bindings;
pub mod branches;
pub mod classes;
pub mod declarations;
pub mod for_heads;
pub mod functions;
pub mod jumps;
pub mod labels;
pub mod loops;
pub mod methods;
pub mod statements;
pub mod switches;
pub mod tries;

pub use js_expr;

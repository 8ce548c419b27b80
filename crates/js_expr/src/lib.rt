//! The makers of expressions: what each production of an expression makes of what its parts have become.
//!
//! A form takes the parts, the first one first, and gives the phrase that its parent takes.
//!
//! - `names`, `numbers` and `literals` have what a single token is, `templates` and `arrays` the literals of several.
//! - `objects` has object literals, `property_names` what properties are called.
//! - `members` has members, calls and the chains of them with `?.`; `news` what begins with `new` or `super`.
//! - `operators` tells the operators by their tokens; `operations` and `assignments` have what they make of operands.
//! - `covers` has what stands between parentheses, `arrows` the functions with it as parameters, `commas` the expressions with commas.
//!
//! Definitions are in specs/, under the same names: each form is the function there.
#![tactic(auto)]

pub mod arrays;
pub mod arrows;
pub mod assignments;
pub mod commas;
pub mod covers;
pub mod expressions;
pub mod literals;
pub mod members;
pub mod names;
pub mod news;
pub mod numbers;
pub mod objects;
pub mod operations;
pub mod operators;
pub mod property_names;
pub mod templates;

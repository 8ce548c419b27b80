//! The prelude: the text of the functions of the common part, and the intrinsics that such a text makes.
//!
//! - `text` is the text, which the product has once.
//! - `paths` has the paths of its functions, by their names.
//! - `operations` is what the names of the machine stand for, `functions` what a text declares.
//! - `templates` lowers each function and gives it to its common object.
//! - `validity` tests the templates.
//! - `prelude` reads a text: `read_intrinsics` any, `read_prelude` the product's.
//! - `laws`: a text makes one list of intrinsics at most, in which each common object has its body.
//!
//! Definitions are in specs/: `Paths` has the paths, `Functions` what a text declares and makes, `Preludes` what bytes are read as.
#![tactic(auto)]

mod functions;
pub mod laws;
pub mod operations;
pub mod paths;
pub mod prelude;
mod templates;
pub mod text;
mod validity;

pub use js_lower;
pub use js_program;
pub use js_program::js_parser;

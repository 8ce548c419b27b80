//! Laws of programs: that their trees are sound, and their terms valid.
//!
//! - `laws` has them, over js_program's programs, js_lower_laws' sound trees and js_valid's valid templates.
//!
//! Definitions are in specs/: `Formed` says what the forms of the grammar give each tree.
#![tactic(auto)]

pub mod laws;

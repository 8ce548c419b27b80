//! The term of a source whose names are resolved.
//!
//! - `lowering` has `lower`: over js_scope's `Resolved`, exactly the term that the table of lowering gives for its source.
#![tactic(auto)]

pub mod lowering;

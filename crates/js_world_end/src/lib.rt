//! Lets the machine of all parties go.
//!
//! How a `World` is let go is proved anew in each function that does so in place, which takes minutes; here it is proved once, beside the crates
//! that lead one to its end.
#![tactic(auto)]

use js_world::world::FlatWorld;

/// Lets the machine of all parties go.
pub fn discard(world: FlatWorld) {}

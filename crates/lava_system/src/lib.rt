//! The objects of the outside over the system: its files, streams and clock. They tell nothing.
//!
//! - `real_folder`, `real_source`, `real_sink` and `real_clock` are the system's, and `faults` counts their faults.
//!
//! Definitions are in specs/: `Adapters`.
#![tactic(auto)]

mod faults;
pub mod real_clock;
pub mod real_folder;
pub mod real_sink;
pub mod real_source;

//! An application of a folder, with its policy.
//!
//! - `loading` reads its packages and its policy, and loads the modules that are reached; or passes the policy over.
//! - `policies` reads the two policy files of a directory, and merges them.
//! - `laws`: what a folder holds is loaded in one way, or refused for one cause.
//!
//! Definitions are in specs/: `Policies`, `Loads` and `Laws`.
#![tactic(auto)]

pub mod laws;
pub mod loading;
pub mod policies;

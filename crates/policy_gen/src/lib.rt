//! The policy that the sources of an application show, and what a policy denies them (LavaMoat's generation of policies).
//!
//! - `path_key` makes the key of a free path, `used_keys` the keys of all modules of each package, `kept_keys` those of which no proper prefix is used.
//! - `grades` keeps names with their greatest grades while they are put together.
//! - `imports` says what the literal requests of each package import.
//! - `generate` makes the policy, `denied` lists the requests that a policy denies, each a `denial`.
//! - `laws` says in the subject's words what follows: the policy is exact, covers each use, and grants no more than that.
//!
//! Definitions are in specs/: `Uses`, `Kept`, `Imports`, `Generated`, `Denials`, and `Laws`.
#![tactic(auto)]

pub mod denial;
pub mod denied;
pub mod generate;
mod grades;
pub mod imports;
mod kept_keys;
pub mod laws;
mod path_key;
mod used_keys;

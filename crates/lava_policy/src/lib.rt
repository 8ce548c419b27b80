//! `lava policy DIR` and `lava check DIR`: what the sources of an application ask for, as a policy, and what its policy denies of it.
//!
//! - `policy` prints the policy that is generated from the sources; the policy files are passed over.
//! - `check` prints a line for each literal request that the policy of the two files denies.
//! - `policy_outcome` has how the two end, and tells it.
//!
//! Definitions are in specs/: `PolicyOutcomes` has what is told of each outcome, `PolicyAnswers` and `CheckAnswers` the cause of each answer, that each cause has its
//! answer, and that a command without a cause of a refusal is finished.
#![tactic(auto)]

pub mod check;
pub mod policy;
pub mod policy_outcome;

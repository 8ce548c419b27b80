//! The program `lava`: what a command does, and its answer.
//!
//! - `command` is the call that the program makes: `lava`.
//! - `run_command` loads an application (lava_loading) and runs it. What words ask for stands in lava_words, what is told of a run in lava_report.
//! - `big_command` runs an application of many packages that stands in memory (lava_big). The reports are lava_tree's and lava_policy's.
//!
//! Definitions are in specs/: `Answers`, with `RunAnswers` and `BigAnswers`, has the cause of each answer, `Causes` that each cause has its answer, `Finishes` that a
//! command without a cause of a refusal comes to its end, `Isolates` that isolation holds of each run.
#![tactic(auto)]

pub mod big_command;
pub mod command;
pub mod run_command;

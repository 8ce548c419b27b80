//! Leads the machine of all parties to its end, over the outside.
//!
//! - `answers` asks the host what a call of one of its functions does.
//! - `run` leads the machine from its first import to the end.
//! - `trace` has the text of a trace as it is written, and `trace_run` a run that is traced.
//!
//! Definitions are in specs/: `Talks` has what the outside is asked and answers, `Ran` how far a run has come, `Traces` the text of a trace.
#![tactic(auto)]

pub mod answers;
pub mod run;
pub mod trace;
pub mod trace_run;

pub use js_world;
pub use js_world::{js_crossing, js_run_laws};

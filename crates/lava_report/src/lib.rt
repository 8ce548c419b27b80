// How a run of a folder ends, and what is told of that.
//
// - `report` has how a run ended, `outcome` how the run of a folder ends, and `ended` the name of the party in which one ended.
// - `run_report` has what is told, and the exit status.
//
// Definitions are in specs/: `Tells` has what is told of each outcome.
#![tactic(auto)]

pub mod ended;
pub mod outcome;
pub mod report;
pub mod run_report;

pub use lava_loading;

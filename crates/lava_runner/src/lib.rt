//! Runs of applications on the machine of all parties, over the outside.
//!
//! - `app` runs an application, and reports how that ended: `run_app`.
//! - `endings` has the exit status of an ending.
//! - `laws`: a run has one ending, and each run is isolated; two runs that have a package of the same things.
//!
//! lava_packages has the packages and the machine before they run, lava_driver leads it to its end. Definitions are in specs/: `Reports` has what the run of an
//! application is, `Called` that what is asked is what the journal says, `Isolated` what isolation says of it.
#![tactic(auto)]

pub mod app;
pub mod endings;
pub mod laws;

pub use lava_packages;
pub use lava_report;
pub use lava_report::lava_loading;

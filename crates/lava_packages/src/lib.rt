//! The packages of an application as the machine of all parties runs them, over the common part.
//!
//! - `common` has the common part, `modules` the modules as the machine runs them, `packages` the packages with what a policy grants them.
//! - `first` has the machine of all parties before they run, and `names` the names of the parties.
//! - `uncaught` has what a run throws that nothing catches, and `laws` what holds of the common part.
//!
//! Definitions are in specs/: `Commons`, `Modules`, `Packages` and `Uncaught` have what belongs to the files of these names.
#![tactic(auto)]

pub mod common;
pub mod first;
pub mod laws;
pub mod modules;
pub mod names;
pub mod packages;
pub mod uncaught;

pub use lava_start;
pub use pkg_source;

// What crossings show: what others may know once something is sent, and what a trace says of the newest one.
//
// - `shows` has what others may know once something is sent.
// - `newest` has the newest crossing with the marks of its `references`.
// - `leads` has where links lead, and `ending` how a run ends.
#![tactic(auto)]

pub mod ending;
pub mod leads;
pub mod newest;
mod references;
pub mod shows;

pub use js_machine;
pub use js_machine::js_run;

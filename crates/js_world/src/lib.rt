// The machine of all parties: one stack of bodies that wait, and control that passes at once.
//
// - `waiting` has a body that waits.
// - `world` has the machine, and whose things stand in it.
// - `tracing` keeps the newest crossing.
// - `crossing` leads from one crossing to the next, `imports` has those over links, and `run`
//   leads to the end.
// - `begin` has the first import of a run, and `outside` goes on with an answer of the outside.
//
// What crossings show, where links lead and how a run ends stand in js_crossing.
#![tactic(auto)]

pub mod begin;
pub mod crossing;
pub mod imports;
pub mod outside;
pub mod run;
pub mod tracing;
pub mod waiting;
pub mod world;

pub use js_crossing;
pub use js_crossing::{js_machine, js_run};
pub use js_machine_run::{js_machine_modules, js_run_laws};

// What a proxy decides when it is asked: the trap that its handler has for the method is called, and what it gives is held against the target (ECMA-262, "Proxy Object Internal Methods and Internal Slots").
//
// - `decide` has the decisions, and how one that waits goes on.
// - `traps` finds and calls the trap of an ask, and asks the target where there is none.
// - `laws` states what holds of a revoked proxy; js_traps has what has to hold of what a trap gives.
//
// Definitions are in specs/: `Decided` is the table, `Traps` how a trap is found and called.
#![tactic(auto)]

pub mod decide;
pub mod laws;
mod traps;

pub use js_traps;

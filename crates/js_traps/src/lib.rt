// What has to hold of what the traps of a proxy's handler give, and what is asked of the target for that (ECMA-262, "Proxy Object Internal Methods and Internal Slots").
//
// - `next` is what a decision of a proxy waits for; `resume` is how one goes on once the trap is called.
// - `prototype_traps`, `extensible_traps`, `property_traps`, `denying_traps`, `value_traps` and `keys_trap` have the steps that stand behind the
//   call of a trap; `come` is what came in answer to an ask.
// - `laws` states the invariants that these steps enforce, whatever a handler says.
//
// Definitions are in specs/: one file a group of traps, and `Resumed` as the table of all.
#![tactic(auto)]

mod come;
mod denying_traps;
mod extensible_traps;
mod keys_trap;
pub mod laws;
pub mod next;
mod property_traps;
mod prototype_traps;
pub mod resume;
mod value_traps;

pub use js_operations;

// The natives 14 to 21 and 32 to 35: what a value is, and objects that are made.
//
// - `kinds` has `isArray`, `classOf`, `isCommon` and `symbolFor`.
// - `makers` has the natives that make objects, and `revoke`.
// - `resume` has `makeError`, which makes its operand a text first, and how a native goes on that waits; `next` is what it waits for.
//
// Definitions are in specs/, one file for each of these.
#![tactic(auto)]

pub mod kinds;
pub mod makers;
pub mod next;
pub mod resume;

pub use js_slot_natives;

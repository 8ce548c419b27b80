// The natives 1 to 13, by which the prelude asks objects: their thirteen internal methods.
//
// - `object_natives` has the natives at an object; `keyed` those of them that make an operand a key.
// - `call_natives` has `apply` and `construct`.
// - `resume` is how a native goes on with the answer to its ask; what waits is plain data, `next`.
//
// Definitions are in specs/, one file for each of these.
#![tactic(auto)]

pub mod call_natives;
mod keyed;
pub mod next;
pub mod object_natives;
pub mod resume;

pub use js_conversions;
pub use js_conversions::js_operations;

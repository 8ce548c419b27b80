// What a native that waits needs to go on, whatever it works on.
//
// - `next` has `NativeNext`, and the decisions of the crates of natives as decisions of a native.
// - `arrays` makes arrays.
//
// js_natives has the natives. Definitions are in specs/: `Steps` mirrors the code.
#![tactic(auto)]

pub mod arrays;
pub mod next;

// What each native does, by its number: one function leads from a native to the crate that decides it.
//
// - `seen` tells whether the objects that operands name are there.
// - `families` says what each native works on.
// - `texts`, `makers` and `objects` have the natives of one kind each, and `natives` all of them.
// - `items` has the natives that read the items of an array.
// - `resume` goes on with the answer that a native waited for.
// - `costs` says what a native costs.
//
// js_native_steps has what a native that waits needs to go on (`NativeNext`). Definitions are in specs/: `Decided` mirrors the code, and `Deeds` says what of js_run's definitions a decision stands for.
#![tactic(auto)]

pub mod costs;
pub mod families;
pub mod items;
pub mod makers;
pub mod natives;
pub mod objects;
pub mod resume;
pub mod seen;
pub mod texts;

pub use js_run_laws;

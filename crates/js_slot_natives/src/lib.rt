// The natives 36 to 43, on keyed collections.
//
// - `slot_natives` has what a native decides; what a collection decides that is asked, by its table, is defined here, and js_machine_natives does it.
// - `collections` has the classes of keyed collections; `next` is what a native waits for.
//
// Definitions are in specs/, one file for each of the first two.
#![tactic(auto)]

pub mod collections;
pub mod next;
pub mod slot_natives;

// What a keyed collection of the common part answers to a native that looks into it, by its list of places alone (ECMA-262, "Keyed Collections").
//
// - `places` finds places, and reads them.
// - `answers` has what the list answers.
//
// An own collection has an index beside its list, and answers by `Store::collect` of js_store.
//
// Definitions are js_slots'; js_store has the places of a store as those of a table.
#![tactic(auto)]

pub mod answers;
pub mod places;

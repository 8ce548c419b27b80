// The abstract operations that proxies and natives share.
//
// - `looks` is what a decision may know of values and of other objects: truth, marks, whether one can be called.
// - `names` has names as keys and keys as values.
// - `key_lists` has lists of keys as sets.
// - `fields` has the fields of an object that describes a property, and `descriptions` reads one (ECMA-262, ToPropertyDescriptor), field by field.
// - `lists` reads an array of the running party directly.
// - `made_objects` makes the description of a property (FromPropertyDescriptor) and an array of values (CreateArrayFromList).
//
// Definitions are in specs/, one file for each of these.
#![tactic(auto)]

pub mod descriptions;
pub mod fields;
pub mod key_lists;
pub mod lists;
pub mod looks;
pub mod made_objects;
pub mod names;

// The parts of objects, arrays and classes.
//
// - `classes`: classes.
// - `defaults`: the constructors of classes that have none, as templates of a code.
// - `definitions`: properties and items that are defined on objects that were just made.
// - `parts`: the parts of objects, arrays and classes, one after the other.
#![tactic(auto)]

pub mod classes;
mod defaults;
pub mod definitions;
pub mod parts;

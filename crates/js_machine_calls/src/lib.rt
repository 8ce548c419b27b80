// Calls and constructions: what is called, its arguments, the functions that run, and `super`.
//
// - `arguments`: the arguments of calls, which come on the stack of values one after the other.
// - `callees`: what is called, and what constructs: an object is asked.
// - `calls`: what runs when a function is called or constructs.
// - `closures`: functions of a source that run.
// - `constructions`: objects that are constructed: the prototype is asked for, and then the body of the constructor runs.
// - `listed_arguments`: the arguments of an array: its items, which are read directly.
// - `supers`: properties, methods and calls of `super`.
#![tactic(auto)]

pub mod arguments;
pub mod callees;
pub mod calls;
pub mod closures;
pub mod constructions;
pub mod listed_arguments;
pub mod supers;

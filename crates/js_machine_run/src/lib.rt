// The machine runs: forms begin, completions and answers come, objects decide, and steps are charged.
//
// - `answers`: what frames do with answers that are no values.
// - `arguments`: the arguments of calls, which come on the stack of values one after the other.
// - `begin`: what the machine does first at each form.
// - `conversions`: objects become primitive values and property keys: the frames that wait have the object, and what the value is for below it.
// - `decisions`: what an object or a primitive value decides of an ask, and what follows.
// - `deliver`: what the machine does where a completion comes to a frame.
// - `listed_arguments`: the arguments of an array: its items, which are read directly.
// - `methods`: methods that are called on values, where the key is a form.
// - `newest`: what the commonest frames do with the newest value.
// - `primitives`: what a value that is no object decides of an ask.
// - `proxies`: what proxies decide, and what follows.
// - `run`: runs: charges, and what each leads to.
// - `steps`: the steps of a machine: completions are handed on, and what was charged for is done.
// - `stop`: how a run stops, and what is charged for.
// - `supers`: properties, methods and calls of `super`.
// - `to_number`: the numbers that decisions want (ECMA-262, ToNumber).
// - `wakes`: a jump comes to what waits.
#![tactic(auto)]

pub mod answers;
pub mod arguments;
pub mod begin;
pub mod conversions;
pub mod decisions;
pub mod deliver;
pub mod listed_arguments;
pub mod methods;
pub mod newest;
pub mod primitives;
pub mod proxies;
pub mod run;
pub mod steps;
pub mod stop;
pub mod supers;
pub mod to_number;
pub mod wakes;

pub use js_machine_modules;
pub use js_machine_natives::js_run_laws;

// Operators, conversions of objects, and what properties and free names are read and written by.
//
// - `conversions`: objects become primitive values and property keys: the frames that wait have the object, and what the value is for below it.
// - `globals`: free names: the properties of the global.
// - `instances`: whether a value inherits from a function.
// - `operators`: operators: what they do with the values of their operands.
// - `properties`: properties that are read, written and deleted.
#![tactic(auto)]

pub mod conversions;
pub mod globals;
pub mod instances;
pub mod operators;
pub mod properties;

pub use js_operators;

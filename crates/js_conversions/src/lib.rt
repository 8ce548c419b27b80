// The conversions of values: to a primitive value, a number, a text, a property key (ECMA-262, "Type Conversion").
//
// - `primitives` converts what is no object.
// - `conversions` converts any value: `convert` begins, `resume_conversion` goes on with the answer to an ask. What waits is plain data, `next`.
//
// Definitions are in specs/, one file for each of the two.
#![tactic(auto)]

pub mod conversions;
pub mod next;
pub mod primitives;

pub use js_operations;

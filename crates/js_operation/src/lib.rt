// What an operator does with its operands' values, as its function says it (ECMA-262, "Unary Operators" to "Binary Bitwise Operators").
//
// - `operation` has `Operation`, which says what an operator does, and `Computed`, what is computed of values that are no objects.
//
// `array_index_keys` has the keys of numbers that are array indices, since operators and forms that read properties at once want them. js_operators has the operators. Definitions are in specs/: `Computing` and `Operating` mirror its code, and `Deeds` says what of js_run's definitions each
// `Operation` stands for.
#![tactic(auto)]

pub mod array_index_keys;
pub mod operation;

pub use js_run;
pub use js_run::{
    js_conversions, js_exotic, js_maker_natives, js_operations, js_proxy, js_slot_natives, js_traps,
};

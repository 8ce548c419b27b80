// What operators do with their operands' values (ECMA-262, "Unary Operators" to "Binary Bitwise Operators").
//
// - `numbers` converts values to numbers and calculates with them; `texts` converts values to texts and keys.
// - `equality`, `order` and `sums` compare and add values that are no objects.
// - `unary` and `binary` are the operators, `integers` binary ones on two numbers; `objects` has those that ask objects, and `rests` goes on where an object became a primitive value.
//
// js_operation has what an operator does (`Operation`), what is computed of values that are no objects (`Computed`), and the definitions.
#![tactic(auto)]

pub mod binary;
pub mod equality;
pub mod integers;
pub mod numbers;
pub mod objects;
pub mod order;
pub mod rests;
pub mod sums;
pub mod texts;
pub mod unary;

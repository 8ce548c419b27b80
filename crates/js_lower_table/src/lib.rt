// What lowering is: the term of each form of a tree, as definitions, and what their code stands on.
//
// - `commons` has the common objects that terms name, `held` hidden slots, `bound_value` where a pattern's value comes from.
// - `task` has what the entries of the recursion are asked and what they give, `lowerer` a lowering of trees to a depth.
// - `words`, `values` and `bindings` make the terms that stand often in the table.
#![tactic(auto)]

pub mod bindings;
pub mod bound_value;
pub mod commons;
pub mod held;
pub mod lowerer;
pub mod task;
pub mod values;
pub mod words;

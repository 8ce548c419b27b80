// Terms that are being made: a stack from which each form takes its operands.
//
// - `piece` has what stands on it, `pending` a chain so far, `stack` what is put on it and taken from it.
// - `leaves` has the terms without operands, `forms` those with operands, `lists` lists of terms and of parts, `calls` calls, functions, classes and chains.
#![tactic(auto)]

pub mod calls;
pub mod forms;
pub mod leaves;
pub mod lists;
pub mod pending;
pub mod piece;
pub mod stack;

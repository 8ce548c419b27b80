// The words that every layer speaks: names of parties and objects, marks, places, lists, names, steps.
#![tactic(auto)]

pub mod ids;
pub mod limits;
pub mod list;
pub mod marks;
pub mod memory;
pub mod name;
pub mod place;
pub mod steps;

// What covers become: an expression that is read as a pattern, and parentheses that are read as parameters.
#![tactic(auto)]

pub mod laws;
pub mod refined;
pub mod targets;

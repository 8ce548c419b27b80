// What the parts of a syntax tree have become while it is made, and what a form takes of them.
#![tactic(auto)]

pub mod binding_patterns;
pub mod covers;
mod lasts;
pub mod lists;
pub mod literals;
pub mod phrase;
pub mod phrases;
pub mod places;
pub mod queue;

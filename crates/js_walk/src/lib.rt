// What stands directly below each part of a syntax tree.
//
// - `subtree` has the parts, `below` what stands below one, in the order of the text.
// - `paths` tells names with static members, `places` where expressions begin.
#![tactic(auto)]

pub mod below;
pub mod classes;
mod expressions;
pub mod paths;
mod patterns;
pub mod places;
mod statements;
pub mod subtree;
pub mod words;

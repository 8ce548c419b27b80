// Forms that are done at once: what they give, what they change, and how many steps that takes.
//
// - `direct` reads forms that give a plain value, `numbers` those that give a number, `truths` those that give a truth value.
// - `plain` has values that are no text and no symbol.
// - `properties` has own data properties.
// - `slots` writes slots, `puts` properties; `done` does what a form does at once.
// - `appends` appends elements to arrays; `writes` does this, or what `puts` does.
#![tactic(auto)]

pub mod appends;
pub mod direct;
pub mod done;
pub mod increments;
pub mod numbers;
pub mod plain;
pub mod properties;
pub mod puts;
pub mod slots;
pub mod truths;
pub mod writes;

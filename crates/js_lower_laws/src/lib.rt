// Laws of what lowering gives.
//
// - `laws` has the law that the term of each source is a valid one.
#![tactic(auto)]

pub mod laws;

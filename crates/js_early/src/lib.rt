// The early rules: what a source may not have although it has a tree.
//
// - `early` is the public call, over one walk that gathers all faults, of which the least is told.
// - `fault` has the rules' names and faults, `context` what the rules look at round a part.
// - `names`, `targets`, `jumps` and `rules` have the rules, each by itself.
#![tactic(auto)]

mod context;
pub mod early;
pub mod fault;
mod jumps;
mod names;
mod rules;
mod scopes;
mod targets;

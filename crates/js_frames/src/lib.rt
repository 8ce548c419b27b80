// The scopes round a place of a source, as lowering sees them: a frame for each scope, with a slot for each of its names.
//
// - `frame` is a scope's slots, with an index of their names beside them.
// - `scopes` are the frames that stand round a place.
#![tactic(auto)]

pub mod frame;
pub mod scopes;

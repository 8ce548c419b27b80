// Statements of a body: scopes, lists of forms, branches, loops, jumps, `try`, and how bodies return.
//
// - `blocks`: scopes of blocks, and what leaves them.
// - `branches`: one way or another, by a value.
// - `jumps`: jumps.
// - `loops`: loops.
// - `places`: what a body runs with.
// - `returns`: how bodies end.
// - `sequences`: lists of forms, one after the other.
// - `slots`: the slots of scopes.
// - `tries`: `try`, with what follows it.
// - `turns`: what follows a turn of a loop.
#![tactic(auto)]

pub mod blocks;
pub mod branches;
pub mod jumps;
pub mod loops;
pub mod places;
pub mod returns;
pub mod sequences;
pub mod slots;
pub mod tries;
pub mod turns;

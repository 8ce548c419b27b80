// What the lines of lava_rows ask for, and what comes of those that ask for the system's objects.
//
// - `kind` has the kinds of lines, `shown` how bytes stand in a line, `fault` why nothing came of one.
// - `files`, `streams` and `halting` have the rows over the system's files, its streams and its clock.
#![tactic(auto)]

pub mod fault;
pub mod files;
pub mod halting;
pub mod kind;
pub mod shown;
pub mod streams;

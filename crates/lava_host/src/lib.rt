//! The host: what its functions answer to a call, over the folder, the input, the clock and the sinks that a command is given.
//!
//! - `function` has the host's functions by their numbers, `printed` how a value is printed.
//! - `host` answers a call: `console` prints (`lines`), `input` and `clock` are read (`inputs`), `fs` looks into the folder (`files`),
//!   where a path is taken below the application's folder and never leaves it (`path`).
//! - `replies` makes the answers, `fault` says why there is none.
//! - `laws`: paths stay inside the folder, and `Outside` names the object that failed.
//!
//! Definitions are in specs/: `Printed`, `Paths`, `Replies`, `Hosts`.
#![tactic(auto)]

pub mod fault;
mod files;
pub mod function;
pub mod host;
mod inputs;
pub mod laws;
mod lines;
mod path;
pub mod printed;
mod replies;

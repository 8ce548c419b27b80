//! The reader of modules of the language, by which pkg_load's `load` loads an application: a module is a program, and requests what its calls of
//! `require` with a string say; a `.json` file is a text of JSON.
//!
//! - `code` is what a module is made into, `reader` the reader.
//! - `source` reads sources, `json` texts of JSON.
//! - `laws`: bytes are read as one module at most.
//!
//! Definitions are in specs/: `Reading`.
#![tactic(auto)]

pub mod code;
mod json;
pub mod laws;
pub mod reader;
mod source;

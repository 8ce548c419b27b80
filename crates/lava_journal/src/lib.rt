//! The text of a trace: what each party asked of others and was answered, line by line.
//!
//! - `names` keeps what a trace has named and appends a crossing's line; `frame` appends the lines at the start and at the end.
//! - `pen` is a line that is being written (`numbers` numbers what left each party).
//! - `bodies` writes the pieces of what crosses on any `page`; `values`, `fields`, `asks` and `answers` are its parts.
//! - `quotes` writes texts, paths and marks.
//!
//! Definitions are in specs/: `Quotes`, `Sheets`, `Pages`, `Bodies`, `Lines`.
#![tactic(auto)]

mod answers;
mod asks;
pub mod bodies;
mod fields;
pub mod frame;
pub mod names;
mod numbers;
pub mod page;
mod pen;
pub mod quotes;
mod values;

//! Reading traces: the text of a run's trace becomes parties, crossings, steps and an ending, or its first bad line is told.
//!
//! - `left` is what is left of a line; `texts`, `names`, `values`, `fields` and `lists` read its items, `asks` and `answers` what crosses.
//! - `course` is what the lines so far have said: it takes one line after the other. `written` and `quotes` write the lines around the crossings.
//! - `trace` reads a whole text; `line` has what it gives.
//!
//! Definitions are in specs/: `Left`, `Many`, `Items`, `Asks`, `Courses`, `Traces`.
#![tactic(auto)]

pub mod answers;
mod asks;
mod course;
mod fields;
mod left;
pub mod line;
mod lists;
mod names;
mod natives;
mod quotes;
mod texts;
pub mod trace;
mod values;
mod written;

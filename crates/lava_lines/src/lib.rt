//! The exit statuses of a command, and its line on the errors.
//!
//! - `status` has the statuses and the texts.
//! - `lines` makes the lines.
//! - `report` writes a line.
//!
//! Definitions are in specs/: `Lines` has what each line says, `Puts` what writing one does.
#![tactic(auto)]

pub mod lines;
pub mod report;
pub mod status;

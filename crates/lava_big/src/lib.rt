//! The application of many packages that `lava big N` runs, in memory: each package calls the one before it.
//!
//! - `big_app` puts its files into a folder in memory.
//! - `sources` writes their texts, and `texts` has what stands in these.
//! - `summary` is the line that is printed behind its run.
//! - `held_folder` is a folder in memory of which no call fails.
//! - `laws` has the files of the applications of one and of two packages in plain text, and such a line.
//!
//! Definitions are in specs/: `BigFiles` has the files, `Summaries` the line.
#![tactic(auto)]

pub mod big_app;
pub mod held_folder;
pub mod laws;
pub mod sources;
pub mod summary;
pub mod texts;

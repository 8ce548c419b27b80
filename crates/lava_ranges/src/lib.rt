//! Whether the line of a crossing, and names of parties, keep to what can be read back: texts that are no longer than a text may be, safe integers, keys that are indices where they can be, and numbers of parties that a line can have.
//!
//! - `text`, `value`, `ask` and `answer` look at the parts of a crossing, and `crossing` at the whole.
//! - `kinds` looks at the kind of an answer, and `start` at the names of the parties.
//! - `Ranges`, `Kinds` and `Starts` have what is meant (lava_trace_laws `Sound` and `Written` have the parts).
#![tactic(auto)]

pub mod answer;
pub mod ask;
pub mod crossing;
pub mod kinds;
pub mod start;
pub mod text;
pub mod value;

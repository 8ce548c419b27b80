// What the words of a command ask for.
//
// - `parsing` has what the words give, as clap takes them.
// - `words` has the commands.
//
// Definitions are in specs/: `Parsing`, `Words`.
#![tactic(auto)]

pub mod parsing;
pub mod words;

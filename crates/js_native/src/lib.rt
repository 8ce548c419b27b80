// The natives: what the prelude and the core terms ask of the machine by name.
//
// One file a family: `text_natives` has those on texts that read their operands alone; `sorts` has the order of texts, `costs` what a native costs in
// steps, `next` what it waits for.
//
// Definitions are in specs/: `TextNatives`, and `NativeDecisions` with the words that they share.
#![tactic(auto)]

pub mod costs;
pub mod next;
pub mod sorts;
pub mod text_natives;

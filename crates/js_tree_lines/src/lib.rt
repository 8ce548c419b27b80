// The lines of a term, as `lava tree` prints them.
//
// - `node` has what has a line, `atoms` how names, texts, numbers and operators are written.
// - `heads` has a node's own line, `operands` what stands below it, `lines` the whole text.
#![tactic(auto)]

pub mod atoms;
pub mod heads;
pub mod lines;
pub mod node;
pub mod operands;
pub mod words;

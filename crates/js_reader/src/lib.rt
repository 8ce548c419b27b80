//! From the tokens of a source to the tree that the grammar has of them.
//!
//! `terminals` says what each token is to js_grammar: its terminal, which may hang on the token behind it. `reading` gives the grammar one token
//! after the other, with the semicolons that are inserted, and answers what stands as a list of events, or the first token that is impossible.
#![tactic(auto)]

pub mod halt;
pub mod laws;
pub mod reading;
pub mod run;
pub mod source;
pub mod terminals;

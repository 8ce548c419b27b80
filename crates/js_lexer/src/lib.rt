// Tokens: the lexical grammar of ECMA-262, in the profile of the language.
#![tactic(auto)]

mod characters;
mod comments;
mod cursor;
mod element;
mod escapes;
pub mod keywords;
pub mod laws;
pub mod lexer;
mod machine;
mod names;
mod nesting;
mod numbers;
mod passing;
pub mod punctuators;
mod quoted;
pub mod spot;
pub mod token;

// Texts, symbols, keys and values, over any types of references and of made symbols.
//
// - `text` has the texts: lists of at most 1,048,576 units of 16 bits, in shared pieces (`rope`, `runs`), that are joined, cut, searched and
//   compared without copying what is long; `utf8` and `characters` read and write them as UTF-8.
// - `value` has values, property keys and symbols; `same` tests whether two are the same (SameValue), `copy` gives one once more, and `hash`
//   makes texts, symbols and keys keys of maps.
// - `index` tells which texts are array indices, so that a key is an index, another text or a symbol; `length` is the key of that name.
// - `native` is the table of natives, `common` that of the paths of the common objects.
// - `fault` says why a text cannot be made. Its limit is met exactly: `TooLong` comes where the text would pass it, and only there.
//
// Definitions are in specs/: `Texts`, `Search`, `Utf8`, `Indices`, `Values`; `Naming` is all that a definition may do with references and
// made symbols, `Identities` what of them a value has in it, `WellFormed` what the types leave open.
#![tactic(auto)]

mod characters;
pub mod common;
pub mod copy;
pub mod fault;
mod fingerprint;
mod fronts;
mod hash;
pub mod index;
pub mod length;
pub mod native;
mod reader;
mod rope;
mod runs;
pub mod same;
mod search;
pub mod text;
pub mod utf8;
pub mod value;

// Object records, and where a party keeps its objects.
//
// - `store` is the trait `Store`: a list of objects, each found by its id, with the calls that ordinary objects need of it.
// - `flat` is a store that keeps each object (`object`) with its properties (`properties`): those at array indices in `elements`, the others in
//   a map in order of creation. A property is found in constant time, and no call sorts.
// - `slot` has what an object keeps besides its properties: its internal slots. A table there has an index beside its places (`table_index`), by
//   which the natives that look into it find a key in constant time; `places` reads places by their numbers.
// - `frozen` is the common part: frozen objects that reach each other alone, and that all parties read.
// - `foreign` keeps the marks with which references of other parties came.
// - `laws` states what follows from the definitions: what is found after a change, the order of keys, that no id is used again.
//
// Definitions are in specs/: `Objects`, `Order`, `Tables`, `Frozen`, `Foreign`, `Laws`; `Halves` and `Dense` say how the flat store keeps properties,
// and `Indexed` what an index has.
#![tactic(auto)]

mod elements;
pub mod flat;
pub mod foreign;
pub mod frozen;
pub mod laws;
mod named;
mod object;
pub mod places;
mod properties;
pub mod slot;
pub mod store;
mod table_index;

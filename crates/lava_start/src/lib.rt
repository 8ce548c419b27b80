// How all parties of a run stand before anything has happened: the host, and each package with
// what its row grants it.
//
// - `words` makes texts, and `objects` objects with properties.
// - `host` has the objects of the host, `global` the global of a package.
// - `grants` has the objects of a package by what its row grants, `accessors` the live ones among
//   them, and `grant_laws` which objects of others they name.
// - `marks` has what all parties know of the host's objects.
// - `modules` puts templates and modules into a code, and `packages` has the things of each party.
// - `first` puts all together: the machine of all parties.
// - `laws` states that the application of a run is well made.
#![tactic(auto)]

mod accessors;
pub mod first;
pub mod global;
pub mod grant_laws;
pub mod grants;
pub mod host;
pub mod laws;
pub mod marks;
pub mod modules;
mod objects;
pub mod packages;
mod words;

pub use js_world;

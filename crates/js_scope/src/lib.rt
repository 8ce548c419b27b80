// Scopes: to which declaration each use of a name goes, the free paths of a module, and what it requests.
//
// - `resolve` is the public call: a source without early errors, with what its names go to.
// - `scoping` has the names that each part's scope declares, `static_path` names with static members.
// - `free_paths` and `requests` list what a resolved source uses and requests.
// - `laws`: a name goes to the innermost scope that declares it.
#![tactic(auto)]

pub mod finding;
pub mod free_paths;
pub mod laws;
mod lookup;
mod request;
pub mod requests;
pub mod resolve;
pub mod scoping;
pub mod static_path;
mod uses;

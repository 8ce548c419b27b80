// What a package starts with: the globals and built-in modules that its row grants, by LavaMoat's attenuation.
//
// - `host` has the host's objects with their members and numbers, as a policy names them, and `intrinsic` the names that need no policy.
// - `keys` cuts the keys of a row to a name or to a name and a member, and tells what they say together.
// - `granted` makes the grants of globals and built-in modules, `start` the start of a package.
// - `laws` says in the subject's words what follows: nothing is granted that no key names.
//
// Definitions are in specs/: `Hosts`, `Keys`, `Starts`.
#![tactic(auto)]

pub mod granted;
pub mod host;
pub mod intrinsic;
pub mod keys;
pub mod laws;
pub mod start;

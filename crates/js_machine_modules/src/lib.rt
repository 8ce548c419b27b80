// Modules, `require`, imports, and calls of the host.
//
// - `imports`: what an import of another party runs.
// - `modules`: modules are evaluated, and import from other packages.
// - `outside`: calls of the host's functions: the outside is asked, and answers.
// - `requests`: what a request names: the parts of a path, the modules that it may mean, links, and the texts of errors.
// - `require_calls`: what a `require` does: which module a request names, and the errors where it names none.
#![tactic(auto)]

pub mod imports;
pub mod modules;
pub mod outside;
pub mod requests;
pub mod require_calls;

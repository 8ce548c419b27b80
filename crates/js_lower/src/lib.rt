// Lowering: the template of each source.
//
// - `frames` has the scopes of bodies, `templates` functions, `entries` the recursion of the table.
// - `modules` has modules, evaluated texts, JSON modules and functions of the prelude.
// - `below` asks for the terms of what lies below.
#![tactic(auto)]

mod below;
pub mod entries;
pub mod frames;
pub mod modules;
pub mod templates;

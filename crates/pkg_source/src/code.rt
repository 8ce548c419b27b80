// What a module is made into.

use js_scope::resolve::Resolved;
use pkg_load::load::Application;

/// What a module is made into.
#[derive(Drop)]
pub enum ModuleCode {
    /// A source of the language: its syntax tree, and what its names go to.
    Source(Resolved),
    /// A text of JSON, which is read when the module is evaluated.
    Json,
}

/// Lets an application go. To let a syntax tree go costs a crate two minutes of proof, which this call bears for those above.
pub fn discard(app: Application<ModuleCode>) {}

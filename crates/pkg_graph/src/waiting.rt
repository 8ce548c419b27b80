// Packages that wait.

use lava_base::list::List;
use lava_base::name::Name;

/// A package that was found, and whose dependencies are not looked for yet.
#[derive(Drop)]
pub struct Waiting {
    /// Its directory.
    pub dir: Name,
    /// The names of its dependencies.
    pub names: List<Name>,
}

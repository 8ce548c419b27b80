// A link from a package to one that it depends on.

use lava_base::name::Name;

/// Where the name of a dependency leads.
#[derive(Drop)]
pub struct Link {
    /// The name of the dependency.
    pub name: Name,
    /// The package, by its place among the packages, from 0.
    pub target: usize,
}

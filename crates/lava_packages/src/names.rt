// The names of the parties of a run.

ghost use Rattle.std.specs.Prelude.{◌≡◌, ◌++◌, map, IfOk, OnOk};
ghost use Rattle.lava_packages.specs.Packages.{party_names};
ghost use Rattle.pkg_graph.specs.declared.graph.Package.{Package};

use lava_base::list::List;
use lava_base::memory::OutOfMemory;
use lava_base::name::Name;
use pkg_graph::graph::Package;
use std::alloc::Global;

/// The name of the host in a trace.
pub const HOST_NAME: &str = "$host$";

/// The names of all parties: the host, and the packages behind it.
pub fn names_of(alloc: Global, packages: &[Package]) -> Result<List<Name>, OutOfMemory>
    ensures { IfOk result (λ names. names ≡ party_names packages.now) }
{
    let mut names = List::new(alloc);
    names.push(Name::of(alloc, HOST_NAME)?)?;
    add_names(packages, &mut names)?;
    Ok(names)
}

/// Appends the names of packages.
fn add_names(mut packages: &[Package], names: &mut List<Name>) -> Result<(), OutOfMemory>
    ensures { let added = map (λ (p : Package). p.name) packages.entry.now in
        OnOk result (names.new ≡ names.old ++ added) }
{
    while let [first, rest @ ..] = packages {
        names.push(first.name.copy()?)?;
        packages = rest;
    }
    Ok(())
}

// Names that are gathered in a set.

ghost use Rattle.std.specs.Prelude.{◌≡◌, IfOk};
ghost use Rattle.pkg_graph.specs.Gathering.{texts_of};

use lava_base::list::List;
use lava_base::memory::OutOfMemory;
use lava_base::name::Name;
use std::alloc::Global;
use std::collections::BTreeSet;

/// The texts of a set, in order.
pub fn list_of(alloc: Global, names: &BTreeSet<String>) -> Result<List<Name>, OutOfMemory>
    ensures { IfOk result (λ list. list ≡ texts_of names.now) }
{
    let mut list = List::new(alloc);
    for name in names.iter() {
        list.push(Name::of(alloc, name.as_str())?)?;
    }
    Ok(list)
}

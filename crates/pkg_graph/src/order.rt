// The packages of a reading, in byte order of their names.

ghost use Rattle.std.specs.Prelude.{◌≡◌, [], IfOk, map, string_bytes, get_or};
ghost use Rattle.lava_streams.specs.Files.{in_order};
ghost use Rattle.pkg_graph.specs.Naming.{first_places, place_in, placed_link, package_at, package_of, packages_of};

use crate::gathering::list_of;
use crate::graph::Package;
use crate::link::Link;
use crate::naming::canonical_names;
use crate::reading::Reading;
use indexmap::IndexSet;
use lava_base::list::List;
use lava_base::memory::OutOfMemory;
use lava_base::name::Name;
use std::alloc::Global;
use std::collections::BTreeSet;

/// Names in byte order, each once.
pub fn in_byte_order(alloc: Global, names: &[Name]) -> Result<List<Name>, OutOfMemory>
    ensures { IfOk result (λ order. order ≡ in_order names.now) }
{
    let mut set = BTreeSet::new(alloc);
    for name in names {
        set.insert(String::from_str(alloc, name.as_str())?)?;
    }
    list_of(alloc, &set)
}

/// Names in order of their first places, each once.
pub fn first_places(alloc: Global, names: &[Name]) -> Result<IndexSet<String>, OutOfMemory>
    ensures { IfOk result (λ set. map string_bytes set.keys ≡ first_places names.now) }
{
    let mut set = IndexSet::new(alloc);
    for name in names {
        set.insert(String::from_str(alloc, name.as_str())?)?;
    }
    Ok(set)
}

/// The place of a name, which is the first for a name that is not there.
pub fn place_in(places: &IndexSet<String>, name: &str) -> usize
    ensures { result ≡ place_in (map string_bytes places.now.keys) name.now }
{
    places.get_index_of(name).unwrap_or(0)
}

/// The text of a name at a place, which is empty where there is none.
pub fn text_at(names: &[Name], place: usize) -> &str
    ensures { result.now ≡ get_or names.now place [] }
{
    match names.get(place) {
        Some(name) => name.as_str(),
        None => "",
    }
}

/// Links whose targets are told by their places in party order.
pub fn placed_links(
    alloc: Global,
    names: &[Name],
    order: &IndexSet<String>,
    links: &[Link],
) -> Result<List<Link>, OutOfMemory>
    ensures { let placed = placed_link names.now (map string_bytes order.now.keys) in
        IfOk result (λ l. l ≡ map placed links.now) }
{
    let mut placed = List::new(alloc);
    for link in links {
        let name = link.name.copy()?;
        let target = place_in(order, text_at(names, link.target));
        placed.push(Link { name, target })?;
    }
    Ok(placed)
}

/// The package at a place in reading order.
fn package_at(
    alloc: Global,
    reading: &Reading,
    names: &[Name],
    order: &IndexSet<String>,
    place: usize,
    name: &str,
) -> Result<Package, OutOfMemory>
    ensures { let order = map string_bytes order.now.keys in
        IfOk result (λ p. p ≡ package_at reading.now names.now order place name.now) }
{
    let dir = Name::of(alloc, reading.dir_at(place))?;
    let main = Name::of(alloc, reading.main_at(place))?;
    let links = placed_links(alloc, names, order, reading.links_at(place))?;
    let name = Name::of(alloc, name)?;
    Ok(Package {
        dir,
        name,
        main,
        links,
    })
}

/// The packages of a reading, whose packages have these names, in this order.
fn packages_in(
    alloc: Global,
    reading: &Reading,
    names: &[Name],
    order: &[Name],
) -> Result<List<Package>, OutOfMemory>
    ensures { let made = package_of reading.now names.now order.now in
        IfOk result (λ p. p ≡ map made order.now) }
{
    let places = first_places(alloc, names)?;
    let ranks = first_places(alloc, order)?;
    let mut packages = List::new(alloc);
    for name in order {
        let place = place_in(&places, name.as_str());
        packages.push(package_at(alloc, reading, names, &ranks, place, name.as_str())?)?;
    }
    Ok(packages)
}

/// The packages of a reading that is done, in byte order of their names.
pub fn packages_of(alloc: Global, reading: &Reading) -> Result<List<Package>, OutOfMemory>
    ensures { IfOk result (λ p. p ≡ packages_of reading.now) }
{
    let names = canonical_names(alloc, reading.count(), reading.links())?;
    let order = in_byte_order(alloc, names.as_slice())?;
    packages_in(alloc, reading, names.as_slice(), order.as_slice())
}

// The reading of an application's packages, breadth first.

ghost use Rattle.std.specs.Prelude.{◌≡◌, ◌++◌, ℕ, [], false, Some, IfOk, OnOk, IfNone, length, get_or, bytes_eq, option_to_list};
ghost use Rattle.std.specs.List.{list_any};
ghost use Rattle.lava_streams.specs.Files.{Files};
ghost use Rattle.pkg_graph.specs.Worlds.{world_of};
ghost use Rattle.pkg_graph.specs.Faults.{CountsFolder, Agrees, Leaves};
ghost use Rattle.pkg_graph.specs.Reading.{empty_reading, own_standing, started, with_package, told_dir, manifest_fault, is_full, taken_in, linked, links_from, with_links, read_on};

use crate::fault::GraphFault;
use crate::field::Field;
use crate::limits::{APPLICATION, FILE, PACKAGE_LIMIT, PACKAGES};
use crate::link::Link;
use crate::manifest::{DEFAULT_MAIN, Manifest};
use crate::nearest::{Nearest, find_nearest};
use crate::standing::{FILE_LIMIT, Standing};
use crate::waiting::Waiting;
use indexmap::IndexSet;
use lava_base::list::List;
use lava_base::memory::OutOfMemory;
use lava_base::name::Name;
use lava_streams::folder::Folder;
use std::alloc::Global;
use std::collections::VecDeque;
use std::marker::Model;

/// What is read so far.
#[derive(Drop)]
pub struct Reading {
    // The directories of the packages, in the order in which they were found.
    dirs: IndexSet<String>,
    // The `main` of each.
    mains: List<Name>,
    // The last packages, whose dependencies are not looked for yet.
    waiting: VecDeque<Waiting>,
    // The links of the other packages.
    links: List<List<Link>>,
}

impl Model for Reading {
    ghost use Rattle.std.specs.Prelude.{map, string_bytes};
    ghost use Rattle.pkg_graph.specs.Reading.{Reading as Reads};

    ghost Value = { Reads };

    ghost view = { λ r. record { dirs = map string_bytes r.dirs.keys; mains = r.mains; waiting = r.waiting.items; links = r.links } };
}

impl Reading {
    /// Nothing is read yet. It takes no memory.
    fn empty(alloc: Global) -> Reading
        ensures { result ≡ empty_reading }
    {
        Reading {
            dirs: IndexSet::new(alloc),
            mains: List::new(alloc),
            waiting: VecDeque::new(alloc),
            links: List::new(alloc),
        }
    }

    /// How many packages were found.
    pub fn count(&self) -> usize
        ensures { result ≡ length self.now.dirs }
    {
        self.dirs.len()
    }

    /// Whether no more package may be taken in.
    fn is_full(&self) -> bool
        ensures { result ≡ is_full self.now }
    {
        self.dirs.len() >= PACKAGE_LIMIT
    }

    /// The links of the packages that have them, in reading order.
    pub fn links(&self) -> &List<List<Link>>
        ensures { result.now ≡ self.now.links }
    {
        &self.links
    }

    /// The directory of the package at a place, which is empty where there is none.
    pub fn dir_at(&self, place: usize) -> &str
        ensures { result.now ≡ get_or self.now.dirs place [] }
    {
        match self.dirs.get_index(place) {
            Some(dir) => dir.as_str(),
            None => "",
        }
    }

    /// The `main` of the package at a place, which is empty where there is none.
    pub fn main_at(&self, place: usize) -> &str
        ensures { result.now ≡ get_or self.now.mains place [] }
    {
        match self.mains.as_slice().get(place) {
            Some(main) => main.as_str(),
            None => "",
        }
    }

    /// The links of the package at a place, which are none where there is none.
    pub fn links_at(&self, place: usize) -> &[Link]
        ensures { result.now ≡ get_or self.now.links place [] }
    {
        match self.links.as_slice().get(place) {
            Some(links) => links.as_slice(),
            None => &[],
        }
    }
}

/// How a directory is told.
fn told_dir(dir: &str) -> &str
    ensures { result.now ≡ told_dir dir.now }
{
    match dir.strip_prefix('/') {
        Some(path) => path,
        None => APPLICATION,
    }
}

/// The fault of a directory's manifest.
fn manifest_fault(alloc: Global, dir: &str, field: Field) -> Result<GraphFault, OutOfMemory>
    ensures { IfOk result (λ f. f ≡ manifest_fault dir.now field) }
{
    let dir = Name::of(alloc, told_dir(dir))?;
    let field = Name::of(alloc, field.text())?;
    Ok(GraphFault::Manifest { dir, field })
}

/// The fault of a limit that was passed.
fn too_many(alloc: Global, what: &str, count: u64) -> Result<GraphFault, OutOfMemory>
    ensures { IfOk result (λ f. f ≡ GraphFault.TooMany what.now count) }
{
    let what = Name::of(alloc, what)?;
    Ok(GraphFault::TooMany { what, count })
}

/// Adds a package that is new.
fn add_package(
    alloc: Global,
    reading: &mut Reading,
    dir: Name,
    manifest: Manifest,
) -> Result<(), OutOfMemory>
    requires { list_any (bytes_eq dir) reading.old.dirs ≡ false }
    ensures { IfOk result (λ _. reading.new ≡ with_package reading.old dir manifest) }
{
    let Manifest { main, names } = manifest;
    reading.dirs.insert(String::from_str(alloc, dir.as_str())?)?;
    reading.mains.push(main)?;
    reading.waiting.push_back(Waiting { dir, names })?;
    Ok(())
}

/// Takes in a package that was found, and gives a link to it.
fn take_in(
    alloc: Global,
    reading: &mut Reading,
    dir: Name,
    standing: Standing,
) -> Result<Option<usize>, GraphFault>
    requires { list_any (bytes_eq dir) reading.old.dirs ≡ false }
    ensures gives { Leaves (taken_in reading.old dir standing) reading.new result }
    ensures own { (count : ℕ) → CountsFolder count count result }
{
    let place = reading.count();
    match standing {
        Standing::Refused(field) => Err(manifest_fault(alloc, dir.as_str(), field)?),
        Standing::Longer => {
            if reading.is_full() {
                return Err(too_many(alloc, PACKAGES, PACKAGE_LIMIT as u64 + 1)?);
            }
            Err(too_many(alloc, FILE, FILE_LIMIT as u64 + 1)?)
        }
        Standing::Manifest(manifest) => {
            if reading.is_full() {
                return Err(too_many(alloc, PACKAGES, PACKAGE_LIMIT as u64 + 1)?);
            }
            add_package(alloc, reading, dir, manifest)?;
            Ok(Some(place))
        }
    }
}

/// What is read when the application's own manifest is, which may be absent.
fn own_standing(alloc: Global, standing: Option<Standing>) -> Result<Standing, OutOfMemory>
    ensures { IfOk result (λ s. s ≡ own_standing standing) }
{
    match standing {
        Some(standing) => Ok(standing),
        None => {
            let main = Name::of(alloc, DEFAULT_MAIN)?;
            let names = List::new(alloc);
            Ok(Standing::Manifest(Manifest { main, names }))
        }
    }
}

/// The reading of the application's own package alone.
pub fn start(alloc: Global, standing: Option<Standing>) -> Result<Reading, GraphFault>
    ensures gives { Agrees (started standing) result }
    ensures own { (count : ℕ) → CountsFolder count count result }
{
    let standing = own_standing(alloc, standing)?;
    let mut reading = Reading::empty(alloc);
    let root = Name::of(alloc, "")?;
    take_in(alloc, &mut reading, root, standing)?;
    Ok(reading)
}

/// Where the name of a dependency leads from the package at a place, if there is a link.
fn link_by<F: Folder>(
    alloc: Global,
    root: &str,
    at: usize,
    dir: &str,
    reading: &mut Reading,
    name: &str,
    folder: &mut F,
) -> Result<Option<usize>, GraphFault>
    ensures tells { (F.stand folder.new).told ≡ (F.stand folder.old).told }
    ensures counts { CountsFolder (F.stand folder.old).count (F.stand folder.new).count result }
    ensures gives { (files : Files) → (F.stand folder.old).told ≡ Some files →
        Leaves (linked (world_of files root.now) at dir.now reading.old name.now) reading.new result }
{
    let nearest = find_nearest(alloc, root, dir, name, &reading.dirs, folder)?;
    match nearest {
        Nearest::Nowhere => Ok(None),
        Nearest::Known(place) => Ok(if place == at { None } else { Some(place) }),
        Nearest::New(dir, standing) => take_in(alloc, reading, dir, standing),
    }
}

/// The links of the package at a place, whose dependencies have these names.
fn links_of<F: Folder>(
    alloc: Global,
    root: &str,
    at: usize,
    next: &Waiting,
    reading: &mut Reading,
    folder: &mut F,
) -> Result<List<Link>, GraphFault>
    ensures tells { (F.stand folder.new).told ≡ (F.stand folder.old).told }
    ensures counts { CountsFolder (F.stand folder.old).count (F.stand folder.new).count result }
    ensures gives { (files : Files) → (F.stand folder.old).told ≡ Some files →
        let world = world_of files root.now in
        let expected = links_from world at next.now.dir reading.old [] next.now.names in
        Leaves expected reading.new result }
{
    let dir = next.dir.as_str();
    let mut links = List::new(alloc);
    for name in next.names.as_slice() {
        if let Some(target) = link_by(alloc, root, at, dir, reading, name.as_str(), folder)? {
            let name = name.copy()?;
            links.push(Link { name, target })?;
        }
    }
    Ok(links)
}

/// Takes the first package that waits.
fn take_next(reading: &mut Reading) -> Option<Waiting>
    ensures takes { reading.old.waiting ≡ option_to_list result ++ reading.new.waiting }
    ensures empty { IfNone result (reading.new.waiting ≡ []) }
    ensures others { reading.new ≡ record reading.old { waiting = reading.new.waiting } }
{
    reading.waiting.pop_front()
}

/// How many packages have their links.
fn linked_count(reading: &Reading) -> usize
    ensures { result ≡ length reading.now.links }
{
    reading.links.len()
}

/// Adds the links of the package that waited.
fn add_links(reading: &mut Reading, links: List<Link>) -> Result<(), OutOfMemory>
    ensures { OnOk result (reading.new ≡ with_links reading.old links) }
{
    reading.links.push(links)?;
    Ok(())
}

/// Looks for the dependencies of all packages that wait, and of those that are found so.
pub fn read_on<F: Folder>(
    alloc: Global,
    root: &str,
    reading: &mut Reading,
    folder: &mut F,
) -> Result<(), GraphFault>
    ensures tells { (F.stand folder.new).told ≡ (F.stand folder.old).told }
    ensures counts { CountsFolder (F.stand folder.old).count (F.stand folder.new).count result }
    ensures gives { (files : Files) → (F.stand folder.old).told ≡ Some files →
        Leaves (read_on (world_of files root.now) PACKAGE_LIMIT reading.old) reading.new result }
{
    for round in 0..PACKAGE_LIMIT {
        let Some(next) = take_next(reading) else {
            return Ok(());
        };
        let at = linked_count(reading);
        let links = links_of(alloc, root, at, &next, reading, folder)?;
        add_links(reading, links)?;
    }
    Ok(())
}

// What each party has of its package, before anything has happened.

ghost use Rattle.std.specs.Prelude.{◌≡◌, ◌++◌, ◌∷◌, [], IfOk, OnOk};
ghost use Rattle.js_world.specs.js_run.Journal.{root_link};
ghost use Rattle.js_world.specs.js_machine.Begun.{new_own};
ghost use Rattle.lava_start.specs.Firsts.{IsOwnOf, allowed_names, host_leads, host_things, leads_in, leads_of, link_names, package_with, part_of_link};
ghost use Rattle.lava_start.specs.Applications.{may_cross};

use crate::grants::{Endowed, package_store};
use crate::modules::SourceModule;
use crate::words::word_text;
use js_desc::start::Grant;
use js_store::flat::FlatStore;
use js_store::store::Store;
use js_text::text::Text;
use js_text::value::Value;
use js_world::js_crossing::leads::Lead;
use js_world::js_machine::own::Own;
use js_world::js_machine::package::{Module, Package};
use lava_base::ids::PartyId;
use lava_base::list::List;
use lava_base::memory::OutOfMemory;
use lava_base::name::Name;
use std::alloc::Global;

/// A link of a package: its name, the party that it leads to, and whether that may be imported.
#[derive(Drop)]
pub struct PackageLink {
    pub name: Text,
    pub party: u32,
    pub allowed: bool,
}

/// A package: its canonical name, the path of its main module, its modules, its links, and what its row grants it.
#[derive(Drop)]
pub struct PackageSource {
    pub name: Text,
    pub main: Text,
    pub modules: Vec<SourceModule>,
    pub links: Vec<PackageLink>,
    pub globals: List<(Name, Grant)>,
    pub builtins: List<(Name, Grant)>,
}

/// The links of the host: to the application's own package alone.
pub(crate) fn host_links(alloc: Global) -> Result<Vec<Text>, OutOfMemory>
    ensures { IfOk result (λ links. links.items ≡ root_link ∷ []) }
{
    let mut links = Vec::new(alloc);
    links.push(word_text(alloc, "$root$")?)?;
    Ok(links)
}

/// The host has no name and no modules.
pub(crate) fn host_package(alloc: Global) -> Result<Package, OutOfMemory>
    ensures { IfOk result (λ made. made ≡ host_things) }
{
    let name = word_text(alloc, "")?;
    let main = word_text(alloc, "")?;
    let links = host_links(alloc)?;
    Ok(Package::new(name, main, Vec::new(alloc), links, None, Vec::new(alloc)))
}

/// Things for the place of the party in the machine, which nothing reads.
pub(crate) fn place_holder(alloc: Global) -> Result<Own<FlatStore>, OutOfMemory> {
    let package = host_package(alloc)?;
    let objects = FlatStore::empty(alloc, PartyId(0));
    Own::new(alloc, objects, package, Vec::new(alloc))
}

/// The names of links.
fn names_of(alloc: Global, links: &[PackageLink]) -> Result<Vec<Text>, OutOfMemory>
    ensures { IfOk result (λ names. names.items ≡ link_names links.now) }
{
    let mut names = Vec::new(alloc);
    for link in links {
        let name = link.name.copy()?;
        names.push(name)?;
    }
    Ok(names)
}

/// Whether a link may be imported over; none leads to the host.
fn may_cross(link: &PackageLink) -> bool
    ensures { result ≡ may_cross (part_of_link link.now) }
{
    link.allowed && link.party != 0
}

/// Appends the name of a link, where it may be imported over.
fn push_allowed(names: &mut Vec<Text>, link: &PackageLink) -> Result<(), OutOfMemory>
    ensures { let added = allowed_names (link.now ∷ []) in
        OnOk result (names.new.items ≡ names.old.items ++ added) }
{
    if may_cross(link) {
        let name = link.name.copy()?;
        names.push(name)?;
    }
    Ok(())
}

/// The names of the links that may be imported over.
fn allowed_of(alloc: Global, links: &[PackageLink]) -> Result<Vec<Text>, OutOfMemory>
    ensures { IfOk result (λ names. names.items ≡ allowed_names links.now) }
{
    let mut names = Vec::new(alloc);
    for link in links {
        push_allowed(&mut names, link)?;
    }
    Ok(names)
}

/// What a package has of its source, with its modules and what its `require` of `fs` gives.
fn package_of(
    alloc: Global,
    source: &PackageSource,
    modules: Vec<Module>,
    builtin: Option<Value>,
) -> Result<Package, OutOfMemory>
    ensures { IfOk result (λ made. made ≡ package_with source.now modules.items builtin) }
{
    let name = source.name.copy()?;
    let main = source.main.copy()?;
    let links = names_of(alloc, source.links.as_slice())?;
    Ok(Package::new(name, main, modules, links, builtin, Vec::new(alloc)))
}

/// The things of a package with these objects, over its modules.
fn own_with(
    alloc: Global,
    source: &PackageSource,
    modules: Vec<Module>,
    endowed: Endowed,
) -> Result<Own<FlatStore>, OutOfMemory>
    ensures { let things = package_with source.now modules.items endowed.builtin in
        let allowed = allowed_names source.now.links.items in
        IfOk result (λ own. own ≡ new_own endowed.objects things allowed) }
{
    let Endowed { objects, builtin } = endowed;
    let own_package = package_of(alloc, source, modules, builtin)?;
    let allowed = allowed_of(alloc, source.links.as_slice())?;
    Own::new(alloc, objects, own_package, allowed)
}

/// The things of a package, over its modules.
pub(crate) fn package_own(
    alloc: Global,
    party: u32,
    source: &PackageSource,
    modules: Vec<Module>,
) -> Result<Own<FlatStore>, OutOfMemory>
    ensures { IfOk result (IsOwnOf party source.now modules.items) }
{
    let endowed = package_store(alloc, PartyId(party), &source.globals, &source.builtins)?;
    own_with(alloc, source, modules, endowed)
}

/// Where the links of the host lead: to the application's own package.
fn leads_of_host(alloc: Global) -> Result<List<Lead>, OutOfMemory>
    ensures { IfOk result (λ leads. leads ≡ host_leads) }
{
    let link = word_text(alloc, "$root$")?;
    let mut leads = List::new(alloc);
    leads.push(Lead { link, party: 1 })?;
    Ok(leads)
}

/// Appends where a link leads, where it may be imported over.
fn push_lead(leads: &mut List<Lead>, link: &PackageLink) -> Result<(), OutOfMemory>
    ensures { let added = leads_of (link.now ∷ []) in
        OnOk result (leads.new ≡ leads.old ++ added) }
{
    if may_cross(link) {
        let name = link.name.copy()?;
        leads.push(Lead {
            link: name,
            party: link.party,
        })?;
    }
    Ok(())
}

/// Where the links of a package lead that may be imported over.
fn leads_of_links(alloc: Global, links: &[PackageLink]) -> Result<List<Lead>, OutOfMemory>
    ensures { IfOk result (λ leads. leads ≡ leads_of links.now) }
{
    let mut leads = List::new(alloc);
    for link in links {
        push_lead(&mut leads, link)?;
    }
    Ok(leads)
}

/// Appends where the links of a package lead.
fn push_leads(
    alloc: Global,
    source: &PackageSource,
    leads: &mut Vec<List<Lead>>,
) -> Result<(), OutOfMemory>
    ensures { let added = leads_of source.now.links.items in
        OnOk result (leads.new.items ≡ leads.old.items ++ added ∷ []) }
{
    let own = leads_of_links(alloc, source.links.as_slice())?;
    leads.push(own)?;
    Ok(())
}

/// Where the links of each party lead, the host first.
pub(crate) fn all_leads(
    alloc: Global,
    packages: &[PackageSource],
) -> Result<Vec<List<Lead>>, OutOfMemory>
    ensures { IfOk result (λ leads. leads.items ≡ leads_in packages.now) }
{
    let mut leads = Vec::new(alloc);
    leads.push(leads_of_host(alloc)?)?;
    for source in packages {
        push_leads(alloc, source, &mut leads)?;
    }
    Ok(leads)
}

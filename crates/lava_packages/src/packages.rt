// The packages of an application as the machine runs them.

ghost use Rattle.std.specs.Prelude.{◌≡◌, ◌++◌, ◌∷◌, [], map, suc, IfOk, OnOk};
ghost use Rattle.std.specs.List.{list_any};
ghost use Rattle.std.specs.Option.{option_copied};
ghost use Rattle.lava_start.specs.Firsts.{part_of_link, parts_of};
ghost use Rattle.lava_packages.specs.Packages.{is_at, link_of, main_of, may_link, package_parts, parts_from, path_among, start_in};

use crate::modules::{sources_of, text_in};
use js_desc::start::Start;
use js_text::text::Text;
use lava_base::memory::OutOfMemory;
use lava_base::name::Name;
use lava_start::modules::SourceModule;
use lava_start::packages::{PackageLink, PackageSource};
use pkg_graph::graph::Package;
use pkg_graph::link::Link;
use pkg_load::module::LoadedModule;
use pkg_load::requirement::paths_meant;
use pkg_source::code::ModuleCode;
use policy_globals::start::start_of;
use policy_row::policy::Policy;
use std::alloc::Global;

/// The place of the application's own package among the packages.
pub const OWN_PACKAGE: usize = 0;

/// Whether a package may import another one, where there is one.
fn may_link(policy: &Policy, name: &Name, linked: Option<&Package>) -> bool
    ensures { result ≡ may_link policy.now name.now (option_copied linked.entry) }
{
    match linked {
        Some(linked) => policy.may_import(name, &linked.name),
        None => false,
    }
}

/// The party of the package at a place: the host stands before the packages.
fn party_of(place: usize) -> Result<u32, OutOfMemory>
    ensures { IfOk result (λ party. party ≡ suc place) }
{
    match u32::try_from(place) {
        Ok(place) => match place.checked_add(1) {
            Some(party) => Ok(party),
            None => Err(OutOfMemory),
        },
        Err(_) => Err(OutOfMemory),
    }
}

/// A link of a package of this name.
fn link_source(
    alloc: Global,
    packages: &[Package],
    policy: &Policy,
    name: &Name,
    link: &Link,
) -> Result<PackageLink, OutOfMemory>
    ensures { let meant = link_of packages.now policy.now name.now link.now in
        IfOk result (λ made. part_of_link made ≡ meant) }
{
    let party = party_of(link.target)?;
    let allowed = may_link(policy, name, packages.get(link.target));
    Ok(PackageLink {
        name: text_in(alloc, link.name.as_str().as_bytes())?,
        party,
        allowed,
    })
}

/// Appends a link of a package.
fn add_link(
    alloc: Global,
    packages: &[Package],
    policy: &Policy,
    name: &Name,
    link: &Link,
    made: &mut Vec<PackageLink>,
) -> Result<(), OutOfMemory>
    ensures { let meant = link_of packages.now policy.now name.now link.now in
        let old = map part_of_link made.old.items in
        OnOk result (map part_of_link made.new.items ≡ old ++ meant ∷ []) }
{
    let link = link_source(alloc, packages, policy, name, link)?;
    made.push(link)?;
    Ok(())
}

/// Appends the links of a package.
fn add_links(
    alloc: Global,
    packages: &[Package],
    policy: &Policy,
    name: &Name,
    mut links: &[Link],
    made: &mut Vec<PackageLink>,
) -> Result<(), OutOfMemory>
    ensures { let meant = map (link_of packages.now policy.now name.now) links.entry.now in
        let old = map part_of_link made.old.items in
        OnOk result (map part_of_link made.new.items ≡ old ++ meant) }
{
    while let [first, rest @ ..] = links {
        add_link(alloc, packages, policy, name, first, made)?;
        links = rest;
    }
    Ok(())
}

/// The links of a package.
fn links_of(
    alloc: Global,
    packages: &[Package],
    policy: &Policy,
    read: &Package,
) -> Result<Vec<PackageLink>, OutOfMemory>
    ensures { let meant = link_of packages.now policy.now read.now.name in
        IfOk result (λ made. map part_of_link made.items ≡ map meant read.now.links) }
{
    let mut made = Vec::new(alloc);
    add_links(
        alloc,
        packages,
        policy,
        &read.name,
        read.links.as_slice(),
        &mut made,
    )?;
    Ok(made)
}

/// Whether a module is a package's, with a path.
fn is_at(owner: usize, path: &Name, module: &LoadedModule<ModuleCode>) -> bool
    ensures { result ≡ is_at owner path.now «module».now }
{
    module.owner == owner && module.path.as_str() == path.as_str()
}

/// Whether a package has a module with a path.
fn is_module(owner: usize, path: &Name, modules: &[LoadedModule<ModuleCode>]) -> bool
    ensures { result ≡ list_any (is_at owner path.now) modules.now }
{
    modules.iter().any(|loaded| is_at(owner, path, loaded))
}

/// The first of these paths that a module of a package has.
fn path_among<'a>(
    owner: usize,
    modules: &[LoadedModule<ModuleCode>],
    paths: &'a [Name],
) -> Option<&'a Name>
    ensures { let found = path_among owner modules.now paths.now in
        option_copied result ≡ found }
{
    paths.iter().find(|path| is_module(owner, path, modules))
}

/// The path of the main module of a package.
fn main_of(
    alloc: Global,
    owner: usize,
    main: &Name,
    modules: &[LoadedModule<ModuleCode>],
) -> Result<Text, OutOfMemory>
    ensures { IfOk result (λ path. path ≡ main_of owner main.now modules.now) }
{
    let paths = paths_meant(alloc, main.as_str())?;
    match path_among(owner, modules, paths.as_slice()) {
        Some(path) => text_in(alloc, path.as_str().as_bytes()),
        None => text_in(alloc, main.as_str().as_bytes()),
    }
}

/// What the package of a place is granted.
fn start_in(alloc: Global, policy: &Policy, owner: usize, name: &Name) -> Result<Start, OutOfMemory>
    ensures { IfOk result (λ start. start ≡ start_in policy.now owner name.now) }
{
    start_of(alloc, policy.row(name), owner == OWN_PACKAGE)
}

/// A package with its modules and links, by what it is granted.
fn granted(
    name: Text,
    main: Text,
    modules: Vec<SourceModule>,
    links: Vec<PackageLink>,
    start: Start,
) -> PackageSource
    ensures { result ≡ record {
      name = name;
      main = main;
      modules = modules;
      links = links;
      globals = start.globals;
      builtins = start.builtins;
    } }
{
    let Start {
        globals,
        builtins,
        ..
    } = start;
    PackageSource {
        name,
        main,
        modules,
        links,
        globals,
        builtins,
    }
}

/// The package of a place.
fn package_source(
    alloc: Global,
    packages: &[Package],
    modules: &[LoadedModule<ModuleCode>],
    policy: &Policy,
    owner: usize,
    read: &Package,
) -> Result<PackageSource, OutOfMemory>
    ensures { let meant = package_parts packages.now modules.now policy.now owner read.now in
        IfOk result (λ made. parts_of made ≡ meant) }
{
    let name = text_in(alloc, read.name.as_str().as_bytes())?;
    let main = main_of(alloc, owner, &read.main, modules)?;
    let links = links_of(alloc, packages, policy, read)?;
    let start = start_in(alloc, policy, owner, &read.name)?;
    let sources = sources_of(alloc, owner, modules)?;
    Ok(granted(name, main, sources, links, start))
}

/// Appends the package of a place.
fn add_package(
    alloc: Global,
    packages: &[Package],
    modules: &[LoadedModule<ModuleCode>],
    policy: &Policy,
    owner: usize,
    read: &Package,
    made: &mut Vec<PackageSource>,
) -> Result<(), OutOfMemory>
    ensures { let meant = package_parts packages.now modules.now policy.now owner read.now in
        let old = map parts_of made.old.items in
        OnOk result (map parts_of made.new.items ≡ old ++ meant ∷ []) }
{
    let source = package_source(alloc, packages, modules, policy, owner, read)?;
    made.push(source)?;
    Ok(())
}

/// The place behind one.
fn place_behind(place: usize) -> Result<usize, OutOfMemory>
    ensures { IfOk result (λ next. next ≡ suc place) }
{
    match place.checked_add(1) {
        Some(next) => Ok(next),
        None => Err(OutOfMemory),
    }
}

/// Appends all packages of an application.
fn add_packages(
    alloc: Global,
    packages: &[Package],
    modules: &[LoadedModule<ModuleCode>],
    policy: &Policy,
    made: &mut Vec<PackageSource>,
) -> Result<(), OutOfMemory>
    ensures { let all = parts_from packages.now modules.now policy.now 0 packages.now in
        let old = map parts_of made.old.items in
        OnOk result (map parts_of made.new.items ≡ old ++ all) }
{
    let mut owner = OWN_PACKAGE;
    for read in packages {
        add_package(alloc, packages, modules, policy, owner, read, made)?;
        owner = place_behind(owner)?;
    }
    Ok(())
}

/// The packages of an application, the application's own first, by its merged policy.
pub fn packages_of(
    alloc: Global,
    packages: &[Package],
    modules: &[LoadedModule<ModuleCode>],
    policy: &Policy,
) -> Result<Vec<PackageSource>, OutOfMemory>
    ensures { let all = parts_from packages.now modules.now policy.now 0 packages.now in
        IfOk result (λ made. map parts_of made.items ≡ all) }
{
    let mut made = Vec::new(alloc);
    add_packages(alloc, packages, modules, policy, &mut made)?;
    Ok(made)
}

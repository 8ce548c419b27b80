// What the literal requests of each package import.

ghost use Rattle.std.specs.Prelude.{◌≡◌, [], fold, replicate, IfOk, OnOk, string_bytes};
ghost use Rattle.pkg_load.specs.Requests.{request_kind};
ghost use Rattle.policy_row.specs.Rows.{with_entry};
ghost use Rattle.policy_gen.specs.Imports.{linked_import, import_of, looked_up, with_import, with_request, with_requests};
ghost use Rattle.policy_gen.specs.Passes.{with_module_imports, imports_by_place};

use lava_base::list::List;
use lava_base::memory::OutOfMemory;
use lava_base::name::Name;
use pkg_graph::graph::Package;
use pkg_load::load::Application;
use pkg_load::module::LoadedModule;
use pkg_load::request::{RequestKind, request_kind};
use pkg_load::requirement::{Lookup, Requirement, lookup_of};
use pkg_source::code::ModuleCode;
use std::alloc::Global;
use std::collections::BTreeMap;
use std::marker::Model;

/// What a literal request imports that a policy decides.
#[derive(Clone, Copy, Debug, PartialEq, Eq)]
pub enum Import {
    /// The built-in module.
    Builtin,
    /// A package that is linked, by its place among the packages.
    Linked(usize),
}

/// Literal requests in byte order, each with what it imports.
#[derive(Drop)]
pub(crate) struct Imports {
    by_request: BTreeMap<String, Import>,
}

impl Model for Imports {
    ghost use Rattle.policy_row.specs.Texts.{by_bytes};
    ghost use Rattle.policy_gen.specs.Imports.{Imports};

    ghost Value = { Imports };

    ghost view = { λ i. by_bytes i.by_request.entries };
}

impl Imports {
    /// No imports. It takes no memory.
    pub(crate) fn new(alloc: Global) -> Imports
        ensures { result ≡ [] }
    {
        Imports {
            by_request: BTreeMap::new(alloc),
        }
    }

    /// Puts what a request imports at its text.
    fn put(&mut self, request: String, import: Import) -> Result<(), OutOfMemory>
        ensures { OnOk result (self.new ≡ with_entry self.old (string_bytes request) import) }
    {
        self.by_request.insert(request, import)?;
        Ok(())
    }

    /// The requests as a list, in byte order.
    pub(crate) fn list(&self, alloc: Global) -> Result<List<(Name, Import)>, OutOfMemory>
        ensures { IfOk result (λ list. list ≡ self.now) }
    {
        let mut list = List::new(alloc);
        for (request, import) in self.by_request.iter() {
            list.push((Name::of(alloc, request.as_str())?, *import))?;
        }
        Ok(list)
    }
}

/// The package to which a look-up leads.
fn import_by(lookup: Option<Lookup>) -> Option<Import>
    ensures { result ≡ looked_up lookup }
{
    match lookup {
        None => None,
        Some(lookup) => Some(Import::Linked(lookup.owner)),
    }
}

/// The package to which the link of a request leads.
fn linked_import(
    alloc: Global,
    packages: &[Package],
    owner: usize,
    request: &Name,
) -> Result<Option<Import>, OutOfMemory>
    requires { request_kind request.now ≡ RequestKind.Package }
    ensures { IfOk result (λ import. import ≡ linked_import packages.now owner request.now) }
{
    let requirement = Requirement::Request {
        owner,
        from: Name::of(alloc, "")?,
        request: request.copy()?,
    };
    let lookup = lookup_of(alloc, packages, &requirement)?;
    Ok(import_by(lookup))
}

/// What a request imports, if a policy decides it.
fn import_of(
    alloc: Global,
    packages: &[Package],
    owner: usize,
    request: &Name,
) -> Result<Option<Import>, OutOfMemory>
    ensures { IfOk result (λ import. import ≡ import_of packages.now owner request.now) }
{
    match request_kind(request.as_str()) {
        RequestKind::Relative => Ok(None),
        RequestKind::Builtin => Ok(Some(Import::Builtin)),
        RequestKind::Package => linked_import(alloc, packages, owner, request),
    }
}

/// Puts what a request imports, if it imports anything.
fn put_import(
    alloc: Global,
    imports: &mut Imports,
    request: &Name,
    import: Option<Import>,
) -> Result<(), OutOfMemory>
    ensures { OnOk result (imports.new ≡ with_import imports.old request.now import) }
{
    match import {
        None => Ok(()),
        Some(import) => imports.put(String::from_str(alloc, request.as_str())?, import),
    }
}

/// Takes in a request.
fn add_request(
    alloc: Global,
    packages: &[Package],
    owner: usize,
    imports: &mut Imports,
    request: &Name,
) -> Result<(), OutOfMemory>
    ensures { let with = with_request packages.now owner imports.old request.now in
        OnOk result (imports.new ≡ with) }
{
    let import = import_of(alloc, packages, owner, request)?;
    put_import(alloc, imports, request, import)
}

/// Takes in requests.
fn add_requests(
    alloc: Global,
    packages: &[Package],
    owner: usize,
    imports: &mut Imports,
    requests: &[Name],
) -> Result<(), OutOfMemory>
    ensures { let with = with_requests packages.now owner imports.old requests.now in
        OnOk result (imports.new ≡ with) }
{
    for request in requests {
        add_request(alloc, packages, owner, imports, request)?;
    }
    Ok(())
}

/// Takes in a module, for its package.
fn add_module(
    alloc: Global,
    packages: &[Package],
    all: &mut Vec<Imports>,
    loaded: &LoadedModule<ModuleCode>,
) -> Result<(), OutOfMemory>
    ensures { let with = with_module_imports packages.now all.old.items loaded.now in
        OnOk result (all.new.items ≡ with) }
{
    let owner = loaded.owner;
    if owner < all.len() {
        add_requests(
            alloc,
            packages,
            owner,
            &mut all[owner],
            loaded.requests.as_slice(),
        )?;
    }
    Ok(())
}

/// No imports, for each of so many packages.
fn no_imports(alloc: Global, count: usize) -> Result<Vec<Imports>, OutOfMemory>
    ensures { IfOk result (λ all. all.items ≡ replicate count []) }
{
    let mut all = Vec::new(alloc);
    for _ in 0..count {
        all.push(Imports::new(alloc))?;
    }
    Ok(all)
}

/// The imports of each package, by its place.
pub(crate) fn imports_of_packages(
    alloc: Global,
    app: &Application<ModuleCode>,
) -> Result<Vec<Imports>, OutOfMemory>
    ensures { IfOk result (λ all. all.items ≡ imports_by_place app.now) }
{
    let mut all = no_imports(alloc, app.packages().len())?;
    for loaded in app.modules() {
        add_module(alloc, app.packages(), &mut all, loaded)?;
    }
    Ok(all)
}

// The requests that a policy denies.

ghost use Rattle.std.specs.Prelude.{◌≡◌, ◌++◌, length, filter_map, IfOk, OnOk};
ghost use Rattle.std.specs.Option.{option_to_list};
ghost use Rattle.policy_gen.specs.Denials.{lacks_builtin, lacks, denial_of, denied_in};
ghost use Rattle.policy_gen.specs.Passes.{denied_by_place};

use crate::denial::{Denied, OWN_PLACE};
use crate::imports::{Import, Imports, imports_of_packages};
use lava_base::list::List;
use lava_base::memory::OutOfMemory;
use lava_base::name::Name;
use pkg_graph::graph::Package;
use pkg_load::load::Application;
use pkg_load::requirement::name_at;
use pkg_source::code::ModuleCode;
use policy_globals::granted::builtins_of_keys;
use policy_row::policy::Policy;
use std::alloc::Global;

/// Whether a policy grants a package nothing of the built-in module.
fn lacks_builtin(
    alloc: Global,
    policy: &Policy,
    owner: usize,
    name: &Name,
) -> Result<bool, OutOfMemory>
    ensures { IfOk result (λ lacks. lacks ≡ lacks_builtin policy.now owner name.now) }
{
    if owner == OWN_PLACE {
        return Ok(false);
    }
    match policy.row(name) {
        None => Ok(true),
        Some(row) => {
            let granted = builtins_of_keys(alloc, &row.builtin)?;
            Ok(granted.is_empty())
        }
    }
}

/// Whether a policy denies a package what it imports.
fn lacks(
    alloc: Global,
    packages: &[Package],
    policy: &Policy,
    owner: usize,
    name: &Name,
    import: Import,
) -> Result<bool, OutOfMemory>
    ensures { let lacks = lacks packages.now policy.now owner name.now import in
        IfOk result (λ is. is ≡ lacks) }
{
    match import {
        Import::Builtin => lacks_builtin(alloc, policy, owner, name),
        Import::Linked(to) => {
            let linked = Name::of(alloc, name_at(packages, to))?;
            Ok(!policy.may_import(name, &linked))
        }
    }
}

/// Appends a request, if the policy denies it.
fn push_denial(
    alloc: Global,
    packages: &[Package],
    policy: &Policy,
    owner: usize,
    request: &Name,
    import: Import,
    denials: &mut List<Denied>,
) -> Result<(), OutOfMemory>
    ensures { let denial = denial_of packages.now policy.now owner (request.now, import) in
        OnOk result (denials.new ≡ denials.old ++ option_to_list denial) }
{
    let name = Name::of(alloc, name_at(packages, owner))?;
    if lacks(alloc, packages, policy, owner, &name, import)? {
        denials.push(Denied {
            package: name,
            request: request.copy()?,
        })?;
    }
    Ok(())
}

/// Appends the requests of a package that the policy denies.
fn push_denials(
    alloc: Global,
    packages: &[Package],
    policy: &Policy,
    owner: usize,
    imports: &Imports,
    denials: &mut List<Denied>,
) -> Result<(), OutOfMemory>
    ensures { let denied = filter_map (denial_of packages.now policy.now owner) imports.now in
        OnOk result (denials.new ≡ denials.old ++ denied) }
{
    let imports = imports.list(alloc)?;
    for (request, import) in imports.as_slice() {
        push_denial(alloc, packages, policy, owner, request, *import, denials)?;
    }
    Ok(())
}

/// The requests that the policy denies packages with these imports, by their places.
fn denied_of(
    alloc: Global,
    packages: &[Package],
    policy: &Policy,
    imports: &[Imports],
) -> Result<List<Denied>, OutOfMemory>
    requires { length imports.now ≡ length packages.now }
    ensures { let denied = denied_by_place packages.now policy.now imports.now in
        IfOk result (λ denials. denials ≡ denied) }
{
    let mut denials = List::new(alloc);
    for owner in 0..packages.len() {
        push_denials(
            alloc,
            packages,
            policy,
            owner,
            &imports[owner],
            &mut denials,
        )?;
    }
    Ok(denials)
}

/// The literal requests of reached modules that a merged policy denies, by package, then request, in byte order, each once: the built-in module where the policy grants the package no part of it, and a linked package that it may not import. The application's own package is denied nothing, and what has no link is not denied.
pub fn denied(
    alloc: Global,
    app: &Application<ModuleCode>,
    policy: &Policy,
) -> Result<List<Denied>, OutOfMemory>
    ensures { IfOk result (λ denials. denials ≡ denied_in app.now policy.now) }
{
    let imports = imports_of_packages(alloc, app)?;
    denied_of(alloc, app.packages(), policy, imports.as_slice())
}

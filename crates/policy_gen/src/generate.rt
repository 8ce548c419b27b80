// The policy that the sources of an application show.

ghost use Rattle.std.specs.Prelude.{◌≡◌, length, IfOk, OnOk, IsTrue};
ghost use Rattle.std.specs.List.{list_any};
ghost use Rattle.pkg_load.specs.Requirements.{package_at};
ghost use Rattle.policy_row.specs.Rows.{with_entry, are_kept, is_kept};
ghost use Rattle.policy_row.specs.declared.grade.Kind.TheVariants as kind;
ghost use Rattle.policy_gen.specs.Generated.{is_builtin_import, builtin_entries, with_package, package_entries, row_for, generated};
ghost use Rattle.policy_gen.specs.Passes.{rows_by_place};

use crate::grades::Grades;
use crate::imports::{Import, Imports, imports_of_packages};
use crate::kept_keys::kept_keys;
use crate::used_keys::keys_of_packages;
use lava_base::list::List;
use lava_base::memory::OutOfMemory;
use lava_base::name::Name;
use pkg_graph::graph::Package;
use pkg_load::load::Application;
use pkg_load::requirement::name_at;
use pkg_source::code::ModuleCode;
use policy_globals::host::HostObject;
use policy_row::grade::Grade;
use policy_row::policy::Policy;
use policy_row::row::Row;
use std::alloc::Global;

/// Whether it is the built-in module that is imported.
fn is_builtin_import(import: Import) -> bool
    ensures { result ≡ is_builtin_import import }
{
    match import {
        Import::Builtin => true,
        Import::Linked(_) => false,
    }
}

/// Whether some request imports the built-in module.
fn imports_builtin(imports: &[(Name, Import)]) -> bool
    ensures { result ≡ list_any (λ e. is_builtin_import e.1) imports.now }
{
    imports.iter().any(|e| is_builtin_import(e.1))
}

/// The built-in module, where some request imports it.
fn builtin_entries(
    alloc: Global,
    imports: &[(Name, Import)],
) -> Result<List<(Name, Grade)>, OutOfMemory>
    ensures entries { IfOk result (λ es. es ≡ builtin_entries imports.now) }
    ensures kept { IfOk result (λ es. IsTrue (are_kept kind.Builtin es)) }
{
    let mut entries = List::new(alloc);
    if imports_builtin(imports) {
        entries.push((Name::of(alloc, HostObject::Fs.name())?, Grade::Yes))?;
    }
    Ok(entries)
}

/// Grants a package that is imported.
fn put_package(
    alloc: Global,
    packages: &[Package],
    grades: &mut Grades,
    import: Import,
) -> Result<(), OutOfMemory>
    ensures { OnOk result (grades.new ≡ with_package packages.now grades.old import) }
{
    match import {
        Import::Builtin => Ok(()),
        Import::Linked(to) => grades.raise(alloc, name_at(packages, to), Grade::Yes),
    }
}

/// The packages that requests import, in byte order.
fn package_entries(
    alloc: Global,
    packages: &[Package],
    imports: &[(Name, Import)],
) -> Result<List<(Name, Grade)>, OutOfMemory>
    ensures entries { IfOk result (λ es. es ≡ package_entries packages.now imports.now) }
    ensures kept { IfOk result (λ es. IsTrue (are_kept kind.Packages es)) }
{
    let mut grades = Grades::new(alloc);
    for e in imports {
        put_package(alloc, packages, &mut grades, e.1)?;
    }
    let entries = grades.list(alloc)?;
    Ok(entries)
}

/// The row of a package with these keys and imports.
fn row_for(
    alloc: Global,
    packages: &[Package],
    keys: &Grades,
    imports: &Imports,
) -> Result<Row, OutOfMemory>
    ensures row { IfOk result (λ row. row ≡ row_for packages.now keys.now imports.now) }
    ensures kept { IfOk result (λ row. IsTrue (is_kept row)) }
{
    let imports = imports.list(alloc)?;
    Ok(Row {
        globals: kept_keys(alloc, keys)?,
        builtin: builtin_entries(alloc, imports.as_slice())?,
        packages: package_entries(alloc, packages, imports.as_slice())?,
    })
}

/// Puts the row of a package.
fn put_row(
    alloc: Global,
    packages: &[Package],
    owner: usize,
    keys: &Grades,
    imports: &Imports,
    policy: &mut Policy,
) -> Result<(), OutOfMemory>
    ensures { let row = row_for packages.now keys.now imports.now in
        let name = (package_at packages.now owner).name in
        OnOk result (policy.new ≡ with_entry policy.old name row) }
{
    let row = row_for(alloc, packages, keys, imports)?;
    policy.put(alloc, name_at(packages, owner), row)
}

/// The policy of packages with these keys and imports, by their places.
fn policy_of(
    alloc: Global,
    packages: &[Package],
    keys: &[Grades],
    imports: &[Imports],
) -> Result<Policy, OutOfMemory>
    requires keys { length keys.now ≡ length packages.now }
    requires imports { length imports.now ≡ length packages.now }
    ensures { IfOk result (λ policy. policy ≡ rows_by_place packages.now keys.now imports.now) }
{
    let mut policy = Policy::new(alloc);
    for owner in 1..packages.len() {
        put_row(
            alloc,
            packages,
            owner,
            &keys[owner],
            &imports[owner],
            &mut policy,
        )?;
    }
    Ok(policy)
}

/// The policy that grants each package but the application's own what the sources of its reached modules show, and nothing more: the free paths, cut to two names, of which no proper prefix is used; the built-in module where some literal request imports it; and the linked packages that literal requests import. What a source asks for by a computed text is not granted.
///
/// It takes one pass over the modules for the keys, and one for the imports.
pub fn generate(alloc: Global, app: &Application<ModuleCode>) -> Result<Policy, OutOfMemory>
    ensures { IfOk result (λ policy. policy ≡ generated app.now) }
{
    let keys = keys_of_packages(alloc, app)?;
    let imports = imports_of_packages(alloc, app)?;
    policy_of(alloc, app.packages(), keys.as_slice(), imports.as_slice())
}

// What the modules of each package use of globals.

ghost use Rattle.std.specs.Prelude.{◌≡◌, [], fold, replicate, IfOk, OnOk};
ghost use Rattle.js_scope.specs.FreePaths as spec;
ghost use Rattle.policy_gen.specs.Passes.{with_module_keys, keys_by_place};
ghost use Rattle.policy_gen.specs.Uses.{write_grade, with_key, with_path, with_code};

use crate::grades::Grades;
use crate::path_key::path_key;
use js_scope::free_paths::{FreePath, free_paths};
use js_scope::resolve::Resolved;
use lava_base::memory::OutOfMemory;
use pkg_load::load::Application;
use pkg_load::module::LoadedModule;
use pkg_source::code::ModuleCode;
use policy_globals::intrinsic::is_intrinsic_name;
use policy_globals::keys::first_of;
use policy_row::grade::Grade;
use std::alloc::Global;

/// The grade that a use wants.
fn grade_of(write: bool) -> Grade
    ensures { result ≡ write_grade write }
{
    if write { Grade::Write } else { Grade::Yes }
}

/// Takes in a use of a key, unless its first name is an intrinsic's.
fn add_key(alloc: Global, keys: &mut Grades, key: &str, grade: Grade) -> Result<(), OutOfMemory>
    ensures { OnOk result (keys.new ≡ with_key keys.old key.now grade) }
{
    if is_intrinsic_name(first_of(key)) {
        return Ok(());
    }
    keys.raise(alloc, key, grade)
}

/// Takes in a free path.
fn add_path(alloc: Global, keys: &mut Grades, path: &FreePath) -> Result<(), OutOfMemory>
    ensures { OnOk result (keys.new ≡ with_path keys.old path.now) }
{
    let key = path_key(alloc, path)?;
    add_key(alloc, keys, key.as_str(), grade_of(path.write))
}

/// Takes in free paths.
fn add_paths(alloc: Global, keys: &mut Grades, paths: &[FreePath]) -> Result<(), OutOfMemory>
    ensures { OnOk result (keys.new ≡ fold with_path keys.old paths.now) }
{
    for path in paths {
        add_path(alloc, keys, path)?;
    }
    Ok(())
}

/// Takes in the free paths of a source.
fn add_source(alloc: Global, keys: &mut Grades, resolved: &Resolved) -> Result<(), OutOfMemory>
    ensures { let paths = spec.free_paths resolved.now.findings in
        OnOk result (keys.new ≡ fold with_path keys.old paths) }
{
    let paths = free_paths(alloc, resolved)?;
    add_paths(alloc, keys, paths.as_slice())
}

/// Takes in the free paths of a module, of which a text of JSON has none.
fn add_code(alloc: Global, keys: &mut Grades, code: &ModuleCode) -> Result<(), OutOfMemory>
    ensures { OnOk result (keys.new ≡ with_code keys.old code.now) }
{
    match code {
        ModuleCode::Source(resolved) => add_source(alloc, keys, resolved),
        ModuleCode::Json => Ok(()),
    }
}

/// Takes in a module, for its package.
fn add_module(
    alloc: Global,
    all: &mut Vec<Grades>,
    loaded: &LoadedModule<ModuleCode>,
) -> Result<(), OutOfMemory>
    ensures { OnOk result (all.new.items ≡ with_module_keys all.old.items loaded.now) }
{
    let owner = loaded.owner;
    if owner < all.len() {
        add_code(alloc, &mut all[owner], &loaded.code)?;
    }
    Ok(())
}

/// No keys, for each of so many packages.
fn no_keys(alloc: Global, count: usize) -> Result<Vec<Grades>, OutOfMemory>
    ensures { IfOk result (λ all. all.items ≡ replicate count []) }
{
    let mut all = Vec::new(alloc);
    for _ in 0..count {
        all.push(Grades::new(alloc))?;
    }
    Ok(all)
}

/// The keys of each package, by its place.
pub(crate) fn keys_of_packages(
    alloc: Global,
    app: &Application<ModuleCode>,
) -> Result<Vec<Grades>, OutOfMemory>
    ensures { IfOk result (λ all. all.items ≡ keys_by_place app.now) }
{
    let mut all = no_keys(alloc, app.packages().len())?;
    for loaded in app.modules() {
        add_module(alloc, &mut all, loaded)?;
    }
    Ok(all)
}

// The application in a folder in memory.

ghost use Rattle.std.specs.Prelude.{◌≡◌, ◌++◌, ◌∷◌, [], ◌<◌, ◌≤◌, IfOk, OnOk};
ghost use Rattle.lava_big.specs.BigFiles.{big_files, package_files, packages_files, root_files};
ghost use Rattle.lava_streams.specs.Failures.{no_failures};

use crate::sources::{
    package_manifest, package_path, package_source, policy, root_manifest, root_source,
};
use crate::texts::{INDEX_PATH, MANIFEST_PATH, POLICY_FILE, ROOT_INDEX, ROOT_MANIFEST};
use lava_base::memory::OutOfMemory;
use lava_streams::memory_folder::MemoryFolder;
use std::alloc::Global;

/// How many packages there are at most.
pub const MAX_PACKAGES: u32 = 200;

/// Adds a file.
fn add_file(folder: &mut MemoryFolder, path: &str, text: &str) -> Result<(), OutOfMemory>
    ensures files { let more = (path.now, text.now) ∷ [] in
        OnOk result (folder.new.files ≡ folder.old.files ++ more) }
    ensures failing { OnOk result (folder.new.failing ≡ folder.old.failing) }
{
    folder.add(path, text.as_bytes())
}

/// Adds the files of the application's own package.
fn add_root(alloc: Global, folder: &mut MemoryFolder, count: u32) -> Result<(), OutOfMemory>
    requires { count ≤ MAX_PACKAGES }
    ensures files { let more = root_files count in
        OnOk result (folder.new.files ≡ folder.old.files ++ more) }
    ensures failing { OnOk result (folder.new.failing ≡ folder.old.failing) }
{
    let manifest = root_manifest(alloc, count)?;
    let source = root_source(alloc, count)?;
    let rows = policy(alloc, count)?;
    add_file(folder, ROOT_MANIFEST, manifest.as_str())?;
    add_file(folder, ROOT_INDEX, source.as_str())?;
    add_file(folder, POLICY_FILE, rows.as_str())
}

/// Adds the files of the package that has so many before it.
fn add_package(alloc: Global, folder: &mut MemoryFolder, below: u32) -> Result<(), OutOfMemory>
    requires { below < MAX_PACKAGES }
    ensures files { let more = package_files below in
        OnOk result (folder.new.files ≡ folder.old.files ++ more) }
    ensures failing { OnOk result (folder.new.failing ≡ folder.old.failing) }
{
    let manifest_path = package_path(alloc, below, MANIFEST_PATH)?;
    let manifest = package_manifest(alloc, below)?;
    let index_path = package_path(alloc, below, INDEX_PATH)?;
    let source = package_source(alloc, below)?;
    add_file(folder, manifest_path.as_str(), manifest.as_str())?;
    add_file(folder, index_path.as_str(), source.as_str())
}

/// Adds the files of the packages.
#[tactic(auto, using(crate::proofs::Steps::packages_one_more))]
fn add_packages(alloc: Global, folder: &mut MemoryFolder, count: u32) -> Result<(), OutOfMemory>
    requires { count ≤ MAX_PACKAGES }
    ensures files { let more = packages_files count in
        OnOk result (folder.new.files ≡ folder.old.files ++ more) }
    ensures failing { OnOk result (folder.new.failing ≡ folder.old.failing) }
{
    for below in 0..count {
        add_package(alloc, folder, below)?;
    }
    Ok(())
}

/// A folder with the files of the application of so many packages, which stands in the directory `app`: packages `p1` to `pN` in its top `node_modules`, and no call on the folder is to fail.
#[tactic(auto, using(crate::proofs::Steps::same_state))]
pub fn big_app(alloc: Global, n: u32) -> Result<MemoryFolder, OutOfMemory>
    requires { (1 ≤ n) × (n ≤ MAX_PACKAGES) }
    ensures { IfOk result (λ f. f ≡ record { files = big_files n; failing = no_failures }) }
{
    let mut folder = MemoryFolder::new(alloc);
    add_root(alloc, &mut folder, n)?;
    add_packages(alloc, &mut folder, n)?;
    Ok(folder)
}

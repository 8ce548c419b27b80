// What stands at a directory of the application.

ghost use Rattle.std.specs.Prelude.{◌≡◌, Some, IfOk, string_bytes};
ghost use Rattle.lava_streams.specs.Counts.{Counts};
ghost use Rattle.lava_streams.specs.Files.{Files};
ghost use Rattle.pkg_graph.specs.Worlds.{manifest_path, package_dir, standing_of, standing_at, read_as};

use crate::field::Field;
use crate::manifest::{Manifest, ManifestRead, read_manifest};
use lava_base::memory::OutOfMemory;
use lava_streams::fault::ReadFault;
use lava_streams::folder::{FileRead, Folder};
use std::alloc::Global;

/// How many bytes a manifest has at most.
pub const FILE_LIMIT: u32 = 1_048_576;

/// The path of a package's manifest below its directory.
pub const MANIFEST_FILE: &str = "/package.json";

/// Where packages stand below a directory.
pub const PACKAGES_DIRECTORY: &str = "/node_modules/";

/// The manifest that stands at a directory.
#[derive(Drop)]
pub enum Standing {
    /// It has more bytes than the limit.
    Longer,
    /// The first field that has not its form.
    Refused(Field),
    /// What it says.
    Manifest(Manifest),
}

/// The path of a directory's manifest.
fn manifest_path(alloc: Global, root: &str, dir: &str) -> Result<String, OutOfMemory>
    ensures { IfOk result (λ path. string_bytes path ≡ manifest_path root.now dir.now) }
{
    let mut path = String::from_str(alloc, root)?;
    path.push_str(dir)?;
    path.push_str(MANIFEST_FILE)?;
    Ok(path)
}

/// The directory of a package with this name that stands under a directory.
pub fn package_dir(alloc: Global, under: &str, name: &str) -> Result<String, OutOfMemory>
    ensures { IfOk result (λ dir. string_bytes dir ≡ package_dir under.now name.now) }
{
    let mut dir = String::from_str(alloc, under)?;
    dir.push_str(PACKAGES_DIRECTORY)?;
    dir.push_str(name)?;
    Ok(dir)
}

/// What the bytes of a manifest are.
fn read_as(alloc: Global, bytes: &[u8]) -> Result<Standing, OutOfMemory>
    ensures { IfOk result (λ s. s ≡ read_as bytes.now) }
{
    match read_manifest(alloc, bytes)? {
        ManifestRead::Refused(field) => Ok(Standing::Refused(field)),
        ManifestRead::Manifest(manifest) => Ok(Standing::Manifest(manifest)),
    }
}

/// What a reading of a manifest gives, if there is one.
fn standing_of(alloc: Global, read: FileRead) -> Result<Option<Standing>, OutOfMemory>
    ensures { IfOk result (λ s. s ≡ standing_of read) }
{
    match read {
        FileRead::Absent => Ok(None),
        FileRead::Longer => Ok(Some(Standing::Longer)),
        FileRead::Bytes(bytes) => Ok(Some(read_as(alloc, bytes.as_slice())?)),
    }
}

/// The manifest at a directory below the application's folder, if there is one.
pub fn find_standing<F: Folder>(
    alloc: Global,
    root: &str,
    dir: &str,
    folder: &mut F,
) -> Result<Option<Standing>, ReadFault>
    ensures tells { (F.stand folder.new).told ≡ (F.stand folder.old).told }
    ensures counts { Counts (F.stand folder.old).count (F.stand folder.new).count result }
    ensures gives { (files : Files) → (F.stand folder.old).told ≡ Some files
        → IfOk result (λ s. s ≡ standing_at files root.now dir.now) }
{
    let path = manifest_path(alloc, root, dir)?;
    let read = folder.read(alloc, path.as_str(), FILE_LIMIT)?;
    let standing = standing_of(alloc, read)?;
    Ok(standing)
}

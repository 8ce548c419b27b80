// Where the name of a dependency leads.

ghost use Rattle.std.specs.Prelude.{◌≡◌, ◌<◌, ◌∷◌, [], length, Some, IfOk, IfSome, MatchOption, map, string_bytes};
ghost use Rattle.lava_streams.specs.Counts.{Counts};
ghost use Rattle.lava_streams.specs.Files.{Files};
ghost use Rattle.pkg_graph.specs.Worlds.{world_of, directories_above};
ghost use Rattle.pkg_graph.specs.Reading.{nearest, IsPlaced};

use crate::standing::{Standing, find_standing, package_dir};
use indexmap::IndexSet;
use lava_base::name::Name;
use lava_streams::fault::ReadFault;
use lava_streams::folder::Folder;
use std::alloc::Global;

/// Where the name of a dependency leads.
#[derive(Drop)]
pub enum Nearest {
    /// To no package.
    Nowhere,
    /// To a package that was found before, by its place among these.
    Known(usize),
    /// To a package that is new: its directory and its manifest.
    New(Name, Standing),
}

/// The directory that a directory stands in, but for the application's folder.
fn above(under: &str) -> Option<&str>
    ensures above { MatchOption result
        (directories_above under.now ≡ under.now ∷ [])
        (λ up. directories_above under.now ≡ under.now ∷ directories_above up.now) }
    ensures shorter { IfSome result (λ up. length up.now < length under.now) }
{
    match under.rsplit_once('/') {
        None => None,
        Some((up, _)) => Some(up),
    }
}

/// The nearest package with this name, under a directory or one that it stands in.
pub fn find_nearest<F: Folder>(
    alloc: Global,
    root: &str,
    under: &str,
    name: &str,
    dirs: &IndexSet<String>,
    folder: &mut F,
) -> Result<Nearest, ReadFault>
    ensures tells { (F.stand folder.new).told ≡ (F.stand folder.old).told }
    ensures counts { Counts (F.stand folder.old).count (F.stand folder.new).count result }
    ensures gives { (files : Files) → (F.stand folder.old).told ≡ Some files →
        let above = directories_above under.now in
        let world = world_of files root.now in
        IfOk result (λ n. n ≡ nearest world (map string_bytes dirs.now.keys) above name.now) }
    ensures placed { IfOk result (λ n. IsPlaced (map string_bytes dirs.now.keys) n) }
{
    let dir = package_dir(alloc, under, name)?;
    match dirs.get_index_of(dir.as_str()) {
        Some(place) => Ok(Nearest::Known(place)),
        None => {
            let standing = find_standing(alloc, root, dir.as_str(), folder)?;
            match standing {
                Some(standing) => Ok(Nearest::New(Name::of(alloc, dir.as_str())?, standing)),
                None => match above(under) {
                    None => Ok(Nearest::Nowhere),
                    Some(up) => find_nearest(alloc, root, up, name, dirs, folder),
                },
            }
        }
    }
}

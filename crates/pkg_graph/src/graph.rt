// The packages of an application, with where their dependency names lead.

ghost use Rattle.std.specs.Prelude.{◌≡◌, Some};
ghost use Rattle.lava_streams.specs.Files.{Files};
ghost use Rattle.pkg_graph.specs.Worlds.{world_of};
ghost use Rattle.pkg_graph.specs.Faults.{CountsFolder, Agrees};
ghost use Rattle.pkg_graph.specs.Naming.{read_from, graph_of};
ghost use Rattle.pkg_graph.specs.Graphs.{IsGraphAnswer};

use crate::fault::GraphFault;
use crate::link::Link;
use crate::order::packages_of;
use crate::reading::{Reading, read_on, start};
use crate::standing::find_standing;
use lava_base::list::List;
use lava_base::name::Name;
use lava_streams::folder::Folder;
use std::alloc::Global;
use std::marker::Model;

/// A package of an application.
#[derive(Drop)]
pub struct Package {
    /// What stands behind the application's folder in the path of its directory: nothing, or a `/` and its path below it.
    pub dir: Name,
    /// Its canonical name: `$root$` for the application's own, else the names of the dependency path to it, joined by `>`.
    pub name: Name,
    /// The path of its main module, as its manifest writes it.
    pub main: Name,
    /// Where the names of its dependencies lead, in byte order of the names.
    pub links: List<Link>,
}

/// The packages of an application, `$root$` first and the others in byte order of their names. Only `read_graph` makes one.
#[derive(Drop)]
pub struct Graph {
    packages: List<Package>,
}

impl Model for Graph {
    ghost use Rattle.std.specs.Prelude.{List as Listed};
    ghost use Rattle.pkg_graph.specs.declared.graph.Package.{Package};

    ghost Value = { Listed Package };

    ghost view = { λ g. g.packages };
}

impl Graph {
    /// The packages, in byte order of their names.
    pub fn packages(&self) -> &[Package]
        ensures { result.now ≡ self.now }
    {
        self.packages.as_slice()
    }
}

/// The packages that follow from a reading that has begun.
fn read_from<F: Folder>(
    alloc: Global,
    dir: &str,
    reading: Reading,
    folder: &mut F,
) -> Result<Graph, GraphFault>
    ensures tells { (F.stand folder.new).told ≡ (F.stand folder.old).told }
    ensures counts { CountsFolder (F.stand folder.old).count (F.stand folder.new).count result }
    ensures gives { (files : Files) → (F.stand folder.old).told ≡ Some files →
        Agrees (read_from (world_of files dir.now) reading) result }
{
    let mut reading = reading;
    read_on(alloc, dir, &mut reading, folder)?;
    let packages = packages_of(alloc, &reading)?;
    Ok(Graph { packages })
}

/// The packages of the application in a directory of the folder.
fn read_packages<F: Folder>(alloc: Global, dir: &str, folder: &mut F) -> Result<Graph, GraphFault>
    ensures tells { (F.stand folder.new).told ≡ (F.stand folder.old).told }
    ensures counts { CountsFolder (F.stand folder.old).count (F.stand folder.new).count result }
    ensures gives { (files : Files) → (F.stand folder.old).told ≡ Some files →
        Agrees (graph_of (world_of files dir.now)) result }
{
    let standing = find_standing(alloc, dir, "", folder)?;
    let reading = start(alloc, standing)?;
    read_from(alloc, dir, reading, folder)
}

/// Reads the packages of the application in a directory of the folder. Each manifest that is found is read once, and judged when it is found; packages are read breadth first, names in byte order.
///
/// # Errors
///
/// `Manifest` for the first manifest in reading order that is no JSON object or has a field that has not its form; `TooMany` for a package past `PACKAGE_LIMIT` or a manifest past `FILE_LIMIT` bytes; `Folder` where a call on the folder failed.
pub fn read_graph<F: Folder>(alloc: Global, dir: &str, folder: &mut F) -> Result<Graph, GraphFault>
    ensures tells { (F.stand folder.new).told ≡ (F.stand folder.old).told }
    ensures counts { CountsFolder (F.stand folder.old).count (F.stand folder.new).count result }
    ensures gives { (files : Files) → (F.stand folder.old).told ≡ Some files →
        Agrees (graph_of (world_of files dir.now)) result }
    ensures says { (files : Files) → (F.stand folder.old).told ≡ Some files →
        IsGraphAnswer (world_of files dir.now) result }
{
    read_packages(alloc, dir, folder)
}

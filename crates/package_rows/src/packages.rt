// Folders of packages: their graphs, and the modules that are loaded of them.

mod folders;
mod graphs;
mod loads;
mod words;

use self::folders::{all_on_all, chain, failing, files_of, long, requiring, star};
use self::graphs::{shown, summary};
use self::loads::{count_of, modules_of};
use crate::fault::Fault;
use lava_streams::memory_folder::MemoryFolder;
use pkg_graph::graph::read_graph;
use std::alloc::Global;

/// `package KIND REST`: what packages or modules the folder has, or why none.
pub fn row(alloc: Global, line: &str) -> Result<String, Fault> {
    let (kind, rest) = line.split_once(' ').unwrap_or((line, ""));
    match kind {
        "files" => packages(alloc, files_of(alloc, rest)?),
        "fails" => packages(alloc, failing(alloc, rest)?),
        "chain" => count(alloc, chain(alloc, rest)?),
        "star" => count(alloc, star(alloc, rest)?),
        "all" => count(alloc, all_on_all(alloc, rest)?),
        "load" => modules_of(alloc, files_of(alloc, rest)?),
        "load-fails" => modules_of(alloc, failing(alloc, rest)?),
        "requiring" => count_of(alloc, requiring(alloc, rest)?),
        "long" => count_of(alloc, long(alloc, rest)?),
        _ => Err(Fault::Line),
    }
}

/// The packages of a folder.
fn packages(alloc: Global, folder: MemoryFolder) -> Result<String, Fault> {
    let mut folder = folder;
    shown(alloc, read_graph(alloc, "app", &mut folder))
}

/// How many packages a folder has, and the last of them.
fn count(alloc: Global, folder: MemoryFolder) -> Result<String, Fault> {
    let mut folder = folder;
    summary(alloc, read_graph(alloc, "app", &mut folder))
}

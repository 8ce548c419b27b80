// What is loaded of folders.

use super::words::Words;
use crate::fault::Fault;
use crate::refusals::{refused_graph, refused_load};
use lava_streams::memory_folder::MemoryFolder;
use pkg_graph::graph::read_graph;
use pkg_load::fault::LoadFault;
use pkg_load::load::{Application, load};
use pkg_load::module::LoadedModule;
use std::alloc::Global;

/// A line of the modules of a folder in load order, `OWNER:PATH` each, or the fault.
pub fn modules_of(alloc: Global, folder: MemoryFolder) -> Result<String, Fault> {
    let mut folder = folder;
    match read_graph(alloc, "app", &mut folder) {
        Ok(graph) => shown(alloc, load(alloc, "app", graph, &Words, &mut folder)),
        Err(fault) => refused_graph(alloc, &fault),
    }
}

/// How many modules a folder has, and the path of the last, or the fault.
pub fn count_of(alloc: Global, folder: MemoryFolder) -> Result<String, Fault> {
    let mut folder = folder;
    match read_graph(alloc, "app", &mut folder) {
        Ok(graph) => summary(alloc, load(alloc, "app", graph, &Words, &mut folder)),
        Err(fault) => refused_graph(alloc, &fault),
    }
}

fn shown(alloc: Global, loaded: Result<Application<usize>, LoadFault>) -> Result<String, Fault> {
    match loaded {
        Ok(application) => modules(alloc, application.modules()),
        Err(fault) => refused_load(alloc, &fault),
    }
}

fn summary(alloc: Global, loaded: Result<Application<usize>, LoadFault>) -> Result<String, Fault> {
    match loaded {
        Ok(application) => last(alloc, application.modules()),
        Err(fault) => refused_load(alloc, &fault),
    }
}

fn modules(alloc: Global, modules: &[LoadedModule<usize>]) -> Result<String, Fault> {
    let mut line = String::new(alloc);
    for module in modules {
        if !line.is_empty() {
            line.push(' ')?;
        }
        let owner = module.owner;
        let path = module.path.as_str();
        let shown = format!(in alloc; "{owner}:{path}")?;
        line.push_str(shown.as_str())?;
    }
    Ok(line)
}

fn last(alloc: Global, modules: &[LoadedModule<usize>]) -> Result<String, Fault> {
    let count = modules.len();
    let path = match modules.last() {
        Some(module) => module.path.as_str(),
        None => "",
    };
    Ok(format!(in alloc; "{count} {path}")?)
}

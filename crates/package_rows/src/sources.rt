// Applications of the language.

use crate::bytes::bytes_of;
use crate::fault::Fault;
use crate::files::add_file;
use crate::refusals::{refused_graph, refused_load};
use lava_streams::memory_folder::MemoryFolder;
use pkg_graph::graph::{Graph, read_graph};
use pkg_load::load::{Application, load};
use pkg_load::module::LoadedModule;
use pkg_source::code::{ModuleCode, discard};
use pkg_source::reader::SourceReader;
use std::alloc::Global;

/// `source PATH=TEXT|..`: the modules of the folder in load order, `OWNER:PATH` each with its requests, or the fault.
pub fn row(alloc: Global, files: &str) -> Result<String, Fault> {
    let mut folder = MemoryFolder::new(alloc);
    for file in files.split('|') {
        if let Some((path, text)) = file.split_once('=') {
            add(alloc, &mut folder, path, text)?;
        }
    }
    modules_of(alloc, &mut folder)
}

fn add(alloc: Global, folder: &mut MemoryFolder, path: &str, text: &str) -> Result<(), Fault> {
    let bytes = bytes_of(alloc, text)?;
    add_file(alloc, folder, path, bytes.as_slice())?;
    Ok(())
}

fn modules_of(alloc: Global, folder: &mut MemoryFolder) -> Result<String, Fault> {
    match read_graph(alloc, "app", folder) {
        Ok(graph) => loaded(alloc, graph, folder),
        Err(fault) => refused_graph(alloc, &fault),
    }
}

fn loaded(alloc: Global, graph: Graph, folder: &mut MemoryFolder) -> Result<String, Fault> {
    match load(alloc, "app", graph, &SourceReader, folder) {
        Ok(application) => {
            let text = shown(alloc, &application);
            discard(application);
            text
        }
        Err(fault) => refused_load(alloc, &fault),
    }
}

fn shown(alloc: Global, application: &Application<ModuleCode>) -> Result<String, Fault> {
    let mut line = String::new(alloc);
    for module in application.modules() {
        if !line.is_empty() {
            line.push_str("; ")?;
        }
        add_module(alloc, &mut line, module)?;
    }
    Ok(line)
}

fn add_module(
    alloc: Global,
    line: &mut String,
    module: &LoadedModule<ModuleCode>,
) -> Result<(), Fault> {
    let owner = module.owner;
    let path = module.path.as_str();
    let kind = match &module.code {
        ModuleCode::Source(_) => "",
        ModuleCode::Json => " json",
    };
    let shown = format!(in alloc; "{owner}:{path}{kind}")?;
    line.push_str(shown.as_str())?;
    for request in module.requests.as_slice() {
        line.push(' ')?;
        line.push_str(request.as_str())?;
    }
    Ok(())
}

// Graphs as a line shows them.

use crate::fault::Fault;
use crate::refusals::refused_graph;
use pkg_graph::fault::GraphFault;
use pkg_graph::graph::{Graph, Package};
use std::alloc::Global;

/// A line of packages, `NAME DIR MAIN NAME:TARGET ..` each, or the fault.
pub fn shown(alloc: Global, read: Result<Graph, GraphFault>) -> Result<String, Fault> {
    match read {
        Ok(graph) => packages(alloc, &graph),
        Err(fault) => refused_graph(alloc, &fault),
    }
}

/// How many packages there are, and the name of the last, or the fault.
pub fn summary(alloc: Global, read: Result<Graph, GraphFault>) -> Result<String, Fault> {
    match read {
        Ok(graph) => last(alloc, &graph),
        Err(fault) => refused_graph(alloc, &fault),
    }
}

fn packages(alloc: Global, graph: &Graph) -> Result<String, Fault> {
    let mut line = String::new(alloc);
    for package in graph.packages() {
        if !line.is_empty() {
            line.push_str("; ")?;
        }
        add_package(alloc, &mut line, package)?;
    }
    Ok(line)
}

fn add_package(alloc: Global, line: &mut String, package: &Package) -> Result<(), Fault> {
    line.push_str(package.name.as_str())?;
    line.push('|')?;
    line.push_str(package.dir.as_str())?;
    line.push('|')?;
    line.push_str(package.main.as_str())?;
    for link in package.links.as_slice() {
        let target = link.target;
        let shown = format!(in alloc; ":{target}")?;
        line.push(' ')?;
        line.push_str(link.name.as_str())?;
        line.push_str(shown.as_str())?;
    }
    Ok(())
}

fn last(alloc: Global, graph: &Graph) -> Result<String, Fault> {
    let packages = graph.packages();
    let count = packages.len();
    let name = match packages.last() {
        Some(package) => package.name.as_str(),
        None => "",
    };
    Ok(format!(in alloc; "{count} {name}")?)
}

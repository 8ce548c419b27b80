// Why there are no packages or modules, as a line shows it.

use crate::fault::Fault;
use js_fault::fault::SyntaxWhat;
use pkg_graph::fault::GraphFault;
use pkg_load::fault::LoadFault;
use std::alloc::Global;

/// The fault of a graph.
pub fn refused_graph(alloc: Global, fault: &GraphFault) -> Result<String, Fault> {
    match fault {
        GraphFault::Manifest { dir, field } => {
            let dir = dir.as_str();
            let field = field.as_str();
            Ok(format!(in alloc; "manifest {dir} {field}")?)
        }
        GraphFault::TooMany { what, count } => too_many(alloc, what.as_str(), *count),
        GraphFault::Folder => Ok(String::from_str(alloc, "folder")?),
        GraphFault::OutOfMemory => Err(Fault::OutOfMemory),
    }
}

/// The fault of a loading.
pub fn refused_load(alloc: Global, fault: &LoadFault) -> Result<String, Fault> {
    match fault {
        LoadFault::Syntax {
            name,
            path,
            place,
            what,
        } => {
            let name = name.as_str();
            let path = path.as_str();
            let line = place.line;
            let unit = place.unit;
            let (word, rest) = words_of(what);
            Ok(format!(in alloc; "syntax {name} {path}:{line}:{unit} {word}{rest}")?)
        }
        LoadFault::Missing { name, request } => {
            let name = name.as_str();
            let request = request.as_str();
            Ok(format!(in alloc; "missing {name} {request}")?)
        }
        LoadFault::TooMany { what, count } => too_many(alloc, what.as_str(), *count),
        LoadFault::Folder => Ok(String::from_str(alloc, "folder")?),
        LoadFault::OutOfMemory => Err(Fault::OutOfMemory),
    }
}

/// What is wrong, and the name of it.
fn words_of(what: &SyntaxWhat) -> (&str, &str) {
    match what {
        SyntaxWhat::NotUtf8 => ("not utf-8", ""),
        SyntaxWhat::BadToken => ("bad token", ""),
        SyntaxWhat::Unsupported(name) => ("unsupported ", name.as_str()),
        SyntaxWhat::Unexpected => ("unexpected", ""),
        SyntaxWhat::TooDeep => ("too deep", ""),
        SyntaxWhat::Early(name) => ("early ", name.as_str()),
    }
}

fn too_many(alloc: Global, what: &str, count: u64) -> Result<String, Fault> {
    Ok(format!(in alloc; "too many {what} {count}")?)
}

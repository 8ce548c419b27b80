// Sources and their scopes.

use crate::fault::Fault;
use crate::names::push_name;
use crate::refusals::push_named_refusal;
use js_scope::finding::{Binding, Finding, NameUse};
use js_scope::free_paths::{FreePath, free_paths};
use js_scope::requests::requests;
use js_scope::resolve::{Resolved, resolve};
use js_text::text::Text;
use js_tree::tree::{Module, SourceKind};
use ses_prelude::js_parser::parse::parse_source;
use std::alloc::{AllocError, Global};

/// `scope SOURCE`: its free paths, its requests and the declared names that it uses, or the refusal.
pub fn push_row(alloc: Global, out: &mut String, line: &str) -> Result<(), Fault> {
    let source = line.replace(alloc, '¶', "\n")?;
    match parse_source(alloc, SourceKind::Module, source.as_bytes()) {
        Ok(module) => push_resolved(alloc, out, module)?,
        Err(fault) => push_named_refusal(out, &fault)?,
    }
    Ok(())
}

fn push_resolved(alloc: Global, out: &mut String, module: Module) -> Result<(), AllocError> {
    match resolve(alloc, module) {
        Ok(source) => {
            let pushed = push_scopes(alloc, out, &source);
            source.discard();
            pushed
        }
        Err(fault) => push_named_refusal(out, &fault),
    }
}

fn push_scopes(alloc: Global, out: &mut String, source: &Resolved) -> Result<(), AllocError> {
    out.push_str("free")?;
    show_paths(alloc, source, out)?;
    out.push_str("; requested")?;
    show_requests(alloc, source, out)?;
    out.push_str("; used")?;
    show_uses(source.findings.as_slice(), out)
}

fn show_paths(alloc: Global, source: &Resolved, out: &mut String) -> Result<(), AllocError> {
    match free_paths(alloc, source) {
        Ok(list) => show_path_list(list.as_slice(), out),
        Err(_) => out.push_str(" out of memory"),
    }
}

fn show_path_list(list: &[FreePath], out: &mut String) -> Result<(), AllocError> {
    for path in list {
        show_path(path, out)?;
    }
    Ok(())
}

/// Its names with points between them, and `=` where it writes.
fn show_path(path: &FreePath, out: &mut String) -> Result<(), AllocError> {
    show_names(path.names.as_slice(), out)?;
    show_mark(path.write, out)
}

fn show_names(names: &[Text], out: &mut String) -> Result<(), AllocError> {
    let mut mark = ' ';
    for name in names {
        out.push(mark)?;
        push_name(out, name)?;
        mark = '.';
    }
    Ok(())
}

fn show_mark(write: bool, out: &mut String) -> Result<(), AllocError> {
    if write {
        return out.push('=');
    }
    Ok(())
}

fn show_requests(alloc: Global, source: &Resolved, out: &mut String) -> Result<(), AllocError> {
    match requests(alloc, source) {
        Ok(list) => {
            for request in list.as_slice() {
                out.push(' ')?;
                push_name(out, &request.text)?;
                write!(out, "@{}:{}", request.place.line, request.place.unit)?;
            }
            Ok(())
        }
        Err(_) => out.push_str(" out of memory"),
    }
}

fn show_uses(list: &[Finding], out: &mut String) -> Result<(), AllocError> {
    for finding in list {
        show_finding(finding, out)?;
    }
    Ok(())
}

fn show_finding(finding: &Finding, out: &mut String) -> Result<(), AllocError> {
    match finding {
        Finding::Used(found) => show_use(found, out),
        Finding::Requested(_) => Ok(()),
    }
}

/// A declared name with the number of its scope and its place there.
fn show_use(found: &NameUse, out: &mut String) -> Result<(), AllocError> {
    match found.declaration {
        Some(binding) => show_binding(found, binding, out),
        None => Ok(()),
    }
}

fn show_binding(found: &NameUse, binding: Binding, out: &mut String) -> Result<(), AllocError> {
    out.push(' ')?;
    push_name(out, &found.name)?;
    write!(out, "@{}.{}", binding.scope, binding.at)?;
    show_mark(found.writes, out)
}

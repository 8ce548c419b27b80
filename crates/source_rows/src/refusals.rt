// Refusals of sources as rows print them.

use js_fault::fault::{SyntaxFault, SyntaxWhat};
use std::alloc::AllocError;

/// Appends what is wrong with a source, the name of it, and where.
pub fn push_refusal(out: &mut String, fault: &SyntaxFault) -> Result<(), AllocError> {
    match fault {
        SyntaxFault::At { place, what } => {
            let (word, name) = words_of(what);
            write!(out, "{word}{name} {}:{}", place.line, place.unit)
        }
        SyntaxFault::OutOfMemory => out.push_str("out of memory"),
    }
}

/// Appends `refused`, the name of what is wrong, and where.
pub fn push_named_refusal(out: &mut String, fault: &SyntaxFault) -> Result<(), AllocError> {
    match fault {
        SyntaxFault::At { place, what } => {
            let name = name_of(what);
            write!(out, "refused {name} {}:{}", place.line, place.unit)
        }
        SyntaxFault::OutOfMemory => out.push_str("out of memory"),
    }
}

/// What is wrong, and the name of it.
fn words_of(what: &SyntaxWhat) -> (&str, &str) {
    match what {
        SyntaxWhat::NotUtf8 => ("not utf-8", ""),
        SyntaxWhat::BadToken => ("bad token", ""),
        SyntaxWhat::Unsupported(name) => ("unsupported ", name.as_str()),
        SyntaxWhat::Unexpected => ("unexpected", ""),
        SyntaxWhat::TooDeep => ("too deep", ""),
        SyntaxWhat::Early(name) => ("early ", name.as_str()),
    }
}

/// The name of what is wrong, if it has one.
fn name_of(what: &SyntaxWhat) -> &str {
    match what {
        SyntaxWhat::Unsupported(name) => name.as_str(),
        SyntaxWhat::Early(name) => name.as_str(),
        _ => "syntax",
    }
}

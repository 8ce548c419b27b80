// Preludes and the templates of their functions.

use crate::fault::Fault;
use crate::names::push_name;
use crate::refusals::push_named_refusal;
use js_fault::fault::SyntaxFault;
use js_term::term::{Template, TemplateKind};
use ses_lockdown::intrinsics::Intrinsics;
use ses_prelude::prelude::{read_intrinsics, read_prelude};
use std::alloc::{AllocError, Global};

/// `prelude TEXT`, or `prelude prelude` for the product's own: the templates of its functions, or why it is none.
pub fn push_row(alloc: Global, out: &mut String, line: &str) -> Result<(), Fault> {
    match intrinsics_of(alloc, line) {
        Ok(intrinsics) => push_templates(alloc, out, intrinsics)?,
        Err(fault) => push_named_refusal(out, &fault)?,
    }
    Ok(())
}

fn intrinsics_of(alloc: Global, line: &str) -> Result<Intrinsics, SyntaxFault> {
    if line == "prelude" {
        return read_prelude(alloc);
    }
    let source = line.replace(alloc, '¶', "\n")?;
    read_intrinsics(alloc, source.as_bytes())
}

// (the one function that lets templates go, and at one place alone: that costs half a minute of proof)
fn push_templates(
    alloc: Global,
    out: &mut String,
    mut intrinsics: Intrinsics,
) -> Result<(), AllocError> {
    push_each(out, intrinsics.take_templates(alloc).as_slice())
}

fn push_each(out: &mut String, templates: &[Template]) -> Result<(), AllocError> {
    out.push_str("templates")?;
    for template in templates {
        push_template(out, template)?;
    }
    Ok(())
}

/// The kind, the name, the length, the parameters and the slots.
fn push_template(out: &mut String, template: &Template) -> Result<(), AllocError> {
    out.push_str(kind_of(template.kind))?;
    push_name(out, &template.name)?;
    let mark = if template.rest { "..." } else { "" };
    write!(
        out,
        "\" {} {}{mark} {}",
        template.length, template.params, template.slots
    )
}

fn kind_of(kind: TemplateKind) -> &'static str {
    match kind {
        TemplateKind::Built => "\nBuilt \"",
        TemplateKind::Method => "\nMethod \"",
        _ => "\nother \"",
    }
}

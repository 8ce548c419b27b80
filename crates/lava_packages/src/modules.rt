// The modules of an application as the machine runs them.

ghost use Rattle.std.specs.Prelude.{◌≡◌, ◌++◌, IfOk, OnOk};
ghost use Rattle.js_text.specs.Utf8.{units_of};
ghost use Rattle.lava_packages.specs.Modules.{source_of, sources_in, sources_of, template_of};

use js_term::term::Template;
use js_text::text::Text;
use js_text::utf8::from_utf8;
use lava_base::memory::OutOfMemory;
use lava_start::modules::SourceModule;
use pkg_load::module::LoadedModule;
use pkg_source::code::ModuleCode;
use ses_prelude::js_lower::modules::{lower, lower_json};
use std::alloc::Global;

/// The text of UTF-8. Want of memory is answered too where the bytes are not UTF-8, or are too many.
pub(crate) fn text_in(alloc: Global, bytes: &[u8]) -> Result<Text, OutOfMemory>
    ensures { IfOk result (λ text. text ≡ units_of bytes.now) }
{
    match from_utf8(alloc, bytes) {
        Ok(text) => Ok(text),
        Err(_) => Err(OutOfMemory),
    }
}

/// The template of a module.
fn template_of(alloc: Global, code: &ModuleCode, bytes: &[u8]) -> Result<Template, OutOfMemory>
    ensures { IfOk result (λ made. made ≡ template_of code.now bytes.now) }
{
    match code {
        ModuleCode::Source(resolved) => lower(alloc, &resolved.source),
        ModuleCode::Json => {
            let text = text_in(alloc, bytes)?;
            lower_json(alloc, &text)
        }
    }
}

/// A module as the machine runs it.
fn source_of(alloc: Global, loaded: &LoadedModule<ModuleCode>) -> Result<SourceModule, OutOfMemory>
    ensures { IfOk result (λ source. source ≡ source_of loaded.now) }
{
    let path = text_in(alloc, loaded.path.as_str().as_bytes())?;
    let template = template_of(alloc, &loaded.code, loaded.text.as_slice())?;
    Ok(SourceModule { path, template })
}

/// Appends a module, where it is of a package.
fn add_source(
    alloc: Global,
    owner: usize,
    loaded: &LoadedModule<ModuleCode>,
    sources: &mut Vec<SourceModule>,
) -> Result<(), OutOfMemory>
    ensures { let added = sources_in owner loaded.now in
        OnOk result (sources.new.items ≡ sources.old.items ++ added) }
{
    if loaded.owner == owner {
        let source = source_of(alloc, loaded)?;
        sources.push(source)?;
    }
    Ok(())
}

/// Appends the modules of a package, in load order.
fn add_sources(
    alloc: Global,
    owner: usize,
    mut modules: &[LoadedModule<ModuleCode>],
    sources: &mut Vec<SourceModule>,
) -> Result<(), OutOfMemory>
    ensures { let added = sources_of owner modules.entry.now in
        OnOk result (sources.new.items ≡ sources.old.items ++ added) }
{
    while let [first, rest @ ..] = modules {
        add_source(alloc, owner, first, sources)?;
        modules = rest;
    }
    Ok(())
}

/// The modules of a package, in load order.
pub fn sources_of(
    alloc: Global,
    owner: usize,
    modules: &[LoadedModule<ModuleCode>],
) -> Result<Vec<SourceModule>, OutOfMemory>
    ensures { IfOk result (λ made. made.items ≡ sources_of owner modules.now) }
{
    let mut sources = Vec::new(alloc);
    add_sources(alloc, owner, modules, &mut sources)?;
    Ok(sources)
}

// The modules of a package, and their templates.

ghost use Rattle.std.specs.Prelude.{◌∷◌, [], IfOk};
ghost use Rattle.lava_start.specs.Templates.{HaveSources, HaveTemplates, KeepsTemplates};

use js_code::code::Code;
use js_term::term::Template;
use js_text::text::Text;
use js_world::js_machine::package::Module;
use lava_base::memory::OutOfMemory;
use std::alloc::Global;

/// A module: its path in the package, and its template.
#[derive(Drop)]
pub struct SourceModule {
    pub path: Text,
    pub template: Template,
}

/// Appends templates, and gives their places.
pub fn add_templates(
    alloc: Global,
    code: &mut Code,
    templates: &[Template],
) -> Result<Vec<u32>, OutOfMemory>
    ensures places { IfOk result (λ places. HaveTemplates code.new places.items templates.now) }
    ensures keeps { KeepsTemplates code.old code.new }
{
    let mut places = Vec::new(alloc);
    for template in templates {
        let place = code.add_template(template)?;
        places.push(place)?;
    }
    Ok(places)
}

/// Appends the template of a module that has not begun.
fn add_module(code: &mut Code, source: &SourceModule) -> Result<Module, OutOfMemory>
    ensures module { IfOk result (λ m. HaveSources code.new (m ∷ []) (source.now ∷ [])) }
    ensures keeps { KeepsTemplates code.old code.new }
{
    let template = code.add_template(&source.template)?;
    Ok(Module {
        path: source.path.copy()?,
        template,
        begun: None,
    })
}

/// Appends the templates of modules, none of which has begun.
pub fn add_modules(
    alloc: Global,
    code: &mut Code,
    sources: &[SourceModule],
) -> Result<Vec<Module>, OutOfMemory>
    ensures modules { IfOk result (λ modules. HaveSources code.new modules.items sources.now) }
    ensures keeps { KeepsTemplates code.old code.new }
{
    let mut modules = Vec::new(alloc);
    for source in sources {
        let module = add_module(code, source)?;
        modules.push(module)?;
    }
    Ok(modules)
}

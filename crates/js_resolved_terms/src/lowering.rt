// The template of a source whose names are resolved.

ghost use Rattle.std.specs.Prelude.{◌≡◌, ℕ, List, IfOk};
ghost use Rattle.js_lower_table.specs.Table.{source_template_of};
ghost use Rattle.js_program.specs.Programs.{IsProgram};
ghost use Rattle.js_tree.specs.declared.tree.SourceKind.{SourceKind};
ghost use Rattle.js_valid.specs.Valid.{IsValid};

use js_lower::modules::lower as source_template;
use js_program_laws::laws::program_terms_are_valid;
use js_scope::resolve::Resolved;
use js_term::term::Template;
use lava_base::memory::OutOfMemory;
use std::alloc::Global;

/// The template of a module, or of a text that a compartment evaluates, whose names are resolved. `OutOfMemory` may come of any source.
pub fn lower(alloc: Global, resolved: &Resolved) -> Result<Template, OutOfMemory>
    ensures term { IfOk result (λ made. made ≡ source_template_of resolved.now.source) }
    ensures valid { (kind : SourceKind) (source : List ℕ) →
        IsProgram kind source resolved.now.source → IfOk result IsValid }
{
    program_terms_are_valid();
    source_template(alloc, &resolved.source)
}

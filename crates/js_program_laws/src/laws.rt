// Laws of programs.

ghost use Rattle.js_early.specs.Walks.{early_error};
ghost use Rattle.js_lower_laws.specs.Sound.{IsSound};
ghost use Rattle.js_lower_table.specs.Entries.{Below};
ghost use Rattle.js_lower_table.specs.Table.{source_template_of};
ghost use Rattle.js_lower_table.specs.Templates.{json_template};
ghost use Rattle.js_parser.specs.Trees.{IsModuleOf};
ghost use Rattle.js_program.specs.Programs.{IsProgram};
ghost use Rattle.js_program_laws.specs.Formed.{IsFormed};
ghost use Rattle.js_tree.specs.declared.tree.Module.{Module};
ghost use Rattle.js_tree.specs.declared.tree.SourceKind.{SourceKind};
ghost use Rattle.js_valid.specs.Valid.{IsValid};
ghost use Rattle.std.specs.Prelude.{◌≡◌, ℕ, List, None};

use js_grammar::laws::{levels, semicolons};
use js_lower_laws::laws::source_templates_are_valid;

/// The tree of a source is formed as the forms of the grammar make it, and no deeper than the early rules are looked at: each of its 256 levels is four parts
/// at most.
pub fn trees_are_formed()
    ensures { (kind : SourceKind) (source : List ℕ) (m : Module) →
        IsModuleOf kind source m → IsFormed m }
{
    semicolons();
    levels();
}

/// A tree that is formed so and has no early error is sound: each `break` and `continue` has its target, and each `super` stands where it may.
pub fn formed_trees_are_sound()
    ensures { (m : Module) → IsFormed m → early_error m ≡ None → IsSound m }
{}

/// The tree of each program is sound.
pub fn programs_are_sound()
    ensures { (kind : SourceKind) (source : List ℕ) (m : Module) →
        IsProgram kind source m → IsSound m }
{
    trees_are_formed();
    formed_trees_are_sound();
}

/// The term of each program is valid: the template of each module and each evaluated text that has a syntax tree and no early error, with all templates inside.
pub fn program_terms_are_valid()
    ensures { (kind : SourceKind) (source : List ℕ) (m : Module) →
        IsProgram kind source m → IsValid (source_template_of m) }
{
    programs_are_sound();
    source_templates_are_valid();
}

/// The template of each module whose source is JSON is valid.
pub fn json_templates_are_valid()
    ensures { (low : Below) (source : List ℕ) → IsValid (json_template low source) }
{}

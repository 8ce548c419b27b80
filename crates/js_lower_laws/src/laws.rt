// Laws of what lowering gives.

ghost use Rattle.js_lower_laws.specs.Sound.{IsSound};
ghost use Rattle.js_lower_table.specs.Table.{source_template_of};
ghost use Rattle.js_tree.specs.declared.tree.Module.{Module};
ghost use Rattle.js_valid.specs.Valid.{IsValid};

/// The template of a module or an evaluated text is a valid one, where each chain has a `?.`, each function the kind of its place, and jumps and `super` break no early rule.
pub fn source_templates_are_valid()
    ensures { (m : Module) → IsSound m → IsValid (source_template_of m) }
{}

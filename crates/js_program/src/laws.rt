// Laws of programs.

ghost use Rattle.std.specs.Prelude.{◌≡◌, ℕ, List};
ghost use Rattle.js_parser.specs.Trees.{IsModuleOf};
ghost use Rattle.js_tree.specs.declared.tree.Module.{Module};
ghost use Rattle.js_tree.specs.declared.tree.SourceKind.{SourceKind};

use js_grammar::laws::semicolons;
use js_lexer::laws::one_list;

/// A source has one syntax tree at most.
pub fn one_tree()
    ensures { (kind : SourceKind) (source : List ℕ) (a b : Module) →
        IsModuleOf kind source a → IsModuleOf kind source b → a ≡ b }
{
    one_list();
    semicolons();
}

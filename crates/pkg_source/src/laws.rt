// Laws of the reading of modules.

ghost use Rattle.pkg_source.specs.Laws.{One_module};

use js_program::laws::one_tree;

/// Bytes are read as one module at most, and what is no module is refused at one place for one reason, but for the name of a form that is left out. So there is a function that says of all bytes which module they are, or at which place they are refused and why; `load` is over each such function.
#[tactic(none)]
pub fn one_module()
    ensures { One_module }
{
    one_tree();
}

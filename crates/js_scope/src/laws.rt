// Laws of the definitions.

ghost use Rattle.js_scope.specs.Laws.{Free_names_are_nowhere, Names_go_innermost};

/// A name goes to the innermost scope that declares it, and is free only where none does (ECMA-262, ResolveBinding).
#[tactic(none)]
pub fn names_go_innermost()
    ensures innermost { Names_go_innermost }
    ensures free { Free_names_are_nowhere }
{}

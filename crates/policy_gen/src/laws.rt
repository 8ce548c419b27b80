// Laws of generated policies and of denials.

ghost use Rattle.policy_gen.specs.Laws.{Entries_are_exact, Rows_are_exact, No_row_of_its_own, Each_use_is_covered, Each_use_is_given, No_less_covers, It_is_a_policy, Its_text_is_read_as_it, Denials_are_exact, Denials_are_in_order, Nothing_is_denied, Graphs_are_named_in_order};

/// The generated policy says of each package exactly what its modules use. A key stands exactly where it is the key of a free path and no proper prefix is, with leave to write exactly where a path that begins with it is assigned; the built-in module and packages exactly where literal requests import them. Each package but the application's own has a row, and nothing else has.
#[tactic(none)]
pub fn generate_is_exact()
    ensures entries { Entries_are_exact }
    ensures rows { Rows_are_exact }
    ensures own { No_row_of_its_own }
{}

/// The generated policy covers each use of each reached module, and a package starts with all that its uses are of, as far as the host has it.
#[tactic(none)]
pub fn generated_policy_covers()
    ensures covered { Each_use_is_covered }
    ensures given { Each_use_is_given }
{}

/// A row that grants less than that of the generated policy leaves a use uncovered.
#[tactic(none)]
pub fn generated_policy_is_least()
    ensures { No_less_covers }
{}

/// The generated rows are a policy, and what is written of it is read as it.
#[tactic(none)]
pub fn generated_policy_is_a_policy()
    ensures kept { It_is_a_policy }
    ensures read { Its_text_is_read_as_it }
{}

/// A request is listed exactly where a reached module of the package has it and the policy denies it, in strict byte order.
#[tactic(none)]
pub fn denied_is_exact()
    ensures listed { Denials_are_exact }
    ensures order { Denials_are_in_order }
{}

/// The generated policy denies nothing.
#[tactic(none)]
pub fn nothing_is_denied_of_generated()
    ensures { Nothing_is_denied }
{}

/// The packages of each folder that is read are in byte order of their names, the application's own first: what the laws above ask.
#[tactic(none)]
pub fn graphs_are_named_in_order()
    ensures { Graphs_are_named_in_order }
{}

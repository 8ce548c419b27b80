// Laws of what is granted.

ghost use Rattle.policy_globals.specs.Laws.{A_prefix_grants, A_prefix_grants_of_fs, An_empty_row_grants_nothing, No_row_grants_nothing};

/// What is given of a name, some key grants that is a prefix of it: no other key does.
#[tactic(none)]
pub fn a_prefix_grants()
    ensures globals { A_prefix_grants }
    ensures builtin { A_prefix_grants_of_fs }
{}

/// A package with an empty row, or without one, starts with nothing.
#[tactic(none)]
pub fn nothing_is_granted_by_none()
    ensures empty { An_empty_row_grants_nothing }
    ensures absent { No_row_grants_nothing }
{}

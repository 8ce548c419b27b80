// Laws of merging.

ghost use Rattle.policy_row.specs.Laws.{The_override_prevails, A_false_denies, A_false_denies_an_import, Nothing_is_added};

/// What a merge says of a package at a key is what the override says, and where that says nothing what the policy says. So a false in the override denies, whatever the policy says, and what is granted one of both grants.
#[tactic(none)]
pub fn the_override_prevails()
    ensures entries { The_override_prevails }
    ensures denies { A_false_denies }
    ensures imports { A_false_denies_an_import }
    ensures added { Nothing_is_added }
{}

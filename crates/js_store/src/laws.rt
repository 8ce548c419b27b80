// Laws of the definitions.

ghost use Rattle.js_store.specs.Laws.{Written_is_own, Writing_leaves_others, Removed_is_gone, Removing_leaves_others, Writing_keeps_the_order, Removing_keeps_the_order, Old_keys_keep_their_places, New_names_go_last, Keys_are_the_own_ones, References_do_not_matter, Changes_are_of_one, New_objects_have_new_ids};

/// A change of a property is what is found at its key, and no other key is touched.
#[tactic(none)]
pub fn own_after_a_change<R, S>()
    ensures written { Written_is_own R S }
    ensures others_than_written { Writing_leaves_others R S }
    ensures removed { Removed_is_gone R S }
    ensures others_than_removed { Removing_leaves_others R S }
{}

/// After a change the properties still stand in the normal order.
#[tactic(none)]
pub fn changes_keep_the_order<R, S>()
    ensures writing { Writing_keeps_the_order R S }
    ensures removing { Removing_keeps_the_order R S }
{}

/// The own keys are those that have a property.
#[tactic(none)]
pub fn keys_are_the_own_ones<R, S>()
    ensures { Keys_are_the_own_ones R S }
{}

/// Objects do not depend on what references and made symbols are, as long as the same ones are the same.
#[tactic(none)]
pub fn references_do_not_matter<A, B, S, T>()
    ensures { References_do_not_matter A B S T }
{}

/// A key that is written keeps its place, and a new one that is no array index goes last.
#[tactic(none)]
pub fn written_keeps_places<R, S>()
    ensures old { Old_keys_keep_their_places R S }
    ensures new { New_names_go_last R S }
{}

/// Each call of a store changes one object or adds one: no id is used again, and each means what it meant.
#[tactic(none)]
pub fn ids_keep_their_meaning<R, S>()
    ensures changes { Changes_are_of_one R S }
    ensures makes { New_objects_have_new_ids R S }
{}

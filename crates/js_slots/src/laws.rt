// Laws of the definitions.

ghost use Rattle.js_slots.specs.Laws.{Dead_places_stay_dead, Get_after_delete, Get_after_set, Keys_keep_their_places, New_keys_go_last, Nothing_after_clear};

/// A table is a finite map: what is at a key after a set, a deletion or a clearing.
#[tactic(none)]
pub fn tables_are_finite_maps<R, S>()
    ensures set { Get_after_set R S }
    ensures delete { Get_after_delete R S }
    ensures clear { Nothing_after_clear R S }
{}

/// A table has an order of insertion: a new key goes to the end, and all others keep their places.
#[tactic(none)]
pub fn keys_stand_in_order_of_insertion<R, S>()
    ensures last { New_keys_go_last R S }
    ensures others { Keys_keep_their_places R S }
{}

/// A deleted place stays dead, so that a walk goes on over it.
#[tactic(none)]
pub fn dead_places_stay_dead<R, S>()
    ensures { Dead_places_stay_dead R S }
{}

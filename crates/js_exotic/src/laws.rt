// Laws of the definitions.

ghost use Rattle.js_exotic.specs.Laws.{Deciding_keeps_soundness, Exotic_closed_objects_gain_nothing, Exotic_closed_objects_stay_closed, Exotic_fixed_properties_stay, Exotic_references_do_not_matter, Exotic_resuming_does_not_look, Resuming_keeps_soundness};

/// What holds of a party's objects at every moment holds whatever is asked: the ways up along prototypes end, each array has its `length` above each of its indices, each slot is one of its object's class, and what is callable has a slot that can be called.
#[tactic(none)]
pub fn objects_stay_sound<R, S>()
    ensures deciding { Deciding_keeps_soundness R S }
    ensures resuming { Resuming_keeps_soundness R S }
{}

/// What an object decides does not depend on what references and made symbols are, as long as each object is from where it was and the same ones are the same; and so it goes on.
#[tactic(none)]
pub fn exotic_references_do_not_matter<A, B, S, T>()
    ensures deciding { Exotic_references_do_not_matter A B S T }
    ensures resuming { Exotic_resuming_does_not_look A B S T }
{}

/// Whatever is asked of an array, a global or any other object, a property that is not configurable stays, and an object that is not extensible gains none, keeps its prototype and stays so (ECMA-262, "Invariants of the Essential Internal Methods").
#[tactic(none)]
pub fn exotic_invariants_hold<R, S>()
    ensures fixed { Exotic_fixed_properties_stay R S }
    ensures closed { Exotic_closed_objects_gain_nothing R S }
    ensures still { Exotic_closed_objects_stay_closed R S }
{}

// Laws of the definitions.

ghost use Rattle.js_ordinary.specs.Laws.{Closed_objects_gain_nothing, Closed_objects_stay_closed, Fixed_properties_are_not_set, Fixed_properties_stay, Get_leads_up, Getters_get_the_receiver, Others_stay, Prototypes_are_asked, References_do_not_matter, Resuming_does_not_look, Set_leads_up, Setters_get_the_receiver, Ways_up_keep_ending};

/// What an object decides does not depend on what references and made symbols are, as long as each object is from where it was and the same ones are the same; and so it goes on.
#[tactic(none)]
pub fn references_do_not_matter<A, B, S, T>()
    ensures deciding { References_do_not_matter A B S T }
    ensures resuming { Resuming_does_not_look A B S T }
{}

/// A decision changes the object that is asked and no other, and makes none.
#[tactic(none)]
pub fn others_stay<R, S>()
    ensures { Others_stay R S }
{}

/// A getter and a setter are called with the receiver.
#[tactic(none)]
pub fn receivers_are_given<R, S>()
    ensures getters { Getters_get_the_receiver R S }
    ensures setters { Setters_get_the_receiver R S }
{}

/// A property without a setter, and one that is not writable, is not set, wherever it stands.
#[tactic(none)]
pub fn fixed_properties_are_not_set<R, S>()
    ensures { Fixed_properties_are_not_set R S }
{}

/// Where an object has no such property, Get and Set ask its prototype, wherever that is from; so they lead up to the first object that has it.
#[tactic(none)]
pub fn get_and_set_go_up<R, S>()
    ensures asked { Prototypes_are_asked R S }
    ensures get { Get_leads_up R S }
    ensures set { Set_leads_up R S }
{}

/// Whatever is asked, a property that is not configurable stays, and an object that is not extensible gains none, keeps its prototype and stays so (ECMA-262, "Invariants of the Essential Internal Methods").
#[tactic(none)]
pub fn invariants_hold<R, S>()
    ensures fixed { Fixed_properties_stay R S }
    ensures closed { Closed_objects_gain_nothing R S }
    ensures still { Closed_objects_stay_closed R S }
{}

/// The way up from each object along prototypes ends, whatever is asked: no cycle is made.
#[tactic(none)]
pub fn ways_up_keep_ending<R, S>()
    ensures { Ways_up_keep_ending R S }
{}

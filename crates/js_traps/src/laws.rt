// Laws of the definitions.

ghost use Rattle.js_traps.specs.Laws.{Closed_as_the_target, Closed_targets_keep_their_properties, Closed_targets_keep_their_prototype, Definitions_fit_the_target, Extensible_as_the_target, Fixed_properties_are_not_denied, Keys_are_told_once, SetsNoFixedValues, TellsFittingProperties, TellsFixedKeys, TellsFixedValues};

/// A proxy keeps to the prototype and to the extensibility of its target, whatever its handler says (ECMA-262, "Invariants of the Essential Internal Methods").
#[tactic(none)]
pub fn targets_decide_of_themselves<R, S>()
    ensures prototype { Closed_targets_keep_their_prototype R S }
    ensures extensible { Extensible_as_the_target R S }
    ensures closed { Closed_as_the_target R S }
{}

/// A proxy denies no property that is not configurable, and none of a target that is not extensible.
#[tactic(none)]
pub fn properties_are_not_denied<R, S>()
    ensures fixed { Fixed_properties_are_not_denied R S }
    ensures closed { Closed_targets_keep_their_properties R S }
{}

/// A proxy tells and sets no other value of a fixed property than it has.
#[tactic(none)]
pub fn fixed_values_stay<R, S>()
    ensures told { TellsFixedValues R S }
    ensures set { SetsNoFixedValues R S }
{}

/// A proxy says to have defined, and tells, only what its target could have.
#[tactic(none)]
pub fn properties_fit_the_target<R, S>()
    ensures defined { Definitions_fit_the_target R S }
    ensures told { TellsFittingProperties R S }
{}

/// A proxy tells each key of its target that is fixed, of a target that is not extensible just its keys, and none twice.
#[tactic(none)]
pub fn keys_are_those_of_the_target<R, S>()
    ensures fixed { TellsFixedKeys R S }
    ensures once { Keys_are_told_once R S }
{}

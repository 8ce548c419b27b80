// Laws of the definitions.

ghost use Rattle.js_desc.specs.Laws.{References_do_not_matter, Fields_complete_a_property, Whole_definitions_are_taken, Fixed_properties_stay, Closed_objects_get_nothing, Accepted_definitions_are_there, Other_fields_stay};

/// What a definition makes of a property does not depend on what references and made symbols are, as long as the same ones are the same.
#[tactic(none)]
pub fn references_do_not_matter<A, B, S, T>()
    ensures { References_do_not_matter A B S T }
{}

/// All fields of a property make that property.
#[tactic(none)]
pub fn fields_complete_a_property<R, S>()
    ensures { Fields_complete_a_property R S }
{}

/// A definition with all fields of a property is refused, or makes that property.
#[tactic(none)]
pub fn whole_definitions_are_taken<R, S>()
    ensures { Whole_definitions_are_taken R S }
{}

/// A property that is not configurable stays, with its enumerability and its kind; one that is not writable either keeps its value, and an accessor its functions (ECMA-262, "Invariants of the Essential Internal Methods").
#[tactic(none)]
pub fn fixed_properties_stay<R, S>()
    ensures { Fixed_properties_stay R S }
{}

/// An object that is not extensible gets no new property (ECMA-262, "Invariants of the Essential Internal Methods").
#[tactic(none)]
pub fn closed_objects_get_nothing<R, S>()
    ensures { Closed_objects_get_nothing R S }
{}

/// What is accepted is there afterwards, with each field that the definition gives (ECMA-262, "Invariants of the Essential Internal Methods").
#[tactic(none)]
pub fn accepted_definitions_are_there<R, S>()
    ensures { Accepted_definitions_are_there R S }
{}

/// What a definition does not give stays as it was (ECMA-262, ValidateAndApplyPropertyDescriptor).
#[tactic(none)]
pub fn other_fields_stay<R, S>()
    ensures { Other_fields_stay R S }
{}

// What every layer above speaks: property descriptors, what objects are asked and answer, what crosses between parties.
//
// - `descriptor` has the properties and the definitions of properties, `complete` makes one of the other, `same` compares, `copy` copies.
// - `validate` is ECMA-262's ValidateAndApplyPropertyDescriptor: what a definition makes of a property, or that it is refused.
// - `ask` and `reply` are the internal methods of objects with their items and their answers, and what parties ask of each other;
//   `crossing` is one of these on its way from one party to another.
// - `decision` is what an object decides when it is asked, `fault` the errors that the machine makes, with their texts.
// - `start` and `ending` say what a party starts with, and how a run ends.
// - `laws` states what follows from the definitions: the invariants that ECMA-262 promises of [[DefineOwnProperty]], and that nothing
//   depends on what references and made symbols are.
//
// Definitions are in specs/: `Descriptors`, `Validate`, `Laws`, `Asks`, `Faults`; `Maps` and `Identities` go through what is in each type.
#![tactic(auto)]

pub mod ask;
pub mod complete;
pub mod copy;
pub mod crossing;
pub mod decision;
pub mod descriptor;
pub mod ending;
pub mod fault;
pub mod laws;
pub mod reply;
pub mod same;
pub mod start;
pub mod validate;

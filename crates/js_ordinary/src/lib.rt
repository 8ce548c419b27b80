// What an ordinary object decides when it is asked, by ECMA-262's "Ordinary Object Internal Methods and Internal Slots". A decision is an answer, or the next ask with what waits for its answer.
#![tactic(auto)]

pub mod calls;
pub mod decide;
pub mod held_functions;
pub mod laws;
pub mod next;
pub mod ordinary_define_own_property;
pub mod ordinary_delete;
pub mod ordinary_get;
pub mod ordinary_has_property;
pub mod ordinary_set;
pub mod ordinary_set_prototype_of;
pub mod primitives;
pub mod target;

// What exotic objects decide in their own way when they are asked: arrays, whose `length` is above each of their indices; globals, whose prototype is immutable; and bound functions. All other asks they decide as ordinary objects do, so `decide` serves each object but a proxy.
#![tactic(auto)]

pub mod array_define_own_property;
pub mod array_length;
pub mod array_set_length;
pub mod bound_functions;
pub mod decide;
pub mod laws;
pub mod next;
pub mod set_immutable_prototype;

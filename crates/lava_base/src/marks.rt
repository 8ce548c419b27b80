// Marks, which are fixed when an object is made.

/// The class of an object.
#[derive(Clone, Copy, Debug, PartialEq, Eq)]
pub enum Class {
    Object,
    Array,
    Function,
    Error,
    Map,
    Set,
    WeakMap,
    Compartment,
    Global,
    Proxy,
    Promise,
    Module,
}

/// What everyone may know of an object: its class, whether it has [[Call]] and whether it has [[Construct]].
#[derive(Clone, Copy, Debug, PartialEq, Eq)]
pub struct Marks {
    pub class: Class,
    pub callable: bool,
    pub constructor: bool,
}

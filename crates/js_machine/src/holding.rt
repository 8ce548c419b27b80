// The objects on which parts are defined.

use lava_base::ids::Ref;

/// The object on which parts are defined, and a class's constructor, on which the static ones are; one object is both where no class is made.
#[derive(Clone, Copy)]
pub struct Holding {
    pub instance: Ref,
    pub constructor: Ref,
    pub enumerable: bool,
}

/// What a part with a function defines.
#[derive(Clone, Copy)]
pub enum FunctionPart {
    Method,
    Getter,
    Setter,
}

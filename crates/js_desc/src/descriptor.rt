// Property descriptors, over any types of references and of made symbols.

ghost use Rattle.std.specs.Prelude.{◌≡◌};
ghost use Rattle.js_desc.specs.Descriptors.{configurable_of, enumerable_of, is_accessor_descriptor, is_data_descriptor};

use js_text::value::Value;
use lava_base::ids::{MadeSymbol, Ref};

/// What a definition of a property says: each field, or nothing (ECMA-262, "The Property Descriptor Specification Type").
#[derive(Drop)]
pub struct PartialDescriptor<R = Ref, S = MadeSymbol> {
    pub value: Option<Value<R, S>>,
    pub writable: Option<bool>,
    /// The function that gives the value; `Some(None)` where the field is there and says undefined.
    pub get: Option<Option<R>>,
    /// The function that takes the value; `Some(None)` where the field is there and says undefined.
    pub set: Option<Option<R>>,
    pub enumerable: Option<bool>,
    pub configurable: Option<bool>,
}

/// A property as an object has it: a descriptor with all fields of its kind (ECMA-262, "Property Attributes").
#[derive(Drop)]
pub enum Descriptor<R = Ref, S = MadeSymbol> {
    /// A data property.
    Data {
        value: Value<R, S>,
        writable: bool,
        enumerable: bool,
        configurable: bool,
    },
    /// An accessor property. A function that is not there counts as undefined.
    Accessor {
        get: Option<R>,
        set: Option<R>,
        enumerable: bool,
        configurable: bool,
    },
}

/// What a definition makes of a property.
#[derive(Drop)]
pub enum Change<R = Ref, S = MadeSymbol> {
    /// The property stays as it is.
    Nothing,
    /// The property becomes this one, or is made.
    Write(Descriptor<R, S>),
}

impl PartialDescriptor {
    /// Whether it has a field of an accessor (ECMA-262, IsAccessorDescriptor).
    pub fn is_accessor(&self) -> bool
        ensures { result ≡ is_accessor_descriptor self.now }
    {
        self.get.is_some() || self.set.is_some()
    }

    /// Whether it has a field of a data property (ECMA-262, IsDataDescriptor).
    pub fn is_data(&self) -> bool
        ensures { result ≡ is_data_descriptor self.now }
    {
        self.value.is_some() || self.writable.is_some()
    }
}

impl Descriptor {
    /// Whether the property may be deleted and its kind and attributes may change.
    pub fn configurable(&self) -> bool
        ensures { result ≡ configurable_of self.now }
    {
        match self {
            Descriptor::Data { configurable, .. } => *configurable,
            Descriptor::Accessor { configurable, .. } => *configurable,
        }
    }

    /// Whether a walk over the enumerable properties shows the property.
    pub fn enumerable(&self) -> bool
        ensures { result ≡ enumerable_of self.now }
    {
        match self {
            Descriptor::Data { enumerable, .. } => *enumerable,
            Descriptor::Accessor { enumerable, .. } => *enumerable,
        }
    }
}

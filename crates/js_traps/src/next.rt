// What a decision of a proxy that waits needs to go on.

use js_desc::ask::Ask;
use js_desc::descriptor::{Descriptor, PartialDescriptor};
use js_operations::descriptions::Description;
use js_store::slot::Proxied;
use js_text::value::{Key, Value};
use lava_base::ids::{MadeSymbol, Ref};
use lava_base::list::List;

/// What a property that a trap denies is answered with.
#[derive(Clone, Copy, Debug, PartialEq, Eq)]
pub enum Absence {
    /// There is no property to describe.
    NoProperty,
    /// There is no such property.
    NotThere,
    /// The property is gone.
    Deleted,
}

/// A list of keys that a trap gave and that is being read.
#[derive(Drop)]
pub struct Listing<R = Ref, S = MadeSymbol> {
    pub target: R,
    /// The array-like object that the trap gave.
    pub list: R,
    /// How many elements it has.
    pub count: u64,
    /// The keys that are read.
    pub told: List<Key<S>>,
}

/// The keys that a trap told, and those of the target, which is asked for one after the other.
#[derive(Drop)]
pub struct Listed<R = Ref, S = MadeSymbol> {
    pub target: R,
    /// The keys that the trap told.
    pub told: List<Key<S>>,
    /// Whether the target is extensible.
    pub extensible: bool,
    /// The target's own keys.
    pub there: List<Key<S>>,
    /// Of each key that the target was asked for, whether its property is fixed.
    pub fixed: List<bool>,
}

/// What a decision of a proxy waits for: the answer to the ask that came with it.
#[derive(Drop)]
pub enum Next<R = Ref, S = MadeSymbol> {
    /// Its answer is that of the ask.
    Answer,
    /// The trap for an ask, or undefined.
    Trap {
        proxied: Proxied<R>,
        ask: Ask<R, S>,
    },
    /// What the trap `getPrototypeOf` gave.
    PrototypeTold {
        target: R,
    },
    /// What the trap `setPrototypeOf` gave.
    PrototypeSet {
        target: R,
        proto: Option<R>,
    },
    /// Whether the target is extensible: one that is not has to have this prototype. `set` tells that it was to be set.
    PrototypeExtensible {
        target: R,
        proto: Option<R>,
        set: bool,
    },
    /// The prototype of the target, which has to be this one.
    PrototypeFixed {
        proto: Option<R>,
        set: bool,
    },
    /// What the trap `isExtensible` gave.
    ExtensibleTold {
        target: R,
    },
    /// Whether the target is extensible, which has to be as the trap said.
    ExtensibleSame {
        told: bool,
    },
    /// What the trap `preventExtensions` gave.
    Prevented {
        target: R,
    },
    /// Whether the target is extensible, which it must not be.
    NotExtensible,
    /// What the trap `getOwnPropertyDescriptor` gave.
    PropertyTold {
        target: R,
        key: Key<S>,
    },
    /// The property of the target, of which the trap gave a description.
    PropertyFound {
        target: R,
        description: R,
    },
    /// Whether the target is extensible, where the trap gave a description.
    PropertyExtensible {
        description: R,
        there: Option<Descriptor<R, S>>,
    },
    /// A field of the description that the trap gave.
    DescriptionRead {
        description: Description<R, S>,
        /// The target's own property.
        there: Option<Descriptor<R, S>>,
        /// Whether the target is extensible.
        extensible: bool,
    },
    /// What the trap `defineProperty` gave.
    PropertyDefined {
        target: R,
        key: Key<S>,
        fields: PartialDescriptor<R, S>,
    },
    /// The property of the target, which the trap said to be defined.
    DefinedFound {
        target: R,
        fields: PartialDescriptor<R, S>,
    },
    /// Whether the target is extensible, where the trap said that a property is defined.
    DefinedExtensible {
        fields: PartialDescriptor<R, S>,
        there: Option<Descriptor<R, S>>,
    },
    /// What the trap `has` gave.
    PropertyKnown {
        target: R,
        key: Key<S>,
    },
    /// What the trap `deleteProperty` gave.
    PropertyDeleted {
        target: R,
        key: Key<S>,
    },
    /// The property of the target that a trap denies.
    Denied {
        target: R,
        absence: Absence,
    },
    /// Whether the target, of which a trap denies a property, is extensible.
    DeniedExtensible {
        absence: Absence,
    },
    /// What the trap `get` gave.
    ValueTold {
        target: R,
        key: Key<S>,
    },
    /// The property of the target, of which the trap gave this value.
    ValueFound {
        value: Value<R, S>,
    },
    /// What the trap `set` gave.
    ValueSet {
        target: R,
        key: Key<S>,
        value: Value<R, S>,
    },
    /// The property of the target, which the trap said to be set to this value.
    SetFound {
        value: Value<R, S>,
    },
    /// What the trap `ownKeys` gave.
    KeysTold {
        target: R,
    },
    /// The length of the list that the trap gave, or that length as a number.
    KeysLength {
        target: R,
        list: R,
    },
    /// The next element of the list.
    KeyTold {
        listing: Listing<R, S>,
    },
    /// Whether the target, of which the trap told these keys, is extensible.
    KeysExtensible {
        target: R,
        told: List<Key<S>>,
    },
    /// The target's own keys.
    KeysThere {
        target: R,
        told: List<Key<S>>,
        extensible: bool,
    },
    /// The target's property of its next key.
    KeyThere {
        listed: Listed<R, S>,
    },
    /// What the trap `construct` gave.
    Constructed,
}

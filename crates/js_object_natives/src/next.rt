// What a native on objects that waits needs to go on. It is plain data.

use js_conversions::js_operations::descriptions::Description;
use js_conversions::next::Next as Conversion;
use js_text::value::{Key, Value};
use lava_base::ids::{MadeSymbol, Ref};

/// A native on a property: the object, and the operands behind the one that is made a key.
#[derive(Drop)]
pub enum KeyedCall<R = Ref, S = MadeSymbol> {
    /// `getOwn(o, k)`
    GetOwn {
        object: R,
    },
    /// `defineOwn(o, k, d)`
    DefineOwn {
        object: R,
        description: Value<R, S>,
    },
    /// `has(o, k)`
    Has {
        object: R,
    },
    /// `get(o, k, r)`
    Get {
        object: R,
        receiver: Value<R, S>,
    },
    /// `set(o, k, v, r)`
    Set {
        object: R,
        value: Value<R, S>,
        receiver: Value<R, S>,
    },
    /// `delete(o, k)`
    Delete {
        object: R,
    },
}

/// What a native waits for: the answer to the ask that came with it.
#[derive(Drop)]
pub enum Next<R = Ref, S = MadeSymbol> {
    /// Its answer is that of the ask, as a value.
    Answer,
    /// A property, which is described by an object.
    Described,
    /// Keys, which are told by an array.
    Listed,
    /// What the conversion of a key waits for.
    Keyed {
        call: KeyedCall<R, S>,
        conversion: Conversion<R>,
    },
    /// What the description of a property waits for, which is to be defined.
    Defining {
        object: R,
        key: Key<S>,
        description: Description<R, S>,
    },
}

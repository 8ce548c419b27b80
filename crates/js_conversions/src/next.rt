// What a conversion that waits needs to go on. It is plain data.

ghost use Rattle.std.specs.Prelude.{◌≡◌};
ghost use Rattle.js_conversions.specs.Conversions.{is_string_hint, method_name};

use lava_base::ids::Ref;

/// What a value is to become.
#[derive(Clone, Copy, Debug, PartialEq, Eq)]
pub enum Wanted {
    /// A primitive value, without a hint (ECMA-262, ToPrimitive).
    Primitive,
    /// A number (ECMA-262, ToNumber).
    Number,
    /// A text (ECMA-262, ToString).
    Text,
    /// A property key, which is a text or a symbol (ECMA-262, ToPropertyKey).
    Key,
}

impl Wanted {
    /// Whether the hint is `string` (ECMA-262, ToPrimitive).
    fn is_string_hint(self) -> bool
        ensures { result ≡ is_string_hint self }
    {
        match self {
            Wanted::Primitive | Wanted::Number => false,
            Wanted::Text | Wanted::Key => true,
        }
    }

    /// The name of the first of the two methods that give a primitive value, or of the last one (ECMA-262, OrdinaryToPrimitive).
    pub fn method_name(self, last: bool) -> &'static str
        ensures { result.now ≡ method_name self last }
    {
        if self.is_string_hint() == last {
            "valueOf"
        } else {
            "toString"
        }
    }
}

/// An object that is to become a primitive value first.
#[derive(Clone, Copy)]
pub struct Waiting<R = Ref> {
    pub object: R,
    pub wanted: Wanted,
    /// Whether the last of its two methods is asked for, or called.
    pub last: bool,
}

/// What a conversion waits for.
#[derive(Clone, Copy)]
pub enum Next<R = Ref> {
    /// A method of the object.
    MethodGot(Waiting<R>),
    /// What the method gives.
    MethodCalled(Waiting<R>),
}

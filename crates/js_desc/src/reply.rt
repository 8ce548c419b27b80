// What an ask is answered with.

use crate::descriptor::Descriptor;
use js_text::value::{Key, Value};
use lava_base::ids::{MadeSymbol, Ref};
use lava_base::list::List;

/// The answer to an ask: of the kind that its method gives, or a throw (ECMA-262, "The Completion Record Specification Type").
#[derive(Drop)]
pub enum Reply<R = Ref, S = MadeSymbol> {
    /// What Get, Call, Construct, Import, Slot, Make, Queue and Turn give.
    Value(Value<R, S>),
    /// What GetPrototypeOf gives. None is null.
    Proto(Option<R>),
    /// What SetPrototypeOf, IsExtensible, PreventExtensions, DefineOwnProperty, HasProperty, Set and Delete give.
    Flag(bool),
    /// What GetOwnProperty gives. None is undefined: there is no such property.
    Desc(Option<Descriptor<R, S>>),
    /// What OwnPropertyKeys gives.
    Keys(List<Key<S>>),
    /// The ask ended with a throw of this value.
    Throw(Value<R, S>),
}

// Where a value comes from that a pattern takes apart.

use crate::held::Held;
use js_text::text::Text;
use js_tree::tree::{Expr, PatternField, PropertyKey};

/// Where a value comes from that a pattern binds.
#[derive(Clone, Copy)]
pub enum BoundValue<'a> {
    /// It stands in a slot.
    InSlot(Held),
    /// The next item of an opened iterator.
    Taken(Held),
    /// An array of all further items of an opened iterator.
    Remaining(Held),
    /// The item that an opened iterator has last given.
    Current(Held),
    /// The property with a key that is not computed.
    Named(Held, &'a PropertyKey),
    /// The property whose key stands in a slot.
    Keyed(Held, Held),
    /// An object with all properties but those of the fields, whose computed keys stand in the slots of the scope of a level.
    Omitted {
        object: Held,
        keys: usize,
        fields: &'a [PatternField],
    },
    /// The value of an expression.
    Valued(&'a Expr),
    /// What stands in a slot, or the value of an expression where that is undefined; the name is for a function or class.
    Defaulted {
        given: Held,
        default: &'a Expr,
        name: Option<&'a Text>,
    },
}

// Values, keys and symbols, over any types of references and of made symbols.

use crate::text::Text;
use lava_base::ids::{MadeSymbol, Ref};

/// A symbol (ECMA-262, "The Symbol Type").
#[derive(Drop)]
pub enum Symbol<S = MadeSymbol> {
    /// `Symbol.iterator`, the one well-known symbol.
    Iterator,
    /// The symbol that `Symbol.for` gives at this text.
    Registered(Text),
    /// A symbol that `Symbol` made.
    Made(S),
}

/// A property key (ECMA-262, "The Object Type"). A text that writes an array index is an `Index`.
#[derive(Drop)]
pub enum Key<S = MadeSymbol> {
    /// An array index, of at most 4,294,967,294.
    Index(u32),
    /// A text that writes no array index.
    Text(Text),
    Symbol(Symbol<S>),
}

/// A value of the language (ECMA-262, "ECMAScript Language Types"). An integer is a safe one, so there is no NaN and no negative zero.
#[derive(Drop)]
pub enum Value<R = Ref, S = MadeSymbol> {
    Undefined,
    Null,
    Bool(bool),
    Int(i64),
    Text(Text),
    Symbol(Symbol<S>),
    /// An object.
    Ref(R),
}

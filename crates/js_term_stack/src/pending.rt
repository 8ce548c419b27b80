// A chain of members and calls so far.

use js_term::term::Term;
use sqlite_items::Boxed;

/// A chain so far: a value, or a property that a call may still follow, for which its object is `this` (ECMA-262, Reference Record).
#[derive(Drop)]
pub enum Pending {
    Settled(Boxed<Term>),
    Reference {
        object: Boxed<Term>,
        key: Boxed<Term>,
    },
    SuperReference(Boxed<Term>),
}

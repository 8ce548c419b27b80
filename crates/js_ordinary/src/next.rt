// What a decision that waits needs to go on.

use js_text::value::{Key, Value};
use lava_base::ids::{MadeSymbol, Ref};

/// What a decision waits for: the answer to the ask that came with it.
#[derive(Drop)]
pub enum Next<R = Ref, S = MadeSymbol> {
    /// Its answer is that of the ask.
    Answer,
    /// Its setter was called; then the property is set.
    Setter,
    /// The own property of the receiver of a Set, which decides how it is set there.
    Receiver {
        key: Key<S>,
        value: Value<R, S>,
        receiver: R,
    },
    /// The value of a global, of which a live getter gets this member.
    Member {
        key: Key<S>,
    },
    /// The value of a global, of which a live setter sets this member.
    MemberValue {
        key: Key<S>,
        value: Value<R, S>,
    },
    /// The own property of the receiver of a repair setter, which is set, or made where there is none.
    Override {
        key: Key<S>,
        value: Value<R, S>,
        receiver: R,
    },
    /// Whether a property was set, which it has to be.
    SetResult,
    /// Whether a property was defined, which it has to be.
    DefineResult,
}

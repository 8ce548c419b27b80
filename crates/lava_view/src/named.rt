// Objects and made symbols as keys.

ghost use Rattle.std.specs.Cmp.{partial_equiv_from_equiv};
ghost use Rattle.lava_view.specs.Naming.{named_writes, same_named, same_named_equiv, same_named_write_alike};

use lava_base::ids::{MadeSymbol, Ref};
use std::hash::{Hash, Hasher};

/// What a view names: an object or a made symbol.
#[derive(Clone, Copy, Debug)]
pub enum Named {
    AnObject(Ref),
    ASymbol(MadeSymbol),
}

impl PartialEq for Named {
    ghost eq = { same_named };

    ghost laws = { partial_equiv_from_equiv same_named_equiv };

    fn eq(&self, other: &Named) -> bool {
        match (self, other) {
            (Named::AnObject(a), Named::AnObject(b)) => a.is_same(*b),
            (Named::ASymbol(a), Named::ASymbol(b)) => a.is_same(*b),
            _ => false,
        }
    }
}

impl Eq for Named {
    ghost laws = { same_named_equiv };
}

impl Hash for Named {
    ghost hash_input = { named_writes };

    ghost respects_eq = { same_named_write_alike };

    fn hash<H: Hasher>(&self, state: &mut H) {
        match self {
            Named::AnObject(reference) => {
                state.write_u8(0);
                reference.hash(state);
            }
            Named::ASymbol(symbol) => {
                state.write_u8(1);
                symbol.hash(state);
            }
        }
    }
}

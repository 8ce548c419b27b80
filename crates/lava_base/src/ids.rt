// Names of parties, objects and made symbols.

ghost use Rattle.std.specs.Prelude.{◌≡◌};
ghost use Rattle.std.specs.Cmp.{partial_equiv_from_equiv};
ghost use Rattle.lava_base.specs.Ids.{same_ref, ref_writes, same_made_symbol, made_symbol_writes};
ghost use Rattle.lava_base.specs.SameRefs.{same_ref_equiv, same_refs_write_alike};
ghost use Rattle.lava_base.specs.SameSymbols.{same_made_symbol_equiv, same_made_symbols_write_alike};

use std::hash::{Hash, Hasher};

/// A party: 0 is the host, 1 the application's own package, then the other packages and the compartments that were made.
#[derive(Clone, Copy, Debug, PartialEq, Eq, Hash)]
pub struct PartyId(pub u32);

/// An object or a made symbol of one party, counted from 0 in that party. An id is never used again.
#[derive(Clone, Copy, Debug, PartialEq, Eq, Hash)]
pub struct ObjId(pub u32);

/// An object of the common part, by its place there.
#[derive(Clone, Copy, Debug, PartialEq, Eq, Hash)]
pub struct CommonId(pub u32);

/// What names an object, wherever it stands.
#[derive(Clone, Copy, Debug)]
pub enum Ref {
    /// An object of the common part.
    Common(CommonId),
    /// An object of a party.
    Own { party: PartyId, id: ObjId },
}

/// What names a symbol that `Symbol` made, by the party whose code made it. It is no reference, so that no object can be taken for a symbol.
#[derive(Clone, Copy, Debug)]
pub struct MadeSymbol {
    pub party: PartyId,
    pub id: ObjId,
}

impl Ref {
    /// Whether both name one object.
    pub fn is_same(self, other: Ref) -> bool
        ensures { result ≡ same_ref self other }
    {
        match (self, other) {
            (Ref::Common(a), Ref::Common(b)) => a.0 == b.0,
            (Ref::Own { party: p, id: a }, Ref::Own { party: q, id: b }) => {
                p.0 == q.0 && a.0 == b.0
            }
            _ => false,
        }
    }
}

impl PartialEq for Ref {
    ghost eq = { same_ref };

    ghost laws = { partial_equiv_from_equiv same_ref_equiv };

    fn eq(&self, other: &Ref) -> bool {
        self.is_same(*other)
    }
}

impl Eq for Ref {
    ghost laws = { same_ref_equiv };
}

impl Hash for Ref {
    ghost hash_input = { ref_writes };

    ghost respects_eq = { same_refs_write_alike };

    fn hash<H: Hasher>(&self, state: &mut H) {
        match *self {
            Ref::Common(id) => {
                state.write_u8(0);
                state.write_u32(id.0);
            }
            Ref::Own { party, id } => {
                state.write_u8(1);
                state.write_u32(party.0);
                state.write_u32(id.0);
            }
        }
    }
}

impl MadeSymbol {
    /// Whether both name one symbol.
    pub fn is_same(self, other: MadeSymbol) -> bool
        ensures { result ≡ same_made_symbol self other }
    {
        self.party.0 == other.party.0 && self.id.0 == other.id.0
    }
}

impl PartialEq for MadeSymbol {
    ghost eq = { same_made_symbol };

    ghost laws = { partial_equiv_from_equiv same_made_symbol_equiv };

    fn eq(&self, other: &MadeSymbol) -> bool {
        self.is_same(*other)
    }
}

impl Eq for MadeSymbol {
    ghost laws = { same_made_symbol_equiv };
}

impl Hash for MadeSymbol {
    ghost hash_input = { made_symbol_writes };

    ghost respects_eq = { same_made_symbols_write_alike };

    fn hash<H: Hasher>(&self, state: &mut H) {
        state.write_u32(self.party.0);
        state.write_u32(self.id.0);
    }
}

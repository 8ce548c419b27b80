// What a view has named.

ghost use Rattle.std.specs.Prelude.{◌≡◌, ◌++◌, ◌∷◌, [], List as Listed, map, IfOk, OnOk};
ghost use Rattle.js_text.specs.Identities.{Of_object};
ghost use Rattle.lava_base.specs.declared.ids.Ref.{Ref as Reference};
ghost use Rattle.lava_view.specs.Naming.{identities, identity_of};
ghost use Rattle.lava_view.specs.Views.{place_in, with_all, with_one};

use crate::named::Named;
use indexmap::IndexSet;
use lava_base::ids::Ref;
use lava_base::memory::OutOfMemory;

/// The number of one that is named, which goes last if it is new.
#[tactic(auto, using(crate::proofs::Known_laws::place_is, crate::proofs::Known_laws::one_more))]
pub(crate) fn place_of(known: &mut IndexSet<Named>, named: Named) -> Result<u64, OutOfMemory>
    ensures place { let before = identities known.old.keys in
        IfOk result (λ n. n ≡ place_in (identity_of named) before) }
    ensures known { let before = identities known.old.keys in
        OnOk result (identities known.new.keys ≡ with_one before (identity_of named)) }
{
    let (place, _) = known.insert_full(named)?;
    Ok(place as u64)
}

/// Names some objects, one after the other.
pub(crate) fn name_all(known: &mut IndexSet<Named>, objects: &[Ref]) -> Result<(), OutOfMemory>
    ensures { OnOk result (identities known.new.keys
        ≡ with_all (identities known.old.keys) objects.now) }
{
    for object in objects {
        place_of(known, Named::AnObject(*object))?;
    }
    Ok(())
}

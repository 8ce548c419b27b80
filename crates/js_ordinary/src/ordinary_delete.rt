// How a property is taken out.

ghost use Rattle.std.specs.Prelude.{◌≡◌};
ghost use Rattle.js_text.specs.Naming.{naming_of};
ghost use Rattle.js_ordinary.specs.OrdinaryDelete.{ordinary_delete};
ghost use Rattle.js_ordinary.specs.Targets.{IsSeen, carried_out_at, object_seen};

use crate::next::Next;
use crate::target::{Target, own_property};
use js_desc::decision::Decision;
use js_desc::reply::Reply;
use js_store::frozen::FrozenStore;
use js_store::store::Store;
use js_text::value::Key;

/// Takes a property out, if it is configurable (ECMA-262, OrdinaryDelete).
pub(crate) fn ordinary_delete<S: Store>(
    store: &mut S,
    common: &FrozenStore,
    target: Target,
    key: &Key,
) -> Decision<Next>
    requires { IsSeen (S.objects store.old) common.now target }
    ensures decision { let names = naming_of (S.owner store.old).0 in
        let o = object_seen (S.objects store.old) common.now target in
        let verdict = ordinary_delete names o key.now in
        (result, S.objects store.new) ≡ carried_out_at (S.objects store.old) target verdict }
    ensures party { S.owner store.new ≡ S.owner store.old }
{
    match own_property(store, common, target, key) {
        None => Decision::Done(Reply::Flag(true)),
        Some(property) => {
            if !property.configurable() {
                return Decision::Done(Reply::Flag(false));
            }
            if let Target::Own(id) = target {
                store.remove(id, key);
            }
            Decision::Done(Reply::Flag(true))
        }
    }
}

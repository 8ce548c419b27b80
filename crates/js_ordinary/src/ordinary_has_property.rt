// Whether an object has a property, own or inherited.

ghost use Rattle.std.specs.Prelude.{◌≡◌, IfOk};
ghost use Rattle.js_text.specs.Naming.{naming_of};
ghost use Rattle.js_ordinary.specs.OrdinaryHasProperty.{has_inherited, ordinary_has_property};
ghost use Rattle.js_ordinary.specs.Targets.{IsSeen, object_seen};

use crate::next::Next;
use crate::target::{Target, own_property, prototype};
use js_desc::ask::Ask;
use js_desc::decision::Decision;
use js_desc::reply::Reply;
use js_store::frozen::FrozenStore;
use js_store::store::Store;
use js_text::copy::copy_key;
use js_text::value::Key;
use lava_base::ids::Ref;
use lava_base::memory::OutOfMemory;

/// Whether an object has a property (ECMA-262, OrdinaryHasProperty).
pub(crate) fn ordinary_has_property<S: Store>(
    store: &S,
    common: &FrozenStore,
    target: Target,
    key: &Key,
) -> Result<Decision<Next>, OutOfMemory>
    requires { IsSeen (S.objects store.now) common.now target }
    ensures { let names = naming_of (S.owner store.now).0 in
        let o = object_seen (S.objects store.now) common.now target in
        IfOk result (λ d. d ≡ ordinary_has_property names o key.now) }
{
    match own_property(store, common, target, key) {
        Some(_) => Ok(Decision::Done(Reply::Flag(true))),
        None => has_inherited(key, prototype(store, common, target)),
    }
}

/// Whether what an object inherits from has a property: its prototype is asked, if there is one (ECMA-262, OrdinaryHasProperty, steps 3 to 5).
fn has_inherited(key: &Key, prototype: Option<Ref>) -> Result<Decision<Next>, OutOfMemory>
    ensures { IfOk result (λ d. d ≡ has_inherited key.now prototype) }
{
    match prototype {
        None => Ok(Decision::Done(Reply::Flag(false))),
        Some(prototype) => {
            let key = copy_key(key)?;
            Ok(Decision::Ask {
                target: Some(prototype),
                ask: Ask::HasProperty { key },
                next: Next::Answer,
            })
        }
    }
}

// How a property is defined.

ghost use Rattle.std.specs.Prelude.{◌≡◌, IfOk, OnErr};
ghost use Rattle.js_text.specs.Naming.{naming_of};
ghost use Rattle.js_ordinary.specs.OrdinaryDefineOwnProperty.{ordinary_define_own_property};
ghost use Rattle.js_ordinary.specs.Targets.{IsSeen, carried_out_at, object_seen};

use crate::next::Next;
use crate::target::{Target, extensible, own_property};
use js_desc::decision::Decision;
use js_desc::descriptor::PartialDescriptor;
use js_desc::reply::Reply;
use js_desc::validate::validate_apply;
use js_store::frozen::FrozenStore;
use js_store::store::Store;
use js_text::copy::copy_key;
use js_text::value::Key;
use lava_base::memory::OutOfMemory;

/// Defines a property, if the definition is not refused (ECMA-262, OrdinaryDefineOwnProperty). An object of the common part takes only what it is already.
pub fn ordinary_define_own_property<S: Store>(
    store: &mut S,
    common: &FrozenStore,
    target: Target,
    key: &Key,
    descriptor: &PartialDescriptor,
) -> Result<Decision<Next>, OutOfMemory>
    requires { IsSeen (S.objects store.old) common.now target }
    ensures ok { let names = naming_of (S.owner store.old).0 in
        let o = object_seen (S.objects store.old) common.now target in
        let verdict = ordinary_define_own_property names o key.now descriptor.now in
        let decision = carried_out_at (S.objects store.old) target verdict in
        IfOk result (λ d. (d, S.objects store.new) ≡ decision) }
    ensures err { OnErr result (S.objects store.new ≡ S.objects store.old) }
    ensures party { S.owner store.new ≡ S.owner store.old }
{
    let extensible = extensible(store, common, target);
    match validate_apply(
        own_property(store, common, target, key),
        extensible,
        descriptor,
    )? {
        None => Ok(Decision::Done(Reply::Flag(false))),
        Some(change) => {
            if let Target::Own(id) = target {
                store.apply(id, copy_key(key)?, change)?;
            }
            Ok(Decision::Done(Reply::Flag(true)))
        }
    }
}

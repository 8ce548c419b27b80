// Whether the objects that values name are there.

ghost use Rattle.std.specs.Prelude.{◌≡◌};
ghost use Rattle.js_text.specs.Naming.{naming_of};
ghost use Rattle.js_natives.specs.Seen.{all_are_there, reply_is_there, value_is_there};

use js_desc::reply::Reply;
use js_store::frozen::FrozenStore;
use js_store::store::Store;
use js_text::value::Value;
use lava_base::ids::Ref;

/// Whether there is the object that a value names; what others have is not looked into.
fn value_is_there<S: Store>(store: &S, common: &FrozenStore, value: &Value) -> bool
    ensures { let names = naming_of (S.owner store.now).0 in
        result ≡ value_is_there names (S.objects store.now) common.now value.now }
{
    match value {
        Value::Ref(Ref::Common(id)) => id.0 < common.count(),
        Value::Ref(Ref::Own { party, id }) => { party.0 != store.party().0 || id.0 < store.count() }
        _ => true,
    }
}

/// Whether all objects are there that values name.
pub fn all_are_there<S: Store>(store: &S, common: &FrozenStore, values: &[Value]) -> bool
    ensures { let names = naming_of (S.owner store.now).0 in
        result ≡ all_are_there names (S.objects store.now) common.now values.now }
{
    match values {
        [] => true,
        [first, rest @ ..] => {
            value_is_there(store, common, first) && all_are_there(store, common, rest)
        }
    }
}

/// Whether the object is there that has come.
pub fn reply_is_there<S: Store>(store: &S, common: &FrozenStore, reply: &Reply) -> bool
    ensures { let names = naming_of (S.owner store.now).0 in
        result ≡ reply_is_there names (S.objects store.now) common.now reply.now }
{
    match reply {
        Reply::Value(value) => value_is_there(store, common, value),
        _ => true,
    }
}

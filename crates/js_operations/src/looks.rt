// What a decision may know of values and of other objects.

ghost use Rattle.std.specs.Prelude.{◌≡◌};
ghost use Rattle.js_text.specs.Naming.{naming_of};
ghost use Rattle.js_operations.specs.Looks.{is_callable, marks_seen, to_boolean};

use js_ordinary::target::{find_target, marks};
use js_store::foreign::Foreign;
use js_store::frozen::FrozenStore;
use js_store::store::Store;
use js_text::value::Value;
use lava_base::ids::Ref;
use lava_base::marks::Marks;

/// The marks of an object, wherever it is from: those of another party's object came with its reference.
pub fn marks_seen<S: Store>(
    store: &S,
    common: &FrozenStore,
    foreign: &Foreign,
    reference: Ref,
) -> Marks
    ensures { let names = naming_of (S.owner store.now).0 in
        result ≡ marks_seen names (S.objects store.now) common.now foreign.now reference }
{
    match find_target(store, common, reference) {
        None => foreign.marks(reference),
        Some(target) => marks(store, common, target),
    }
}

/// Whether a value can be called (ECMA-262, IsCallable).
pub fn is_callable<S: Store>(
    store: &S,
    common: &FrozenStore,
    foreign: &Foreign,
    value: &Value,
) -> bool
    ensures { let names = naming_of (S.owner store.now).0 in
        let seen = marks_seen names (S.objects store.now) common.now foreign.now in
        result ≡ is_callable seen value.now }
{
    match value {
        Value::Ref(reference) => marks_seen(store, common, foreign, *reference).callable,
        _ => false,
    }
}

/// A value as a truth value (ECMA-262, ToBoolean).
pub fn to_boolean(value: &Value) -> bool
    ensures { result ≡ to_boolean value.now }
{
    match value {
        Value::Undefined | Value::Null => false,
        Value::Bool(truth) => *truth,
        Value::Int(integer) => *integer != 0,
        Value::Text(text) => 0 < text.len(),
        Value::Symbol(_) | Value::Ref(_) => true,
    }
}

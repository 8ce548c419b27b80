// Values as primitives, numbers, texts and property keys, with the calls that these conversions make.

ghost use Rattle.std.specs.Prelude.{◌≡◌, ℕ, ℤ, List, Option, IfOk};
ghost use Rattle.js_text.specs.Naming.{naming_of};
ghost use Rattle.js_operations.specs.Looks.{marks_seen};
ghost use Rattle.js_conversions.specs.Conversions.{ask_method, call_method, conversion_resumed, convert, convert_key, convert_text, converted, method_called, method_got, next_method, value_come};
ghost use Rattle.js_conversions.specs.Primitives.{ReadsNumbers};

use crate::next::{Next, Waiting, Wanted};
use crate::primitives::{to_number, to_property_key, to_string};
use js_desc::ask::Ask;
use js_desc::decision::Decision;
use js_desc::fault::FaultText;
use js_desc::reply::Reply;
use js_operations::looks::marks_seen;
use js_operations::names::name_key;
use js_store::foreign::Foreign;
use js_store::frozen::FrozenStore;
use js_store::store::Store;
use js_text::copy::copy_value;
use js_text::value::Value;
use lava_base::ids::Ref;
use lava_base::list::List;
use lava_base::memory::OutOfMemory;
use std::alloc::Global;

/// A primitive value as what is wanted.
fn converted(alloc: Global, wanted: Wanted, value: &Value) -> Result<Decision<Next>, OutOfMemory>
    ensures { (read : List ℕ → Option ℤ) → ReadsNumbers read
        → IfOk result (λ d. d ≡ converted read wanted value.now) }
{
    match wanted {
        Wanted::Primitive => Ok(Decision::Done(Reply::Value(copy_value(value)?))),
        Wanted::Number => to_number(alloc, value),
        Wanted::Text => to_string(alloc, value),
        Wanted::Key => to_property_key(alloc, value),
    }
}

/// Asks an object for a method.
fn ask_method(alloc: Global, waiting: Waiting) -> Result<Decision<Next>, OutOfMemory>
    ensures { IfOk result (λ d. d ≡ ask_method waiting) }
{
    let key = name_key(alloc, waiting.wanted.method_name(waiting.last))?;
    Ok(Decision::Ask {
        target: Some(waiting.object),
        ask: Ask::Get {
            key,
            receiver: Value::Ref(waiting.object),
        },
        next: Next::MethodGot(waiting),
    })
}

/// A value as what is wanted: what it is, as `Done` with a value, or the first ask for it. An object becomes a primitive value first (ECMA-262, OrdinaryToPrimitive).
pub fn convert(alloc: Global, wanted: Wanted, value: &Value) -> Result<Decision<Next>, OutOfMemory>
    ensures { (read : List ℕ → Option ℤ) → ReadsNumbers read
        → IfOk result (λ d. d ≡ convert read wanted value.now) }
{
    match value {
        Value::Ref(object) => {
            let waiting = Waiting {
                object: *object,
                wanted,
                last: false,
            };
            ask_method(alloc, waiting)
        }
        value => converted(alloc, wanted, value),
    }
}

/// A value as a property key, or the first ask for it (ECMA-262, ToPropertyKey).
pub fn convert_key(alloc: Global, value: &Value) -> Result<Decision<Next>, OutOfMemory>
    ensures { IfOk result (λ d. d ≡ convert_key value.now) }
{
    match value {
        Value::Ref(object) => {
            let waiting = Waiting {
                object: *object,
                wanted: Wanted::Key,
                last: false,
            };
            ask_method(alloc, waiting)
        }
        value => to_property_key(alloc, value),
    }
}

/// A value as a text, or the first ask for it (ECMA-262, ToString).
pub fn convert_text(alloc: Global, value: &Value) -> Result<Decision<Next>, OutOfMemory>
    ensures { IfOk result (λ d. d ≡ convert_text value.now) }
{
    match value {
        Value::Ref(object) => {
            let waiting = Waiting {
                object: *object,
                wanted: Wanted::Text,
                last: false,
            };
            ask_method(alloc, waiting)
        }
        value => to_string(alloc, value),
    }
}

/// Asks for the other method, if it is still to come.
fn next_method(alloc: Global, waiting: Waiting) -> Result<Decision<Next>, OutOfMemory>
    ensures { IfOk result (λ d. d ≡ next_method waiting) }
{
    if waiting.last {
        return Ok(Decision::Fault(FaultText::CannotConvert));
    }
    ask_method(
        alloc,
        Waiting {
            last: true,
            ..waiting
        },
    )
}

/// Calls a method of an object.
fn call_method(alloc: Global, waiting: Waiting, method: Ref) -> Decision<Next>
    ensures { result ≡ call_method waiting method }
{
    Decision::Ask {
        target: Some(method),
        ask: Ask::Call {
            this: Value::Ref(waiting.object),
            args: List::new(alloc),
        },
        next: Next::MethodCalled(waiting),
    }
}

/// Goes on with a method, which is called where it can be.
fn method_got<S: Store>(
    alloc: Global,
    store: &S,
    common: &FrozenStore,
    foreign: &Foreign,
    waiting: Waiting,
    value: &Value,
) -> Result<Decision<Next>, OutOfMemory>
    ensures { let names = naming_of (S.owner store.now).0 in
        let seen = marks_seen names (S.objects store.now) common.now foreign.now in
        IfOk result (λ d. d ≡ method_got seen waiting value.now) }
{
    match value {
        Value::Ref(method) => {
            if marks_seen(store, common, foreign, *method).callable {
                Ok(call_method(alloc, waiting, *method))
            } else {
                next_method(alloc, waiting)
            }
        }
        _ => next_method(alloc, waiting),
    }
}

/// Goes on with what a method gave, which is the object's value where it is primitive.
fn method_called(
    alloc: Global,
    waiting: Waiting,
    value: &Value,
) -> Result<Decision<Next>, OutOfMemory>
    ensures { (read : List ℕ → Option ℤ) → ReadsNumbers read
        → IfOk result (λ d. d ≡ method_called read waiting value.now) }
{
    match value {
        Value::Ref(_) => next_method(alloc, waiting),
        value => converted(alloc, waiting.wanted, value),
    }
}

/// Goes on with a value.
fn value_come<S: Store>(
    alloc: Global,
    store: &S,
    common: &FrozenStore,
    foreign: &Foreign,
    next: Next,
    value: &Value,
) -> Result<Decision<Next>, OutOfMemory>
    ensures { (read : List ℕ → Option ℤ) → ReadsNumbers read
        → let names = naming_of (S.owner store.now).0 in
        let seen = marks_seen names (S.objects store.now) common.now foreign.now in
        IfOk result (λ d. d ≡ value_come seen read next value.now) }
{
    match next {
        Next::MethodGot(waiting) => method_got(alloc, store, common, foreign, waiting, value),
        Next::MethodCalled(waiting) => method_called(alloc, waiting, value),
    }
}

/// How a conversion goes on with the answer to its ask. A throw goes on as it is. An answer of another kind than the ask has does not come; it would be the fault `wrong kind`.
pub fn resume_conversion<S: Store>(
    alloc: Global,
    store: &S,
    common: &FrozenStore,
    foreign: &Foreign,
    next: Next,
    reply: Reply,
) -> Result<Decision<Next>, OutOfMemory>
    ensures { (read : List ℕ → Option ℤ) → ReadsNumbers read
        → let names = naming_of (S.owner store.now).0 in
        let seen = marks_seen names (S.objects store.now) common.now foreign.now in
        IfOk result (λ d. d ≡ conversion_resumed seen read next reply) }
{
    match reply {
        Reply::Value(value) => value_come(alloc, store, common, foreign, next, &value),
        Reply::Throw(thrown) => Ok(Decision::Done(Reply::Throw(thrown))),
        _ => Ok(Decision::Fault(FaultText::WrongKind)),
    }
}

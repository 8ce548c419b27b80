// The natives 1 to 11: what is asked of an object.

ghost use Rattle.std.specs.Prelude.{◌≡◌, IfOk};
ghost use Rattle.js_object_natives.specs.ObjectNatives.{at_object, define_own, get, object_native, set, set_proto};

use crate::keyed::{asked, with_key};
use crate::next::{KeyedCall, Next};
use js_desc::ask::Ask;
use js_desc::decision::Decision;
use js_desc::fault::FaultText;
use js_text::copy::copy_value;
use js_text::native::Native;
use js_text::value::Value;
use lava_base::ids::Ref;
use lava_base::memory::OutOfMemory;
use std::alloc::Global;

/// Asks an object to have another prototype, which has to be an object or null.
fn set_proto(object: Ref, proto: &Value) -> Decision<Next>
    ensures { result ≡ set_proto object proto.now }
{
    match proto {
        Value::Null => asked(object, Ask::SetPrototypeOf { proto: None }),
        Value::Ref(proto) => asked(
            object,
            Ask::SetPrototypeOf {
                proto: Some(*proto),
            },
        ),
        _ => Decision::Fault(FaultText::NotAnObject),
    }
}

/// `get(o, k, r)`
fn get(
    alloc: Global,
    object: Ref,
    key: &Value,
    receiver: &Value,
) -> Result<Decision<Next>, OutOfMemory>
    ensures { IfOk result (λ d. d ≡ get object key.now receiver.now) }
{
    let receiver = copy_value(receiver)?;
    with_key(alloc, KeyedCall::Get { object, receiver }, key)
}

/// `set(o, k, v, r)`
fn set(
    alloc: Global,
    object: Ref,
    key: &Value,
    value: &Value,
    receiver: &Value,
) -> Result<Decision<Next>, OutOfMemory>
    ensures { IfOk result (λ d. d ≡ set object key.now value.now receiver.now) }
{
    let value = copy_value(value)?;
    let receiver = copy_value(receiver)?;
    with_key(
        alloc,
        KeyedCall::Set {
            object,
            value,
            receiver,
        },
        key,
    )
}

/// `defineOwn(o, k, d)`
fn define_own(
    alloc: Global,
    object: Ref,
    key: &Value,
    description: &Value,
) -> Result<Decision<Next>, OutOfMemory>
    ensures { IfOk result (λ d. d ≡ define_own object key.now description.now) }
{
    let description = copy_value(description)?;
    with_key(
        alloc,
        KeyedCall::DefineOwn {
            object,
            description,
        },
        key,
    )
}

/// A native at an object, by the operands behind it.
fn at_object(
    alloc: Global,
    which: Native,
    object: Ref,
    rest: &[Value],
) -> Result<Decision<Next>, OutOfMemory>
    ensures { IfOk result (λ d. d ≡ at_object which object rest.now) }
{
    match (which, rest) {
        (Native::GetProto, []) => Ok(asked(object, Ask::GetPrototypeOf)),
        (Native::SetProto, [proto]) => Ok(set_proto(object, proto)),
        (Native::IsExtensible, []) => Ok(asked(object, Ask::IsExtensible)),
        (Native::PreventExt, []) => Ok(asked(object, Ask::PreventExtensions)),
        (Native::GetOwn, [key]) => with_key(alloc, KeyedCall::GetOwn { object }, key),
        (Native::DefineOwn, [key, description]) => define_own(alloc, object, key, description),
        (Native::Has, [key]) => with_key(alloc, KeyedCall::Has { object }, key),
        (Native::Get, [key, receiver]) => get(alloc, object, key, receiver),
        (Native::Set, [key, value, receiver]) => set(alloc, object, key, value, receiver),
        (Native::Delete, [key]) => with_key(alloc, KeyedCall::Delete { object }, key),
        (Native::OwnKeys, []) => Ok(Decision::Ask {
            target: Some(object),
            ask: Ask::OwnPropertyKeys,
            next: Next::Listed,
        }),
        _ => Ok(Decision::Fault(FaultText::WrongKind)),
    }
}

/// What one of the natives 1 to 11 decides: the first operand has to be an object, which is asked.
pub fn object_native(
    alloc: Global,
    which: Native,
    args: &[Value],
) -> Result<Decision<Next>, OutOfMemory>
    ensures { IfOk result (λ d. d ≡ object_native which args.now) }
{
    match args {
        [Value::Ref(object), rest @ ..] => at_object(alloc, which, *object, rest),
        [_, ..] => Ok(Decision::Fault(FaultText::NotAnObject)),
        [] => Ok(Decision::Fault(FaultText::WrongKind)),
    }
}

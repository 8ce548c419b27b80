// The natives on properties: an operand is made a key, and then the object is asked.

ghost use Rattle.std.specs.Prelude.{◌≡◌, IfOk};
ghost use Rattle.js_object_natives.specs.Keyed.{converting, define_by, defining, keyed, keyed_by, with_key};
ghost use Rattle.js_object_natives.specs.ObjectDecisions.{asked};

use crate::next::{KeyedCall, Next};
use js_conversions::conversions::convert_key;
use js_conversions::js_operations::descriptions::{DescriptionStep, to_property_descriptor};
use js_conversions::js_operations::names::key_of_value;
use js_conversions::next::Next as Conversion;
use js_desc::ask::Ask;
use js_desc::decision::Decision;
use js_desc::fault::FaultText;
use js_desc::reply::Reply;
use js_text::value::{Key, Value};
use lava_base::ids::Ref;
use lava_base::memory::OutOfMemory;
use std::alloc::Global;

/// Asks an object, and gives what it answers as a value.
pub(crate) fn asked(object: Ref, ask: Ask) -> Decision<Next>
    ensures { result ≡ asked object ask }
{
    Decision::Ask {
        target: Some(object),
        ask,
        next: Next::Answer,
    }
}

/// Goes on with a description: the object that describes is asked, or the property is defined.
pub(crate) fn defining(object: Ref, key: Key, step: DescriptionStep) -> Decision<Next>
    ensures { result ≡ defining object key step }
{
    match step {
        DescriptionStep::Ask { ask, next } => Decision::Ask {
            target: Some(next.object),
            ask,
            next: Next::Defining {
                object,
                key,
                description: next,
            },
        },
        DescriptionStep::Read(descriptor) => {
            asked(object, Ask::DefineOwnProperty { key, descriptor })
        }
        DescriptionStep::Fault(text) => Decision::Fault(text),
        DescriptionStep::Throw(thrown) => Decision::Done(Reply::Throw(thrown)),
    }
}

/// Defines a property as an object describes it.
fn define_by(
    alloc: Global,
    object: Ref,
    key: Key,
    description: &Value,
) -> Result<Decision<Next>, OutOfMemory>
    ensures { IfOk result (λ d. d ≡ define_by object key description.now) }
{
    match description {
        Value::Ref(description) => {
            let step = to_property_descriptor(alloc, *description)?;
            Ok(defining(object, key, step))
        }
        _ => Ok(Decision::Fault(FaultText::NotAnObject)),
    }
}

/// Asks the object of a native at a key.
fn keyed(alloc: Global, call: KeyedCall, key: Key) -> Result<Decision<Next>, OutOfMemory>
    ensures { IfOk result (λ d. d ≡ keyed call key) }
{
    match call {
        KeyedCall::GetOwn { object } => Ok(Decision::Ask {
            target: Some(object),
            ask: Ask::GetOwnProperty { key },
            next: Next::Described,
        }),
        KeyedCall::DefineOwn {
            object,
            description,
        } => define_by(alloc, object, key, &description),
        KeyedCall::Has { object } => Ok(asked(object, Ask::HasProperty { key })),
        KeyedCall::Get { object, receiver } => Ok(asked(object, Ask::Get { key, receiver })),
        KeyedCall::Set {
            object,
            value,
            receiver,
        } => Ok(asked(
            object,
            Ask::Set {
                key,
                value,
                receiver,
            },
        )),
        KeyedCall::Delete { object } => Ok(asked(object, Ask::Delete { key })),
    }
}

/// Asks the object of a native at the key that its operand has become.
fn keyed_by(alloc: Global, call: KeyedCall, key: Option<Key>) -> Result<Decision<Next>, OutOfMemory>
    ensures { IfOk result (λ d. d ≡ keyed_by call key) }
{
    match key {
        None => Ok(Decision::Fault(FaultText::CannotConvert)),
        Some(key) => keyed(alloc, call, key),
    }
}

/// Goes on with the conversion of a key: what it asks is asked, and with what it gives the native goes on.
pub(crate) fn converting(
    alloc: Global,
    call: KeyedCall,
    conversion: Decision<Conversion>,
) -> Result<Decision<Next>, OutOfMemory>
    ensures { IfOk result (λ d. d ≡ converting call conversion) }
{
    match conversion {
        Decision::Done(Reply::Value(value)) => keyed_by(alloc, call, key_of_value(value)),
        Decision::Done(reply) => Ok(Decision::Done(reply)),
        Decision::Fault(text) => Ok(Decision::Fault(text)),
        Decision::Ask { target, ask, next } => Ok(Decision::Ask {
            target,
            ask,
            next: Next::Keyed {
                call,
                conversion: next,
            },
        }),
        Decision::Number { value, next } => Ok(Decision::Number {
            value,
            next: Next::Keyed {
                call,
                conversion: next,
            },
        }),
        Decision::Run {
            body,
            this,
            args,
            new_target,
        } => Ok(Decision::Run {
            body,
            this,
            args,
            new_target,
        }),
        Decision::End(kind) => Ok(Decision::End(kind)),
    }
}

/// Makes an operand a key, and asks the object of a native there.
pub(crate) fn with_key(
    alloc: Global,
    call: KeyedCall,
    key: &Value,
) -> Result<Decision<Next>, OutOfMemory>
    ensures { IfOk result (λ d. d ≡ with_key call key.now) }
{
    let conversion = convert_key(alloc, key)?;
    converting(alloc, call, conversion)
}

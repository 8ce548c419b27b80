// `makeError`, which makes its operand a text first, and how a native goes on that waits.

ghost use Rattle.std.specs.Prelude.{◌≡◌, ◌<◌, ◌++◌, ◌∷◌, [], ℕ, ℤ, List, Option, length, IfOk, OnOk, OnErr};
ghost use Rattle.lava_base.specs.Ids.{same_made_symbol};
ghost use Rattle.js_text.specs.Naming.{naming_of};
ghost use Rattle.js_store.specs.Objects.{at_place};
ghost use Rattle.js_conversions.specs.js_operations.Looks.{marks_seen};
ghost use Rattle.js_conversions.specs.js_operations.MadeObjects.{StandFirst};
ghost use Rattle.js_conversions.specs.Primitives.{ReadsNumbers};
ghost use Rattle.js_maker_natives.specs.Makers.{error_marks, error_with, new_error, with_message};
ghost use Rattle.js_maker_natives.specs.Resumed.{answered, error_by, error_for, kind_told, make_error, maker_resumed, messaging};

use crate::kinds::{given_name, kind_name};
use crate::makers::{given_object, made, put_property};
use crate::next::Next;
use js_conversions::conversions::{convert_text, resume_conversion};
use js_conversions::js_operations::names::name_key;
use js_conversions::next::Next as Conversion;
use js_desc::decision::Decision;
use js_desc::descriptor::Descriptor;
use js_desc::fault::FaultText;
use js_desc::reply::Reply;
use js_store::foreign::Foreign;
use js_store::frozen::FrozenStore;
use js_store::slot::Slot;
use js_store::store::Store;
use js_text::text::Text;
use js_text::value::Value;
use lava_base::ids::{ObjId, Ref};
use lava_base::marks::{Class, Marks};
use lava_base::memory::OutOfMemory;
use std::alloc::Global;

/// The marks of an error.
const ERROR_MARKS: Marks = Marks {
    class: Class::Error,
    callable: false,
    constructor: false,
};

/// Gives an error its message.
fn put_message<S: Store>(
    alloc: Global,
    store: &mut S,
    id: ObjId,
    message: Text,
) -> Result<(), OutOfMemory>
    requires { id.0 < length (S.objects store.old) }
    ensures ok { let after = with_message same_made_symbol message in
        OnOk result (S.objects store.new ≡ at_place (S.objects store.old) id.0 after) }
    ensures err { OnErr result (S.objects store.new ≡ S.objects store.old) }
    ensures party { S.owner store.new ≡ S.owner store.old }
{
    let key = name_key(alloc, "message")?;
    let property = Descriptor::Data {
        value: Value::Text(message),
        writable: true,
        enumerable: false,
        configurable: true,
    };
    put_property(store, id, key, property)
}

/// Makes an error with a message.
#[tactic(auto, using(crate::proofs::New_objects::first_of_more))]
fn new_error_with<S: Store>(
    alloc: Global,
    store: &mut S,
    proto: Ref,
    message: Text,
) -> Result<ObjId, OutOfMemory>
    ensures id { IfOk result (λ id. id.0 ≡ length (S.objects store.old)) }
    ensures ok { let made = with_message same_made_symbol message (new_error proto) in
        OnOk result (S.objects store.new ≡ S.objects store.old ++ made ∷ []) }
    ensures err { OnErr result (StandFirst (S.objects store.old) (S.objects store.new)) }
    ensures party { S.owner store.new ≡ S.owner store.old }
{
    let id = store.make(Some(proto), ERROR_MARKS, Slot::Plain)?;
    put_message(alloc, store, id, message)?;
    Ok(id)
}

/// Makes an error with a message, and gives it.
fn error_with<S: Store>(
    alloc: Global,
    store: &mut S,
    proto: Ref,
    message: Text,
) -> Result<Decision<Next>, OutOfMemory>
    ensures ok { let names = naming_of (S.owner store.old).0 in
        let decision = error_with names (S.objects store.old) proto message in
        IfOk result (λ d. (d, S.objects store.new) ≡ decision) }
    ensures err { OnErr result (StandFirst (S.objects store.old) (S.objects store.new)) }
    ensures party { S.owner store.new ≡ S.owner store.old }
{
    let id = new_error_with(alloc, store, proto, message)?;
    Ok(given_object(store.party(), id))
}

/// Makes an error with what the conversion gave.
fn error_by<S: Store>(
    alloc: Global,
    store: &mut S,
    proto: Ref,
    message: Value,
) -> Result<Decision<Next>, OutOfMemory>
    ensures ok { let names = naming_of (S.owner store.old).0 in
        let decision = error_by names (S.objects store.old) proto message in
        IfOk result (λ d. (d, S.objects store.new) ≡ decision) }
    ensures err { OnErr result (StandFirst (S.objects store.old) (S.objects store.new)) }
    ensures party { S.owner store.new ≡ S.owner store.old }
{
    match message {
        Value::Text(text) => error_with(alloc, store, proto, text),
        _ => Ok(Decision::Fault(FaultText::CannotConvert)),
    }
}

/// Goes on with the conversion of a message: what it asks is asked, and with what it gives the error is made.
fn messaging<S: Store>(
    alloc: Global,
    store: &mut S,
    proto: Ref,
    conversion: Decision<Conversion>,
) -> Result<Decision<Next>, OutOfMemory>
    ensures ok { let names = naming_of (S.owner store.old).0 in
        let decision = messaging names (S.objects store.old) proto conversion in
        IfOk result (λ d. (d, S.objects store.new) ≡ decision) }
    ensures err { OnErr result (StandFirst (S.objects store.old) (S.objects store.new)) }
    ensures party { S.owner store.new ≡ S.owner store.old }
{
    match conversion {
        Decision::Done(Reply::Value(value)) => error_by(alloc, store, proto, value),
        Decision::Done(reply) => Ok(Decision::Done(reply)),
        Decision::Fault(text) => Ok(Decision::Fault(text)),
        Decision::Ask { target, ask, next } => Ok(Decision::Ask {
            target,
            ask,
            next: Next::Message {
                proto,
                conversion: next,
            },
        }),
        Decision::Number { value, next } => Ok(Decision::Number {
            value,
            next: Next::Message {
                proto,
                conversion: next,
            },
        }),
        Decision::Run {
            body,
            this,
            args,
            new_target,
        } => Ok(Decision::Run {
            body,
            this,
            args,
            new_target,
        }),
        Decision::End(kind) => Ok(Decision::End(kind)),
    }
}

/// Makes an error for an operand: undefined gives no message.
fn error_for<S: Store>(
    alloc: Global,
    store: &mut S,
    proto: Ref,
    message: &Value,
) -> Result<Decision<Next>, OutOfMemory>
    ensures ok { let names = naming_of (S.owner store.old).0 in
        let decision = error_for names (S.objects store.old) proto message.now in
        IfOk result (λ d. (d, S.objects store.new) ≡ decision) }
    ensures err { OnErr result (StandFirst (S.objects store.old) (S.objects store.new)) }
    ensures party { S.owner store.new ≡ S.owner store.old }
{
    match message {
        Value::Undefined => made(store, Some(proto), ERROR_MARKS, Slot::Plain),
        message => {
            let conversion = convert_text(alloc, message)?;
            messaging(alloc, store, proto, conversion)
        }
    }
}

/// `makeError(proto, m)`: a new error with the message `m`, or with none where `m` is undefined (ECMA-262, Error).
pub fn make_error<S: Store>(
    alloc: Global,
    store: &mut S,
    args: &[Value],
) -> Result<Decision<Next>, OutOfMemory>
    ensures ok { let names = naming_of (S.owner store.old).0 in
        let decision = make_error names (S.objects store.old) args.now in
        IfOk result (λ d. (d, S.objects store.new) ≡ decision) }
    ensures err { OnErr result (StandFirst (S.objects store.old) (S.objects store.new)) }
    ensures party { S.owner store.new ≡ S.owner store.old }
{
    match args {
        [Value::Ref(proto), message] => error_for(alloc, store, *proto, message),
        [_, _] => Ok(Decision::Fault(FaultText::CannotConvert)),
        _ => Ok(Decision::Fault(FaultText::WrongKind)),
    }
}

/// An answer that is a value.
fn answered(reply: Reply) -> Decision<Next>
    ensures { result ≡ answered reply }
{
    match reply {
        Reply::Value(value) => Decision::Done(Reply::Value(value)),
        Reply::Throw(thrown) => Decision::Done(Reply::Throw(thrown)),
        _ => Decision::Fault(FaultText::WrongKind),
    }
}

/// Goes on once a proxy has told whether it stands before an array.
fn kind_told(alloc: Global, callable: bool, reply: Reply) -> Result<Decision<Next>, OutOfMemory>
    ensures { IfOk result (λ d. d ≡ kind_told callable reply) }
{
    match reply {
        Reply::Value(Value::Bool(true)) => given_name(alloc, "Array"),
        Reply::Value(_) => given_name(alloc, kind_name(callable, Class::Proxy)),
        Reply::Throw(thrown) => Ok(Decision::Done(Reply::Throw(thrown))),
        _ => Ok(Decision::Fault(FaultText::WrongKind)),
    }
}

/// How a waiting native goes on with the answer to its ask. A throw goes on as it is. An answer of another kind than the ask has does not come; it would be the fault `wrong kind`.
///
/// An object may be made, at the end of the store; the others stay as they are, after want of memory too.
pub fn resume_maker<S: Store>(
    alloc: Global,
    store: &mut S,
    common: &FrozenStore,
    foreign: &Foreign,
    next: Next,
    reply: Reply,
) -> Result<Decision<Next>, OutOfMemory>
    ensures ok { (read : List ℕ → Option ℤ) → ReadsNumbers read
        → let names = naming_of (S.owner store.old).0 in
        let objects = S.objects store.old in
        let seen = marks_seen names objects common.now foreign.now in
        let decision = maker_resumed names seen read objects next reply in
        IfOk result (λ d. (d, S.objects store.new) ≡ decision) }
    ensures err { OnErr result (StandFirst (S.objects store.old) (S.objects store.new)) }
    ensures party { S.owner store.new ≡ S.owner store.old }
{
    match next {
        Next::Answer => Ok(answered(reply)),
        Next::KindTold { callable } => kind_told(alloc, callable, reply),
        Next::Message { proto, conversion } => {
            let conversion = resume_conversion(alloc, store, common, foreign, conversion, reply)?;
            messaging(alloc, store, proto, conversion)
        }
    }
}

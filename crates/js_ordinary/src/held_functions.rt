// What the functions of the machine do: live accessors of globals, and the accessors that stand in for properties of locked prototypes.

ghost use Rattle.std.specs.Prelude.{◌≡◌, IfOk, option_map};
ghost use Rattle.lava_base.specs.Ids.{same_ref};
ghost use Rattle.js_text.specs.Naming.{naming_of};
ghost use Rattle.js_store.specs.Frozen.{common_ref};
ghost use Rattle.js_ordinary.specs.HeldFunctions.{after_member, after_member_value, after_override, after_result, call_held, call_live_getter, call_live_setter, call_repair_setter, first_argument, member_wait, override};

use crate::next::Next;
use crate::ordinary_set::open_data;
use crate::primitives::{get_v, set_v};
use js_desc::ask::Ask;
use js_desc::decision::Decision;
use js_desc::descriptor::Descriptor;
use js_desc::fault::FaultText;
use js_desc::reply::Reply;
use js_store::slot::{Held, Live};
use js_text::copy::{copy_key, copy_value};
use js_text::value::{Key, Value};
use lava_base::ids::Ref;
use lava_base::list::List;
use lava_base::memory::OutOfMemory;
use std::alloc::Global;

/// Calls a function of the machine. The machine itself runs a `require`.
pub(crate) fn call_held(
    party: u32,
    held: &Held,
    this: &Value,
    args: &List<Value>,
) -> Result<Decision<Next>, OutOfMemory>
    ensures { IfOk result (λ d. d ≡ call_held (naming_of party) held.now this.now args.now) }
{
    match held {
        Held::Require { .. } | Held::ModuleMap => Ok(Decision::Fault(FaultText::NotAFunction)),
        Held::LiveGetter(live) => call_live_getter(live),
        Held::LiveSetter(live) => call_live_setter(live, first_argument(args)?),
        Held::RepairGetter { value } => {
            let value = copy_value(value)?;
            Ok(Decision::Done(Reply::Value(value)))
        }
        Held::RepairSetter { prototype, key } => {
            call_repair_setter(*prototype, key, this, first_argument(args)?)
        }
    }
}

/// The argument of a setter; undefined where there is none.
fn first_argument(args: &List<Value>) -> Result<Value, OutOfMemory>
    ensures { IfOk result (λ v. v ≡ first_argument args.now) }
{
    match args.as_slice() {
        [] => Ok(Value::Undefined),
        [first, ..] => copy_value(first),
    }
}

/// Reads a global of the application's own package, or a member of it (LavaMoat, policy).
fn call_live_getter(live: &Live) -> Result<Decision<Next>, OutOfMemory>
    ensures { IfOk result (λ d. d ≡ call_live_getter live.now) }
{
    let key = copy_key(&live.name)?;
    let next = member_wait(&live.member)?;
    Ok(Decision::Ask {
        target: Some(live.global),
        ask: Ask::Get {
            key,
            receiver: Value::Ref(live.global),
        },
        next,
    })
}

/// What comes after the read of a global: its member, if one is meant.
fn member_wait(member: &Option<Key>) -> Result<Next, OutOfMemory>
    ensures { IfOk result (λ next. next ≡ member_wait member.now) }
{
    match member {
        None => Ok(Next::Answer),
        Some(member) => {
            let key = copy_key(member)?;
            Ok(Next::Member { key })
        }
    }
}

/// Writes a global of the application's own package, or a member of it (LavaMoat, policy).
fn call_live_setter(live: &Live, value: Value) -> Result<Decision<Next>, OutOfMemory>
    ensures { IfOk result (λ d. d ≡ call_live_setter live.now live.now.member value) }
{
    let key = copy_key(&live.name)?;
    match &live.member {
        None => Ok(Decision::Ask {
            target: Some(live.global),
            ask: Ask::Set {
                key,
                value,
                receiver: Value::Ref(live.global),
            },
            next: Next::SetResult,
        }),
        Some(member) => {
            let member = copy_key(member)?;
            Ok(Decision::Ask {
                target: Some(live.global),
                ask: Ask::Get {
                    key,
                    receiver: Value::Ref(live.global),
                },
                next: Next::MemberValue { key: member, value },
            })
        }
    }
}

/// Sets a property over that of a locked prototype, on an object that inherits from it (SES, enablePropertyOverrides).
fn call_repair_setter(
    prototype: Ref,
    key: &Key,
    this: &Value,
    value: Value,
) -> Result<Decision<Next>, OutOfMemory>
    ensures { let decision = call_repair_setter same_ref prototype key.now this.now value in
        IfOk result (λ d. d ≡ decision) }
{
    match this {
        Value::Ref(receiver) if !receiver.is_same(prototype) => {
            let asked = copy_key(key)?;
            let kept = copy_key(key)?;
            Ok(Decision::Ask {
                target: Some(*receiver),
                ask: Ask::GetOwnProperty { key: asked },
                next: Next::Override {
                    key: kept,
                    value,
                    receiver: *receiver,
                },
            })
        }
        _ => Ok(Decision::Fault(FaultText::CannotSet)),
    }
}

/// Goes on once a global's value is there: its member is got.
pub(crate) fn after_member(
    alloc: Global,
    key: Key,
    reply: Reply,
) -> Result<Decision<Next>, OutOfMemory>
    ensures { IfOk result (λ d. d ≡ after_member common_ref key reply) }
{
    match reply {
        Reply::Value(value) => get_v(alloc, value, key),
        Reply::Throw(thrown) => Ok(Decision::Done(Reply::Throw(thrown))),
        _ => Ok(Decision::Fault(FaultText::WrongKind)),
    }
}

/// Goes on once a global's value is there: its member is set.
pub(crate) fn after_member_value(key: Key, value: Value, reply: Reply) -> Decision<Next>
    ensures { result ≡ after_member_value common_ref key value reply }
{
    match reply {
        Reply::Value(receiver) => set_v(receiver, key, value),
        Reply::Throw(thrown) => Decision::Done(Reply::Throw(thrown)),
        _ => Decision::Fault(FaultText::WrongKind),
    }
}

/// Goes on once the receiver has told whether it has the property itself.
pub(crate) fn after_override(key: Key, value: Value, receiver: Ref, reply: Reply) -> Decision<Next>
    ensures { result ≡ after_override key value receiver reply }
{
    match reply {
        Reply::Desc(own) => override_property(key, value, receiver, &own),
        Reply::Throw(thrown) => Decision::Done(Reply::Throw(thrown)),
        _ => Decision::Fault(FaultText::WrongKind),
    }
}

/// Sets a property that the receiver has, and makes one that it has not (SES, enablePropertyOverrides).
fn override_property(
    key: Key,
    value: Value,
    receiver: Ref,
    own: &Option<Descriptor>,
) -> Decision<Next>
    ensures { result ≡ override key value receiver own.now }
{
    match own {
        Some(_) => Decision::Ask {
            target: Some(receiver),
            ask: Ask::Set {
                key,
                value,
                receiver: Value::Ref(receiver),
            },
            next: Next::SetResult,
        },
        None => Decision::Ask {
            target: Some(receiver),
            ask: Ask::DefineOwnProperty {
                key,
                descriptor: open_data(value),
            },
            next: Next::DefineResult,
        },
    }
}

/// Goes on once what had to be done was done, or was refused: then the fault is thrown.
pub(crate) fn after_result(fault: FaultText, reply: Reply) -> Decision<Next>
    ensures { result ≡ after_result fault reply }
{
    match reply {
        Reply::Flag(true) => Decision::Done(Reply::Value(Value::Undefined)),
        Reply::Flag(false) => Decision::Fault(fault),
        Reply::Throw(thrown) => Decision::Done(Reply::Throw(thrown)),
        _ => Decision::Fault(FaultText::WrongKind),
    }
}

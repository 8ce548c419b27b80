// The traps `getPrototypeOf` and `setPrototypeOf`.

ghost use Rattle.std.specs.Prelude.{◌≡◌};
ghost use Rattle.lava_base.specs.Ids.{same_ref};
ghost use Rattle.js_traps.specs.PrototypeTraps.{check_prototype, prototype_answer, prototype_extensible, prototype_fixed, prototype_set, prototype_told, proxy_get_prototype_of, proxy_prototype_extensible, proxy_prototype_fixed, proxy_set_prototype_of};

use crate::come::{prototype_come, truth_come, value_come};
use crate::next::Next;
use js_desc::ask::Ask;
use js_desc::decision::Decision;
use js_desc::fault::FaultText;
use js_desc::reply::Reply;
use js_desc::same::is_same_function;
use js_operations::looks::to_boolean;
use js_text::value::Value;
use lava_base::ids::Ref;

/// What a trap said of the prototype is the answer.
fn prototype_answer(set: bool, proto: Option<Ref>) -> Decision<Next>
    ensures { result ≡ prototype_answer set proto }
{
    if set {
        Decision::Done(Reply::Flag(true))
    } else {
        Decision::Done(Reply::Proto(proto))
    }
}

/// Asks the target whether it is extensible.
fn check_prototype(target: Ref, set: bool, proto: Option<Ref>) -> Decision<Next>
    ensures { result ≡ check_prototype target set proto }
{
    Decision::Ask {
        target: Some(target),
        ask: Ask::IsExtensible,
        next: Next::PrototypeExtensible { target, proto, set },
    }
}

/// What the trap `getPrototypeOf` gave has to be an object or null (ECMA-262, "Proxy Object Internal Methods and Internal Slots", [[GetPrototypeOf]]).
fn prototype_told(target: Ref, value: &Value) -> Decision<Next>
    ensures { result ≡ prototype_told target value.now }
{
    match value {
        Value::Null => check_prototype(target, false, None),
        Value::Ref(proto) => check_prototype(target, false, Some(*proto)),
        _ => Decision::Fault(FaultText::ProxyInvariant),
    }
}

/// Goes on with what the trap `getPrototypeOf` gave.
pub(crate) fn proxy_get_prototype_of(target: Ref, reply: Reply) -> Decision<Next>
    ensures { result ≡ proxy_get_prototype_of target reply }
{
    match value_come(reply) {
        Ok(value) => prototype_told(target, &value),
        Err(decision) => decision,
    }
}

/// The trap `setPrototypeOf` said that the prototype is set, or that it is not.
fn prototype_set(target: Ref, proto: Option<Ref>, set: bool) -> Decision<Next>
    ensures { result ≡ prototype_set target proto set }
{
    if set {
        check_prototype(target, true, proto)
    } else {
        Decision::Done(Reply::Flag(false))
    }
}

/// Goes on with what the trap `setPrototypeOf` gave.
pub(crate) fn proxy_set_prototype_of(
    target: Ref,
    proto: Option<Ref>,
    reply: Reply,
) -> Decision<Next>
    ensures { result ≡ proxy_set_prototype_of target proto reply }
{
    match value_come(reply) {
        Ok(value) => prototype_set(target, proto, to_boolean(&value)),
        Err(decision) => decision,
    }
}

/// Of an extensible target a trap may say anything; another one is asked for its prototype.
fn prototype_extensible(
    target: Ref,
    set: bool,
    proto: Option<Ref>,
    extensible: bool,
) -> Decision<Next>
    ensures { result ≡ prototype_extensible target set proto extensible }
{
    if extensible {
        return prototype_answer(set, proto);
    }
    Decision::Ask {
        target: Some(target),
        ask: Ask::GetPrototypeOf,
        next: Next::PrototypeFixed { proto, set },
    }
}

/// Goes on once the target has told whether it is extensible.
pub(crate) fn proxy_prototype_extensible(
    target: Ref,
    set: bool,
    proto: Option<Ref>,
    reply: Reply,
) -> Decision<Next>
    ensures { result ≡ proxy_prototype_extensible target set proto reply }
{
    match truth_come(reply) {
        Ok(extensible) => prototype_extensible(target, set, proto, extensible),
        Err(decision) => decision,
    }
}

/// The prototype of a target that is not extensible has to be the one that the trap told.
fn prototype_fixed(set: bool, proto: Option<Ref>, there: Option<Ref>) -> Decision<Next>
    ensures { result ≡ prototype_fixed same_ref set proto there }
{
    if is_same_function(proto, there) {
        prototype_answer(set, proto)
    } else {
        Decision::Fault(FaultText::ProxyInvariant)
    }
}

/// Goes on with the prototype of a target that is not extensible.
pub(crate) fn proxy_prototype_fixed(set: bool, proto: Option<Ref>, reply: Reply) -> Decision<Next>
    ensures { result ≡ proxy_prototype_fixed same_ref set proto reply }
{
    match prototype_come(reply) {
        Ok(there) => prototype_fixed(set, proto, there),
        Err(decision) => decision,
    }
}

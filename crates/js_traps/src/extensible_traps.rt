// The traps `isExtensible` and `preventExtensions`.

ghost use Rattle.std.specs.Prelude.{◌≡◌};
ghost use Rattle.js_traps.specs.ExtensibleTraps.{extensible_same, extensions_prevented, not_extensible, proxy_extensible_same, proxy_is_extensible, proxy_not_extensible, proxy_prevent_extensions};

use crate::come::{truth_come, value_come};
use crate::next::Next;
use js_desc::ask::Ask;
use js_desc::decision::Decision;
use js_desc::fault::FaultText;
use js_desc::reply::Reply;
use js_operations::looks::to_boolean;
use lava_base::ids::Ref;

/// Goes on with what the trap `isExtensible` gave: the target is asked too.
pub(crate) fn proxy_is_extensible(target: Ref, reply: Reply) -> Decision<Next>
    ensures { result ≡ proxy_is_extensible target reply }
{
    match value_come(reply) {
        Ok(value) => Decision::Ask {
            target: Some(target),
            ask: Ask::IsExtensible,
            next: Next::ExtensibleSame {
                told: to_boolean(&value),
            },
        },
        Err(decision) => decision,
    }
}

/// The trap `isExtensible` has to say what the target says.
fn extensible_same(told: bool, there: bool) -> Decision<Next>
    ensures { result ≡ extensible_same told there }
{
    if told == there {
        Decision::Done(Reply::Flag(told))
    } else {
        Decision::Fault(FaultText::ProxyInvariant)
    }
}

/// Goes on with what the target says, which the trap has to have said.
pub(crate) fn proxy_extensible_same(told: bool, reply: Reply) -> Decision<Next>
    ensures { result ≡ proxy_extensible_same told reply }
{
    match truth_come(reply) {
        Ok(there) => extensible_same(told, there),
        Err(decision) => decision,
    }
}

/// The trap `preventExtensions` said that the target is closed, or that it is not.
fn extensions_prevented(target: Ref, prevented: bool) -> Decision<Next>
    ensures { result ≡ extensions_prevented target prevented }
{
    if prevented {
        Decision::Ask {
            target: Some(target),
            ask: Ask::IsExtensible,
            next: Next::NotExtensible,
        }
    } else {
        Decision::Done(Reply::Flag(false))
    }
}

/// Goes on with what the trap `preventExtensions` gave.
pub(crate) fn proxy_prevent_extensions(target: Ref, reply: Reply) -> Decision<Next>
    ensures { result ≡ proxy_prevent_extensions target reply }
{
    match value_come(reply) {
        Ok(value) => extensions_prevented(target, to_boolean(&value)),
        Err(decision) => decision,
    }
}

/// A target that the trap called closed must not be extensible.
fn not_extensible(there: bool) -> Decision<Next>
    ensures { result ≡ not_extensible there }
{
    if there {
        Decision::Fault(FaultText::ProxyInvariant)
    } else {
        Decision::Done(Reply::Flag(true))
    }
}

/// Goes on with what the target says, which the trap called closed.
pub(crate) fn proxy_not_extensible(reply: Reply) -> Decision<Next>
    ensures { result ≡ proxy_not_extensible reply }
{
    match truth_come(reply) {
        Ok(there) => not_extensible(there),
        Err(decision) => decision,
    }
}

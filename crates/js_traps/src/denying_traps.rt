// The traps `has` and `deleteProperty`, and what a trap has to keep to that denies a property.

ghost use Rattle.std.specs.Prelude.{◌≡◌};
ghost use Rattle.js_traps.specs.DenyingTraps.{absence_answer, check_denied, denied, denied_extensible, property_deleted, property_known, proxy_delete, proxy_denied, proxy_denied_extensible, proxy_has_property};

use crate::come::{property_come, truth_come, value_come};
use crate::next::{Absence, Next};
use js_desc::ask::Ask;
use js_desc::decision::Decision;
use js_desc::descriptor::Descriptor;
use js_desc::fault::FaultText;
use js_desc::reply::Reply;
use js_operations::looks::to_boolean;
use js_text::value::Key;
use lava_base::ids::Ref;

/// What the proxy answers of a property that is denied.
fn absence_answer(absence: Absence) -> Decision<Next>
    ensures { result ≡ absence_answer absence }
{
    match absence {
        Absence::NoProperty => Decision::Done(Reply::Desc(None)),
        Absence::NotThere => Decision::Done(Reply::Flag(false)),
        Absence::Deleted => Decision::Done(Reply::Flag(true)),
    }
}

/// Asks the target for a property that a trap denies.
pub(crate) fn denied(target: Ref, key: Key, absence: Absence) -> Decision<Next>
    ensures { result ≡ denied target key absence }
{
    Decision::Ask {
        target: Some(target),
        ask: Ask::GetOwnProperty { key },
        next: Next::Denied { target, absence },
    }
}

/// A property of the target that is not configurable may not be denied, nor any one of a target that is not extensible.
fn check_denied(target: Ref, absence: Absence, there: &Option<Descriptor>) -> Decision<Next>
    ensures { result ≡ check_denied target absence there.now }
{
    match there {
        None => absence_answer(absence),
        Some(property) => {
            if property.configurable() {
                Decision::Ask {
                    target: Some(target),
                    ask: Ask::IsExtensible,
                    next: Next::DeniedExtensible { absence },
                }
            } else {
                Decision::Fault(FaultText::ProxyInvariant)
            }
        }
    }
}

/// Goes on with the property of the target that a trap denies.
pub(crate) fn proxy_denied(target: Ref, absence: Absence, reply: Reply) -> Decision<Next>
    ensures { result ≡ proxy_denied target absence reply }
{
    match property_come(reply) {
        Ok(there) => check_denied(target, absence, &there),
        Err(decision) => decision,
    }
}

/// No property of a target that is not extensible may be denied.
fn denied_extensible(absence: Absence, extensible: bool) -> Decision<Next>
    ensures { result ≡ denied_extensible absence extensible }
{
    if extensible {
        absence_answer(absence)
    } else {
        Decision::Fault(FaultText::ProxyInvariant)
    }
}

/// Goes on once the target has told whether it is extensible.
pub(crate) fn proxy_denied_extensible(absence: Absence, reply: Reply) -> Decision<Next>
    ensures { result ≡ proxy_denied_extensible absence reply }
{
    match truth_come(reply) {
        Ok(extensible) => denied_extensible(absence, extensible),
        Err(decision) => decision,
    }
}

/// The trap `has` said that there is a property, or denied it.
fn property_known(target: Ref, key: Key, known: bool) -> Decision<Next>
    ensures { result ≡ property_known target key known }
{
    if known {
        Decision::Done(Reply::Flag(true))
    } else {
        denied(target, key, Absence::NotThere)
    }
}

/// Goes on with what the trap `has` gave.
pub(crate) fn proxy_has_property(target: Ref, key: Key, reply: Reply) -> Decision<Next>
    ensures { result ≡ proxy_has_property target key reply }
{
    match value_come(reply) {
        Ok(value) => property_known(target, key, to_boolean(&value)),
        Err(decision) => decision,
    }
}

/// The trap `deleteProperty` said that a property is gone, or that it is not.
fn property_deleted(target: Ref, key: Key, deleted: bool) -> Decision<Next>
    ensures { result ≡ property_deleted target key deleted }
{
    if deleted {
        denied(target, key, Absence::Deleted)
    } else {
        Decision::Done(Reply::Flag(false))
    }
}

/// Goes on with what the trap `deleteProperty` gave.
pub(crate) fn proxy_delete(target: Ref, key: Key, reply: Reply) -> Decision<Next>
    ensures { result ≡ proxy_delete target key reply }
{
    match value_come(reply) {
        Ok(value) => property_deleted(target, key, to_boolean(&value)),
        Err(decision) => decision,
    }
}

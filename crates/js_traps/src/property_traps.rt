// The traps `getOwnPropertyDescriptor` and `defineProperty`.

ghost use Rattle.std.specs.Prelude.{◌≡◌, IfOk};
ghost use Rattle.lava_base.specs.Ids.{same_ref, same_made_symbol};
ghost use Rattle.js_text.specs.Naming.{naming_of};
ghost use Rattle.js_operations.specs.Looks.{marks_seen};
ghost use Rattle.js_traps.specs.PropertyTraps.{defined_extensible, description_read, is_fixed, is_fixed_as_told, is_fixed_writable, is_given_false, is_unwritable, is_writable, may_be_defined, may_be_told, property_defined, property_told, proxy_define_own_property, proxy_defined_extensible, proxy_defined_found, proxy_description_read, proxy_get_own_property, proxy_property_extensible, proxy_property_found, tell_property};

use crate::come::{property_come, truth_come, value_come};
use crate::denying_traps::denied;
use crate::next::{Absence, Next};
use js_desc::ask::Ask;
use js_desc::complete::{complete, fields};
use js_desc::decision::Decision;
use js_desc::descriptor::{Descriptor, PartialDescriptor};
use js_desc::fault::FaultText;
use js_desc::reply::Reply;
use js_desc::validate::is_compatible_property_descriptor;
use js_operations::descriptions::{
    Description, DescriptionStep, resume_description, to_property_descriptor,
};
use js_operations::looks::to_boolean;
use js_store::foreign::Foreign;
use js_store::frozen::FrozenStore;
use js_store::store::Store;
use js_text::value::{Key, Value};
use lava_base::ids::Ref;
use lava_base::memory::OutOfMemory;
use std::alloc::Global;

/// The trap `defineProperty` said that a property is defined, or that it is not.
fn property_defined(
    target: Ref,
    key: Key,
    fields: PartialDescriptor,
    defined: bool,
) -> Decision<Next>
    ensures { result ≡ property_defined target key fields defined }
{
    if defined {
        Decision::Ask {
            target: Some(target),
            ask: Ask::GetOwnProperty { key },
            next: Next::DefinedFound { target, fields },
        }
    } else {
        Decision::Done(Reply::Flag(false))
    }
}

/// Goes on with what the trap `defineProperty` gave.
pub(crate) fn proxy_define_own_property(
    target: Ref,
    key: Key,
    fields: PartialDescriptor,
    reply: Reply,
) -> Decision<Next>
    ensures { result ≡ proxy_define_own_property target key fields reply }
{
    match value_come(reply) {
        Ok(value) => property_defined(target, key, fields, to_boolean(&value)),
        Err(decision) => decision,
    }
}

/// Goes on with the property of the target, which the trap said to be defined.
pub(crate) fn proxy_defined_found(
    target: Ref,
    fields: PartialDescriptor,
    reply: Reply,
) -> Decision<Next>
    ensures { result ≡ proxy_defined_found target fields reply }
{
    match property_come(reply) {
        Ok(there) => Decision::Ask {
            target: Some(target),
            ask: Ask::IsExtensible,
            next: Next::DefinedExtensible { fields, there },
        },
        Err(decision) => decision,
    }
}

/// Whether a field is given and false.
fn is_given_false(field: Option<bool>) -> bool
    ensures { result ≡ is_given_false field }
{
    match field {
        None => false,
        Some(truth) => !truth,
    }
}

/// Whether a property is not configurable, and its value can be written.
fn is_fixed_writable(property: &Descriptor) -> bool
    ensures { result ≡ is_fixed_writable property.now }
{
    match property {
        Descriptor::Data {
            writable,
            configurable,
            ..
        } => *writable && !*configurable,
        Descriptor::Accessor { .. } => false,
    }
}

/// Whether a trap may say that a property of the target was defined (ECMA-262, "Proxy Object Internal Methods and Internal Slots", [[DefineOwnProperty]]).
fn may_be_defined(extensible: bool, fields: &PartialDescriptor, there: &Option<Descriptor>) -> bool
    ensures { result ≡ may_be_defined same_ref same_made_symbol extensible fields.now there.now }
{
    match there {
        None => extensible && !is_given_false(fields.configurable),
        Some(old) => {
            is_compatible_property_descriptor(extensible, fields, Some(old))
                && (!(is_given_false(fields.configurable) && old.configurable())
                    && !(is_fixed_writable(old) && is_given_false(fields.writable)))
        }
    }
}

/// Says that the property is defined, where the trap may say so.
fn defined_extensible(
    fields: &PartialDescriptor,
    there: &Option<Descriptor>,
    extensible: bool,
) -> Decision<Next>
    ensures { let decision = defined_extensible same_ref same_made_symbol fields.now there.now in
        result ≡ decision extensible }
{
    if may_be_defined(extensible, fields, there) {
        Decision::Done(Reply::Flag(true))
    } else {
        Decision::Fault(FaultText::ProxyInvariant)
    }
}

/// Goes on once the target has told whether it is extensible.
pub(crate) fn proxy_defined_extensible(
    fields: PartialDescriptor,
    there: Option<Descriptor>,
    reply: Reply,
) -> Decision<Next>
    ensures { let same = same_ref in
        result ≡ proxy_defined_extensible same same_made_symbol fields there reply }
{
    match truth_come(reply) {
        Ok(extensible) => defined_extensible(&fields, &there, extensible),
        Err(decision) => decision,
    }
}

/// What the trap `getOwnPropertyDescriptor` gave has to be an object or undefined.
fn property_told(target: Ref, key: Key, value: &Value) -> Decision<Next>
    ensures { result ≡ property_told target key value.now }
{
    match value {
        Value::Undefined => denied(target, key, Absence::NoProperty),
        Value::Ref(description) => Decision::Ask {
            target: Some(target),
            ask: Ask::GetOwnProperty { key },
            next: Next::PropertyFound {
                target,
                description: *description,
            },
        },
        _ => Decision::Fault(FaultText::ProxyInvariant),
    }
}

/// Goes on with what the trap `getOwnPropertyDescriptor` gave.
pub(crate) fn proxy_get_own_property(target: Ref, key: Key, reply: Reply) -> Decision<Next>
    ensures { result ≡ proxy_get_own_property target key reply }
{
    match value_come(reply) {
        Ok(value) => property_told(target, key, &value),
        Err(decision) => decision,
    }
}

/// Goes on with the property of the target, of which the trap gave a description.
pub(crate) fn proxy_property_found(target: Ref, description: Ref, reply: Reply) -> Decision<Next>
    ensures { result ≡ proxy_property_found target description reply }
{
    match property_come(reply) {
        Ok(there) => Decision::Ask {
            target: Some(target),
            ask: Ask::IsExtensible,
            next: Next::PropertyExtensible { description, there },
        },
        Err(decision) => decision,
    }
}

/// Whether a property is not configurable.
pub(crate) fn is_fixed(property: &Descriptor) -> bool
    ensures { result ≡ is_fixed property.now }
{
    !property.configurable()
}

/// Whether a property is data that cannot be written.
fn is_unwritable(property: &Descriptor) -> bool
    ensures { result ≡ is_unwritable property.now }
{
    match property {
        Descriptor::Data { writable, .. } => !*writable,
        Descriptor::Accessor { .. } => false,
    }
}

/// Whether a property is data that can be written.
fn is_writable(property: &Descriptor) -> bool
    ensures { result ≡ is_writable property.now }
{
    match property {
        Descriptor::Data { writable, .. } => *writable,
        Descriptor::Accessor { .. } => false,
    }
}

/// Whether what is said to be fixed is fixed, and unwritable where it is said to be.
fn is_fixed_as_told(new: &Descriptor, there: &Option<Descriptor>) -> bool
    ensures { result ≡ is_fixed_as_told new.now there.now }
{
    match there {
        None => !is_fixed(new),
        Some(old) => {
            !(is_fixed(new) && (old.configurable() || (is_unwritable(new) && is_writable(old))))
        }
    }
}

/// Whether a trap may describe a property so (ECMA-262, "Proxy Object Internal Methods and Internal Slots", [[GetOwnProperty]]).
fn may_be_told(
    extensible: bool,
    new: &Descriptor,
    there: &Option<Descriptor>,
) -> Result<bool, OutOfMemory>
    ensures { let told = may_be_told same_ref same_made_symbol extensible new.now there.now in
        IfOk result (λ b. b ≡ told) }
{
    let given = fields(new)?;
    Ok(
        is_compatible_property_descriptor(extensible, &given, there.as_ref())
            && is_fixed_as_told(new, there),
    )
}

/// Answers with the property that a trap described, where it may.
fn tell_property(
    extensible: bool,
    there: &Option<Descriptor>,
    new: Descriptor,
) -> Result<Decision<Next>, OutOfMemory>
    ensures { let decision = tell_property same_ref same_made_symbol extensible there.now new in
        IfOk result (λ d. d ≡ decision) }
{
    if may_be_told(extensible, &new, there)? {
        Ok(Decision::Done(Reply::Desc(Some(new))))
    } else {
        Ok(Decision::Fault(FaultText::ProxyInvariant))
    }
}

/// Goes on with a description: the object that describes is asked, or the property is told.
fn description_read(
    there: Option<Descriptor>,
    extensible: bool,
    step: DescriptionStep,
) -> Result<Decision<Next>, OutOfMemory>
    ensures { let made = same_made_symbol in
        IfOk result (λ d. d ≡ description_read same_ref made there extensible step) }
{
    match step {
        DescriptionStep::Ask { ask, next } => Ok(Decision::Ask {
            target: Some(next.object),
            ask,
            next: Next::DescriptionRead {
                description: next,
                there,
                extensible,
            },
        }),
        DescriptionStep::Read(read) => tell_property(extensible, &there, complete(&read)?),
        DescriptionStep::Fault(text) => Ok(Decision::Fault(text)),
        DescriptionStep::Throw(thrown) => Ok(Decision::Done(Reply::Throw(thrown))),
    }
}

/// Goes on with what an object that describes a property answers.
pub(crate) fn proxy_description_read<S: Store>(
    alloc: Global,
    store: &S,
    common: &FrozenStore,
    foreign: &Foreign,
    description: Description,
    there: Option<Descriptor>,
    extensible: bool,
    reply: Reply,
) -> Result<Decision<Next>, OutOfMemory>
    ensures { let names = naming_of (S.owner store.now).0 in
        let seen = marks_seen names (S.objects store.now) common.now foreign.now in
        let made = same_made_symbol in
        let decision = proxy_description_read same_ref made seen description there extensible in
        IfOk result (λ d. d ≡ decision reply) }
{
    let step = resume_description(alloc, store, common, foreign, description, reply)?;
    description_read(there, extensible, step)
}

/// Goes on once the target has told whether it is extensible: the description is read.
pub(crate) fn proxy_property_extensible(
    alloc: Global,
    description: Ref,
    there: Option<Descriptor>,
    reply: Reply,
) -> Result<Decision<Next>, OutOfMemory>
    ensures { let made = same_made_symbol in
        let decision = proxy_property_extensible same_ref made description there reply in
        IfOk result (λ d. d ≡ decision) }
{
    match truth_come(reply) {
        Ok(extensible) => {
            let step = to_property_descriptor(alloc, description)?;
            description_read(there, extensible, step)
        }
        Err(decision) => Ok(decision),
    }
}

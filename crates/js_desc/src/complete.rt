// The fields of a property, and the property of some fields.

ghost use Rattle.std.specs.Prelude.{◌≡◌, IfOk};
ghost use Rattle.std.specs.Option.{unwrap_or};
ghost use Rattle.js_desc.specs.Descriptors.{complete_property_descriptor, fields_of, data_with, accessor_with};

use crate::descriptor::{Descriptor, PartialDescriptor};
use js_text::copy::copy_value;
use js_text::value::Value;
use lava_base::ids::Ref;
use lava_base::memory::OutOfMemory;

/// The property with these fields, where a field that is not given is undefined or false (ECMA-262, CompletePropertyDescriptor). It is an accessor exactly where a field of an accessor is given.
pub fn complete(fields: &PartialDescriptor) -> Result<Descriptor, OutOfMemory>
    ensures { IfOk result (λ d. d ≡ complete_property_descriptor fields.now) }
{
    if fields.is_accessor() {
        Ok(accessor_from(fields, None, None, false, false))
    } else {
        data_from(fields, &Value::Undefined, false, false, false)
    }
}

/// All fields of a property, as a definition that makes it.
pub fn fields(property: &Descriptor) -> Result<PartialDescriptor, OutOfMemory>
    ensures { IfOk result (λ d. d ≡ fields_of property.now) }
{
    match property {
        Descriptor::Data {
            value,
            writable,
            enumerable,
            configurable,
        } => Ok(PartialDescriptor {
            value: Some(copy_value(value)?),
            writable: Some(*writable),
            get: None,
            set: None,
            enumerable: Some(*enumerable),
            configurable: Some(*configurable),
        }),
        Descriptor::Accessor {
            get,
            set,
            enumerable,
            configurable,
        } => Ok(PartialDescriptor {
            value: None,
            writable: None,
            get: Some(*get),
            set: Some(*set),
            enumerable: Some(*enumerable),
            configurable: Some(*configurable),
        }),
    }
}

/// A value that is given, or another one.
fn value_or(field: &Option<Value>, other: &Value) -> Result<Value, OutOfMemory>
    ensures { IfOk result (λ v. v ≡ unwrap_or field.now other.now) }
{
    match field {
        None => copy_value(other),
        Some(value) => copy_value(value),
    }
}

/// The data property with the fields that are given, and else with these.
pub(crate) fn data_from(
    fields: &PartialDescriptor,
    value: &Value,
    writable: bool,
    enumerable: bool,
    configurable: bool,
) -> Result<Descriptor, OutOfMemory>
    ensures { IfOk result (λ d.
        d ≡ data_with fields.now value.now writable enumerable configurable) }
{
    Ok(Descriptor::Data {
        value: value_or(&fields.value, value)?,
        writable: fields.writable.unwrap_or(writable),
        enumerable: fields.enumerable.unwrap_or(enumerable),
        configurable: fields.configurable.unwrap_or(configurable),
    })
}

/// The accessor with the fields that are given, and else with these.
pub(crate) fn accessor_from(
    fields: &PartialDescriptor,
    get: Option<Ref>,
    set: Option<Ref>,
    enumerable: bool,
    configurable: bool,
) -> Descriptor
    ensures { result ≡ accessor_with fields.now get set enumerable configurable }
{
    Descriptor::Accessor {
        get: fields.get.unwrap_or(get),
        set: fields.set.unwrap_or(set),
        enumerable: fields.enumerable.unwrap_or(enumerable),
        configurable: fields.configurable.unwrap_or(configurable),
    }
}

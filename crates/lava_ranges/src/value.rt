// Values and properties.

ghost use Rattle.std.specs.Prelude.{◌≡◌, true, Some};
ghost use Rattle.std.specs.List.{AllByRecursion};
ghost use Rattle.lava_base.specs.SafeIntegers.{IsSafe};
ghost use Rattle.lava_trace_laws.specs.Sound.{Sound_partial, Sound_property, Sound_value};

use crate::text::{read_symbol, read_text};
use js_desc::descriptor::{Descriptor, PartialDescriptor};
use js_text::value::Value;
use lava_base::limits::MAX_SAFE_INTEGER;

/// Whether an integer is a safe one.
fn is_safe(number: i64) -> bool
    ensures { result ≡ true → IsSafe number }
{
    -(MAX_SAFE_INTEGER as i64) <= number && number <= MAX_SAFE_INTEGER as i64
}

/// Whether an integer in a value is a safe one.
pub(crate) fn is_sound_value(value: &Value) -> bool
    ensures { result ≡ true → Sound_value value.now }
{
    match value {
        Value::Undefined | Value::Null | Value::Bool(_) | Value::Ref(_) => true,
        Value::Int(number) => is_safe(*number),
        Value::Text(text) => {
            read_text(text);
            true
        }
        Value::Symbol(symbol) => {
            read_symbol(symbol);
            true
        }
    }
}

/// Whether so are all values.
pub(crate) fn are_sound_values(values: &[Value]) -> bool
    ensures { result ≡ true → AllByRecursion Sound_value values.now }
{
    for value in values {
        if !is_sound_value(value) {
            return false;
        }
    }
    true
}

/// Whether so is the value of a definition, where it has one.
pub(crate) fn is_sound_partial(descriptor: &PartialDescriptor) -> bool
    ensures { result ≡ true → Sound_partial descriptor.now }
{
    match &descriptor.value {
        None => true,
        Some(value) => is_sound_value(value),
    }
}

/// Whether so is the value of a data property.
fn is_sound_descriptor(descriptor: &Descriptor) -> bool
    ensures { result ≡ true → Sound_property (Some descriptor.now) }
{
    match descriptor {
        Descriptor::Data { value, .. } => is_sound_value(value),
        Descriptor::Accessor { .. } => true,
    }
}

/// Whether so is a property, where there is one.
pub(crate) fn is_sound_property(property: &Option<Descriptor>) -> bool
    ensures { result ≡ true → Sound_property property.now }
{
    match property {
        None => true,
        Some(descriptor) => is_sound_descriptor(descriptor),
    }
}

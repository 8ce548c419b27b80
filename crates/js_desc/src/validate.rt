// What a definition of a property makes of the property that is there (ECMA-262, ValidateAndApplyPropertyDescriptor).

ghost use Rattle.std.specs.Prelude.{◌≡◌, IfOk, option_map};
ghost use Rattle.std.specs.Bool.{beq};
ghost use Rattle.lava_base.specs.Ids.{same_ref, same_made_symbol};
ghost use Rattle.js_text.specs.Values.{same_value};
ghost use Rattle.js_desc.specs.Descriptors.{same_option};
ghost use Rattle.js_desc.specs.Validate.{validate_and_apply_property_descriptor, is_compatible_property_descriptor, keeps, keeps_data, keeps_kind, keeps_fixed, changed, change_of, change_by};

use crate::complete::{accessor_from, complete, data_from};
use crate::descriptor::{Change, Descriptor, PartialDescriptor};
use crate::same::{is_same_descriptor, is_same_function};
use js_text::same::is_same_value;
use js_text::value::Value;
use lava_base::ids::Ref;
use lava_base::memory::OutOfMemory;

/// What the definition `new` makes of the property `old` of an object (ECMA-262, ValidateAndApplyPropertyDescriptor). None comes exactly where the rule refuses; `Change::Nothing` exactly where it accepts and the property stays as it is.
pub fn validate_apply(
    old: Option<&Descriptor>,
    extensible: bool,
    new: &PartialDescriptor,
) -> Result<Option<Change>, OutOfMemory>
    ensures { let there = option_map (λ d. d.now) old.entry in
        IfOk result (λ change. change ≡ validate_and_apply_property_descriptor
        same_ref same_made_symbol there extensible new.now) }
{
    if is_compatible_property_descriptor(extensible, new, old) {
        Ok(Some(change_from(old, new)?))
    } else {
        Ok(None)
    }
}

/// Whether a definition is allowed, of the property that is there or of a new one (ECMA-262, IsCompatiblePropertyDescriptor).
pub fn is_compatible_property_descriptor(
    extensible: bool,
    new: &PartialDescriptor,
    current: Option<&Descriptor>,
) -> bool
    ensures { let there = option_map (λ d. d.now) current.entry in
        result ≡ is_compatible_property_descriptor
        same_ref same_made_symbol extensible new.now there }
{
    match current {
        None => extensible,
        Some(old) => keep_fixed(old, new),
    }
}

/// What an allowed definition makes of a property (ECMA-262, ValidateAndApplyPropertyDescriptor, steps 2 and 6).
fn change_from(old: Option<&Descriptor>, new: &PartialDescriptor) -> Result<Change, OutOfMemory>
    ensures { let there = option_map (λ d. d.now) old.entry in
        IfOk result (λ change. change ≡ change_by same_ref same_made_symbol new.now there) }
{
    match old {
        None => Ok(Change::Write(complete(new)?)),
        Some(old) => Ok(change_between(old, change(old, new)?)),
    }
}

/// The change from one property to another.
fn change_between(old: &Descriptor, new: Descriptor) -> Change
    ensures { result ≡ change_of same_ref same_made_symbol old.now new }
{
    if is_same_descriptor(old, &new) {
        Change::Nothing
    } else {
        Change::Write(new)
    }
}

/// Whether a definition keeps what a property that is not configurable has to keep (ECMA-262, ValidateAndApplyPropertyDescriptor, step 5).
fn keep_fixed(old: &Descriptor, new: &PartialDescriptor) -> bool
    ensures { result ≡ keeps_fixed same_ref same_made_symbol old.now new.now }
{
    old.configurable()
        || keep_truth(new.configurable, false)
            && keep_truth(new.enumerable, old.enumerable())
            && keep_kind(old, new)
}

/// Whether a definition keeps the kind of a property, and what else a property of its kind has to keep that is not configurable (ECMA-262, ValidateAndApplyPropertyDescriptor, steps 5.c to 5.e).
fn keep_kind(old: &Descriptor, new: &PartialDescriptor) -> bool
    ensures { result ≡ keeps_kind same_ref same_made_symbol old.now new.now }
{
    match old {
        Descriptor::Data {
            value,
            writable,
            ..
        } => !new.is_accessor() && keep_data(value, *writable, new),
        Descriptor::Accessor { get, set, .. } => {
            !new.is_data() && keep_function(new.get, *get) && keep_function(new.set, *set)
        }
    }
}

/// Whether a definition keeps a value that is not writable.
fn keep_data(value: &Value, writable: bool, new: &PartialDescriptor) -> bool
    ensures { result ≡ keeps_data same_ref same_made_symbol value.now writable new.now }
{
    writable || keep_truth(new.writable, false) && keep_value(&new.value, value)
}

/// Whether a field is not given, or is this truth value.
fn keep_truth(field: Option<bool>, there: bool) -> bool
    ensures { result ≡ keeps beq field there }
{
    match field {
        None => true,
        Some(truth) => truth == there,
    }
}

/// Whether a field is not given, or is this value (ECMA-262, SameValue).
fn keep_value(field: &Option<Value>, there: &Value) -> bool
    ensures { result ≡ keeps (same_value same_ref same_made_symbol) field.now there.now }
{
    match field {
        None => true,
        Some(value) => is_same_value(value, there),
    }
}

/// Whether a field is not given, or is this function.
fn keep_function(field: Option<Option<Ref>>, there: Option<Ref>) -> bool
    ensures { result ≡ keeps (same_option same_ref) field there }
{
    match field {
        None => true,
        Some(function) => is_same_function(function, there),
    }
}

/// The property with the fields that a definition gives (ECMA-262, ValidateAndApplyPropertyDescriptor, step 6).
fn change(old: &Descriptor, new: &PartialDescriptor) -> Result<Descriptor, OutOfMemory>
    ensures { IfOk result (λ d. d ≡ changed old.now new.now) }
{
    match old {
        Descriptor::Data {
            value,
            writable,
            enumerable,
            configurable,
        } => {
            if new.is_accessor() {
                Ok(accessor_from(new, None, None, *enumerable, *configurable))
            } else {
                data_from(new, value, *writable, *enumerable, *configurable)
            }
        }
        Descriptor::Accessor {
            get,
            set,
            enumerable,
            configurable,
        } => {
            if new.is_data() {
                data_from(new, &Value::Undefined, false, *enumerable, *configurable)
            } else {
                Ok(accessor_from(new, *get, *set, *enumerable, *configurable))
            }
        }
    }
}

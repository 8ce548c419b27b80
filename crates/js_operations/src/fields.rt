// How an object that describes a property is read, field by field.

ghost use Rattle.std.specs.Prelude.{◌≡◌, IfOk};
ghost use Rattle.js_text.specs.Naming.{naming_of};
ghost use Rattle.js_operations.specs.Fields.{field_after, function_of_field, is_of_both_kinds, name_of_field, no_fields, with_field, with_get, with_set};
ghost use Rattle.js_operations.specs.Looks.{marks_seen};

use crate::looks::{marks_seen, to_boolean};
use js_desc::descriptor::PartialDescriptor;
use js_store::foreign::Foreign;
use js_store::frozen::FrozenStore;
use js_store::store::Store;
use js_text::value::Value;
use lava_base::ids::Ref;

/// The fields of an object that describes a property, in the order in which they are read (ECMA-262, ToPropertyDescriptor).
#[derive(Clone, Copy, Debug, PartialEq, Eq)]
pub enum FieldName {
    Enumerable,
    Configurable,
    Value,
    Writable,
    Get,
    Set,
}

impl FieldName {
    /// The name of the field.
    pub fn name(self) -> &'static str
        ensures { result.now ≡ name_of_field self }
    {
        match self {
            FieldName::Enumerable => "enumerable",
            FieldName::Configurable => "configurable",
            FieldName::Value => "value",
            FieldName::Writable => "writable",
            FieldName::Get => "get",
            FieldName::Set => "set",
        }
    }

    /// The field that is read next, if there is one.
    pub fn field_after(self) -> Option<FieldName>
        ensures { result ≡ field_after self }
    {
        match self {
            FieldName::Enumerable => Some(FieldName::Configurable),
            FieldName::Configurable => Some(FieldName::Value),
            FieldName::Value => Some(FieldName::Writable),
            FieldName::Writable => Some(FieldName::Get),
            FieldName::Get => Some(FieldName::Set),
            FieldName::Set => None,
        }
    }
}

/// A description of which no field is read yet.
pub fn no_fields() -> PartialDescriptor
    ensures { result ≡ no_fields }
{
    PartialDescriptor {
        value: None,
        writable: None,
        get: None,
        set: None,
        enumerable: None,
        configurable: None,
    }
}

/// What is read, with one more field. None comes exactly where it is the function of an accessor, and neither callable nor undefined (ECMA-262, ToPropertyDescriptor).
pub fn with_field<S: Store>(
    store: &S,
    common: &FrozenStore,
    foreign: &Foreign,
    read: PartialDescriptor,
    field: FieldName,
    value: Value,
) -> Option<PartialDescriptor>
    ensures { let names = naming_of (S.owner store.now).0 in
        let seen = marks_seen names (S.objects store.now) common.now foreign.now in
        result ≡ with_field seen read field value }
{
    match field {
        FieldName::Enumerable => Some(PartialDescriptor {
            enumerable: Some(to_boolean(&value)),
            ..read
        }),
        FieldName::Configurable => Some(PartialDescriptor {
            configurable: Some(to_boolean(&value)),
            ..read
        }),
        FieldName::Value => Some(PartialDescriptor {
            value: Some(value),
            ..read
        }),
        FieldName::Writable => Some(PartialDescriptor {
            writable: Some(to_boolean(&value)),
            ..read
        }),
        FieldName::Get => with_get(read, function_of_field(store, common, foreign, &value)),
        FieldName::Set => with_set(read, function_of_field(store, common, foreign, &value)),
    }
}

/// The function that a field of an accessor names, which is callable or undefined.
fn function_of_field<S: Store>(
    store: &S,
    common: &FrozenStore,
    foreign: &Foreign,
    value: &Value,
) -> Option<Option<Ref>>
    ensures { let names = naming_of (S.owner store.now).0 in
        let seen = marks_seen names (S.objects store.now) common.now foreign.now in
        result ≡ function_of_field seen value.now }
{
    match value {
        Value::Undefined => Some(None),
        Value::Ref(function) => {
            if marks_seen(store, common, foreign, *function).callable {
                Some(Some(*function))
            } else {
                None
            }
        }
        _ => None,
    }
}

/// What is read, with the field `get`.
fn with_get(read: PartialDescriptor, function: Option<Option<Ref>>) -> Option<PartialDescriptor>
    ensures { result ≡ with_get read function }
{
    match function {
        None => None,
        Some(get) => Some(PartialDescriptor {
            get: Some(get),
            ..read
        }),
    }
}

/// What is read, with the field `set`.
fn with_set(read: PartialDescriptor, function: Option<Option<Ref>>) -> Option<PartialDescriptor>
    ensures { result ≡ with_set read function }
{
    match function {
        None => None,
        Some(set) => Some(PartialDescriptor {
            set: Some(set),
            ..read
        }),
    }
}

/// Whether a description is of data and of an accessor too, which none may be.
pub fn is_of_both_kinds(read: &PartialDescriptor) -> bool
    ensures { result ≡ is_of_both_kinds read.now }
{
    read.is_accessor() && read.is_data()
}

// How an object that describes a property is read: its fields one after the other, each only where it is there (ECMA-262, ToPropertyDescriptor).

ghost use Rattle.std.specs.Prelude.{◌≡◌, IfOk};
ghost use Rattle.js_text.specs.Naming.{naming_of};
ghost use Rattle.js_operations.specs.Descriptions.{all_read, ask_field, description_resumed, field_come, field_given, field_there, get_field, read_on, to_property_descriptor};
ghost use Rattle.js_operations.specs.Looks.{marks_seen};

use crate::fields::{FieldName, is_of_both_kinds, no_fields, with_field};
use crate::names::name_key;
use js_desc::ask::Ask;
use js_desc::descriptor::PartialDescriptor;
use js_desc::fault::FaultText;
use js_desc::reply::Reply;
use js_store::foreign::Foreign;
use js_store::frozen::FrozenStore;
use js_store::store::Store;
use js_text::value::Value;
use lava_base::ids::{MadeSymbol, Ref};
use lava_base::memory::OutOfMemory;
use std::alloc::Global;

/// An object that describes a property and is being read: what is read of it, and the field that it is asked for.
#[derive(Drop)]
pub struct Description<R = Ref, S = MadeSymbol> {
    pub object: R,
    pub field: FieldName,
    /// Whether the field is there, so that its value is asked for.
    pub is_there: bool,
    pub read: PartialDescriptor<R, S>,
}

/// What comes next of a description that is read.
#[derive(Drop)]
pub enum DescriptionStep<R = Ref, S = MadeSymbol> {
    /// The object is asked; then the reading goes on with its answer.
    Ask {
        ask: Ask<R, S>,
        next: Description<R, S>,
    },
    /// All is read.
    Read(PartialDescriptor<R, S>),
    /// An error with this text is thrown.
    Fault(FaultText),
    /// The object threw.
    Throw(Value<R, S>),
}

/// Asks the object whether it has a field.
fn ask_field(
    alloc: Global,
    object: Ref,
    field: FieldName,
    read: PartialDescriptor,
) -> Result<DescriptionStep, OutOfMemory>
    ensures { IfOk result (λ s. s ≡ ask_field object field read) }
{
    let key = name_key(alloc, field.name())?;
    Ok(DescriptionStep::Ask {
        ask: Ask::HasProperty { key },
        next: Description {
            object,
            field,
            is_there: false,
            read,
        },
    })
}

/// Gets a field that is there.
fn get_field(
    alloc: Global,
    object: Ref,
    field: FieldName,
    read: PartialDescriptor,
) -> Result<DescriptionStep, OutOfMemory>
    ensures { IfOk result (λ s. s ≡ get_field object field read) }
{
    let key = name_key(alloc, field.name())?;
    Ok(DescriptionStep::Ask {
        ask: Ask::Get {
            key,
            receiver: Value::Ref(object),
        },
        next: Description {
            object,
            field,
            is_there: true,
            read,
        },
    })
}

/// Ends where all fields are read.
fn all_read(read: PartialDescriptor) -> DescriptionStep
    ensures { result ≡ all_read read }
{
    if is_of_both_kinds(&read) {
        DescriptionStep::Fault(FaultText::CannotDefine)
    } else {
        DescriptionStep::Read(read)
    }
}

/// Reads the next field, if there is one.
fn read_on(
    alloc: Global,
    object: Ref,
    field: Option<FieldName>,
    read: PartialDescriptor,
) -> Result<DescriptionStep, OutOfMemory>
    ensures { IfOk result (λ s. s ≡ read_on object field read) }
{
    match field {
        None => Ok(all_read(read)),
        Some(field) => ask_field(alloc, object, field, read),
    }
}

/// Begins to read an object that describes a property (ECMA-262, ToPropertyDescriptor).
pub fn to_property_descriptor(alloc: Global, object: Ref) -> Result<DescriptionStep, OutOfMemory>
    ensures { IfOk result (λ s. s ≡ to_property_descriptor object) }
{
    ask_field(alloc, object, FieldName::Enumerable, no_fields())
}

/// Goes on where the object has a field, or has not.
fn field_there(
    alloc: Global,
    object: Ref,
    field: FieldName,
    read: PartialDescriptor,
    is_there: bool,
) -> Result<DescriptionStep, OutOfMemory>
    ensures { IfOk result (λ s. s ≡ field_there object field read is_there) }
{
    if is_there {
        get_field(alloc, object, field, read)
    } else {
        read_on(alloc, object, field.field_after(), read)
    }
}

/// Goes on with what is read, where the field may have its value.
fn field_given(
    alloc: Global,
    object: Ref,
    field: FieldName,
    read: Option<PartialDescriptor>,
) -> Result<DescriptionStep, OutOfMemory>
    ensures { IfOk result (λ s. s ≡ field_given object field read) }
{
    match read {
        None => Ok(DescriptionStep::Fault(FaultText::CannotDefine)),
        Some(read) => read_on(alloc, object, field.field_after(), read),
    }
}

/// How the reading of a description goes on with the answer to its ask. A throw goes on as it is. An answer of another kind than the ask has does not come; it would be the fault `wrong kind`.
pub fn resume_description<S: Store>(
    alloc: Global,
    store: &S,
    common: &FrozenStore,
    foreign: &Foreign,
    next: Description,
    reply: Reply,
) -> Result<DescriptionStep, OutOfMemory>
    ensures { let names = naming_of (S.owner store.now).0 in
        let seen = marks_seen names (S.objects store.now) common.now foreign.now in
        IfOk result (λ s. s ≡ description_resumed seen next reply) }
{
    let Description {
        object,
        field,
        is_there,
        read,
    } = next;
    match reply {
        Reply::Flag(there) if !is_there => field_there(alloc, object, field, read, there),
        Reply::Value(value) if is_there => {
            let read = with_field(store, common, foreign, read, field, value);
            field_given(alloc, object, field, read)
        }
        Reply::Throw(thrown) => Ok(DescriptionStep::Throw(thrown)),
        _ => Ok(DescriptionStep::Fault(FaultText::WrongKind)),
    }
}

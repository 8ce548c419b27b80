// The references in what is sent, from left to right.

ghost use Rattle.std.specs.Prelude.{◌≡◌, ◌++◌, OnOk};
ghost use Rattle.js_crossing.specs.Newest.{all_references, ask_references, descriptor_references, field_references, maybe_references, option_references, partial_references, property_references, reply_references, value_references};

use js_desc::ask::Ask;
use js_desc::descriptor::{Descriptor, PartialDescriptor};
use js_desc::reply::Reply;
use js_text::value::Value;
use lava_base::ids::Ref;
use lava_base::list::List;
use lava_base::memory::OutOfMemory;

fn push_option(references: &mut List<Ref>, object: Option<Ref>) -> Result<(), OutOfMemory>
    ensures { OnOk result (references.new ≡ references.old ++ option_references object) }
{
    match object {
        Some(object) => references.push(object),
        None => Ok(()),
    }
}

fn push_field(references: &mut List<Ref>, field: Option<Option<Ref>>) -> Result<(), OutOfMemory>
    ensures { OnOk result (references.new ≡ references.old ++ field_references field) }
{
    match field {
        Some(object) => push_option(references, object),
        None => Ok(()),
    }
}

fn push_value(references: &mut List<Ref>, value: &Value) -> Result<(), OutOfMemory>
    ensures { OnOk result (references.new ≡ references.old ++ value_references value.now) }
{
    match value {
        Value::Ref(object) => references.push(*object),
        _ => Ok(()),
    }
}

fn push_maybe(references: &mut List<Ref>, value: &Option<Value>) -> Result<(), OutOfMemory>
    ensures { OnOk result (references.new ≡ references.old ++ maybe_references value.now) }
{
    match value {
        Some(value) => push_value(references, value),
        None => Ok(()),
    }
}

fn push_slice(references: &mut List<Ref>, mut values: &[Value]) -> Result<(), OutOfMemory>
    ensures { OnOk result (references.new ≡ references.old ++ all_references values.entry.now) }
{
    while let [first, rest @ ..] = values {
        push_value(references, first)?;
        values = rest;
    }
    Ok(())
}

fn push_values(references: &mut List<Ref>, values: &List<Value>) -> Result<(), OutOfMemory>
    ensures { OnOk result (references.new ≡ references.old ++ all_references values.now) }
{
    push_slice(references, values.as_slice())
}

fn push_descriptor(references: &mut List<Ref>, descriptor: &Descriptor) -> Result<(), OutOfMemory>
    ensures { OnOk result (references.new
        ≡ references.old ++ descriptor_references descriptor.now) }
{
    match descriptor {
        Descriptor::Data { value, .. } => push_value(references, value),
        Descriptor::Accessor { get, set, .. } => {
            push_option(references, *get)?;
            push_option(references, *set)
        }
    }
}

fn push_property(
    references: &mut List<Ref>,
    property: &Option<Descriptor>,
) -> Result<(), OutOfMemory>
    ensures { OnOk result (references.new ≡ references.old ++ property_references property.now) }
{
    match property {
        Some(descriptor) => push_descriptor(references, descriptor),
        None => Ok(()),
    }
}

fn push_partial(references: &mut List<Ref>, partial: &PartialDescriptor) -> Result<(), OutOfMemory>
    ensures { OnOk result (references.new ≡ references.old ++ partial_references partial.now) }
{
    push_maybe(references, &partial.value)?;
    push_field(references, partial.get)?;
    push_field(references, partial.set)
}

/// The references in an ask, without its target, are appended. An ask that makes a party is answered by want of memory: none is made.
pub(crate) fn push_ask(references: &mut List<Ref>, ask: &Ask) -> Result<(), OutOfMemory>
    ensures { OnOk result (references.new ≡ references.old ++ ask_references ask.now) }
{
    match ask {
        Ask::SetPrototypeOf { proto } => push_option(references, *proto),
        Ask::DefineOwnProperty { descriptor, .. } => push_partial(references, descriptor),
        Ask::Get { receiver, .. } => push_value(references, receiver),
        Ask::Set {
            value,
            receiver,
            ..
        } => {
            push_value(references, value)?;
            push_value(references, receiver)
        }
        Ask::Call { this, args } => {
            push_value(references, this)?;
            push_values(references, args)
        }
        Ask::Construct { new_target, args } => {
            references.push(*new_target)?;
            push_values(references, args)
        }
        Ask::Slot { args, .. } => push_values(references, args),
        Ask::Make { .. } => Err(OutOfMemory),
        _ => Ok(()),
    }
}

/// The references in a reply are appended.
pub(crate) fn push_reply(references: &mut List<Ref>, reply: &Reply) -> Result<(), OutOfMemory>
    ensures { OnOk result (references.new ≡ references.old ++ reply_references reply.now) }
{
    match reply {
        Reply::Value(value) | Reply::Throw(value) => push_value(references, value),
        Reply::Proto(proto) => push_option(references, *proto),
        Reply::Desc(property) => push_property(references, property),
        Reply::Flag(_) | Reply::Keys(_) => Ok(()),
    }
}

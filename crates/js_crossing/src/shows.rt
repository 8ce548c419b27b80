// What others may know of a party's own objects once something is sent that names them.

ghost use Rattle.std.specs.Prelude.{OnOk, true, ◌≡◌};
ghost use Rattle.js_crossing.specs.Shows.{makes_none, shows_ask, shows_descriptor, shows_field, shows_maybe, shows_option, shows_partial, shows_property, shows_reply, shows_value, shows_values};

use js_desc::ask::Ask;
use js_desc::descriptor::{Descriptor, PartialDescriptor};
use js_desc::reply::Reply;
use js_machine::machine::Machine;
use js_store::store::Store;
use js_text::value::Value;
use lava_base::ids::Ref;
use lava_base::list::List;
use lava_base::memory::OutOfMemory;

fn show_option<S: Store>(machine: &mut Machine<S>, object: Option<Ref>) -> Result<(), OutOfMemory>
    ensures { OnOk result (machine.new ≡ shows_option object machine.old) }
{
    match object {
        Some(object) => machine.show(object),
        None => Ok(()),
    }
}

fn show_field<S: Store>(
    machine: &mut Machine<S>,
    field: Option<Option<Ref>>,
) -> Result<(), OutOfMemory>
    ensures { OnOk result (machine.new ≡ shows_field field machine.old) }
{
    match field {
        Some(object) => show_option(machine, object),
        None => Ok(()),
    }
}

fn show_value<S: Store>(machine: &mut Machine<S>, value: &Value) -> Result<(), OutOfMemory>
    ensures { OnOk result (machine.new ≡ shows_value value.now machine.old) }
{
    match value {
        Value::Ref(object) => machine.show(*object),
        _ => Ok(()),
    }
}

fn show_maybe<S: Store>(machine: &mut Machine<S>, value: &Option<Value>) -> Result<(), OutOfMemory>
    ensures { OnOk result (machine.new ≡ shows_maybe value.now machine.old) }
{
    match value {
        Some(value) => show_value(machine, value),
        None => Ok(()),
    }
}

fn show_values<S: Store>(machine: &mut Machine<S>, values: &List<Value>) -> Result<(), OutOfMemory>
    ensures { OnOk result (machine.new ≡ shows_values values.now machine.old) }
{
    for i in 0..values.len() {
        show_value(machine, values.item(i))?;
    }
    Ok(())
}

fn show_descriptor<S: Store>(
    machine: &mut Machine<S>,
    descriptor: &Descriptor,
) -> Result<(), OutOfMemory>
    ensures { OnOk result (machine.new ≡ shows_descriptor descriptor.now machine.old) }
{
    match descriptor {
        Descriptor::Data { value, .. } => show_value(machine, value),
        Descriptor::Accessor { get, set, .. } => {
            show_option(machine, *get)?;
            show_option(machine, *set)
        }
    }
}

fn show_property<S: Store>(
    machine: &mut Machine<S>,
    property: &Option<Descriptor>,
) -> Result<(), OutOfMemory>
    ensures { OnOk result (machine.new ≡ shows_property property.now machine.old) }
{
    match property {
        Some(descriptor) => show_descriptor(machine, descriptor),
        None => Ok(()),
    }
}

fn show_partial<S: Store>(
    machine: &mut Machine<S>,
    partial: &PartialDescriptor,
) -> Result<(), OutOfMemory>
    ensures { OnOk result (machine.new ≡ shows_partial partial.now machine.old) }
{
    show_maybe(machine, &partial.value)?;
    show_field(machine, partial.get)?;
    show_field(machine, partial.set)
}

/// The party's own objects that an ask names are known to others from now on. An ask that makes a
/// party is answered by want of memory: none is made.
pub fn show_ask<S: Store>(machine: &mut Machine<S>, ask: &Ask) -> Result<(), OutOfMemory>
    ensures shown { OnOk result (machine.new ≡ shows_ask ask.now machine.old) }
    ensures none { OnOk result (makes_none ask.now ≡ true) }
{
    match ask {
        Ask::SetPrototypeOf { proto } => show_option(machine, *proto),
        Ask::DefineOwnProperty { descriptor, .. } => show_partial(machine, descriptor),
        Ask::Get { receiver, .. } => show_value(machine, receiver),
        Ask::Set {
            value,
            receiver,
            ..
        } => {
            show_value(machine, value)?;
            show_value(machine, receiver)
        }
        Ask::Call { this, args } => {
            show_value(machine, this)?;
            show_values(machine, args)
        }
        Ask::Construct { new_target, args } => {
            machine.show(*new_target)?;
            show_values(machine, args)
        }
        Ask::Slot { args, .. } => show_values(machine, args),
        Ask::Make { .. } => Err(OutOfMemory),
        _ => Ok(()),
    }
}

/// The party's own objects that a reply names are known to others from now on.
pub fn show_reply<S: Store>(machine: &mut Machine<S>, reply: &Reply) -> Result<(), OutOfMemory>
    ensures { OnOk result (machine.new ≡ shows_reply reply.now machine.old) }
{
    match reply {
        Reply::Value(value) | Reply::Throw(value) => show_value(machine, value),
        Reply::Proto(proto) => show_option(machine, *proto),
        Reply::Desc(property) => show_property(machine, property),
        Reply::Flag(_) | Reply::Keys(_) => Ok(()),
    }
}

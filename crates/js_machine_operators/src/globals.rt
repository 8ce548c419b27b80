// Free names: the properties of the global.

ghost use Rattle.std.specs.Prelude.{◌≡◌, Bool, IfOk, if◌then◌else◌};
ghost use Rattle.js_code.specs.Decoded.{term_at, text_at};
ghost use Rattle.js_text.specs.Naming.{naming_of};
ghost use Rattle.js_text.specs.declared.value.Key.TheVariants as key_kind;
ghost use Rattle.js_desc.specs.declared.fault.FaultText.TheVariants as fault_kind;
ghost use Rattle.js_machine.specs.js_run.Faults.{faults};
ghost use Rattle.js_machine.specs.js_run.Properties.{get_global, global_value, missing_global, put_global, set_global};
ghost use Rattle.js_machine.specs.Steps.{LeadsTo};
ghost use Rattle.js_machine.specs.Views.{party_of};

use js_desc::ask::Ask;
use js_desc::fault::FaultText;
use js_machine::frame::{Frame, Mode};
use js_machine::machine::Machine;
use js_store::store::Store;
use js_text::copy::copy_value;
use js_text::value::{Key, Value};
use lava_base::memory::OutOfMemory;

/// The key of a name.
fn name_key<S: Store>(machine: &Machine<S>, name: u32) -> Result<Key, OutOfMemory>
    ensures { let name = text_at machine.now.code name in
        IfOk result (λ k. k ≡ key_kind.Text name) }
{
    Ok(Key::Text(machine.code.text(name).copy()?))
}

/// There is no such name.
fn fault_undefined<S: Store>(machine: &mut Machine<S>, name: u32) -> Result<Mode, OutOfMemory>
    ensures { let missing = fault_kind.NotDefined (text_at machine.old.code name) in
        IfOk result (LeadsTo (λ a. faults (naming_of machine.old.me) missing (party_of a
        machine.old)) machine.old machine.new) }
{
    let name = machine.code.text(name).copy()?;
    machine.fault(FaultText::NotDefined(name))
}

/// Asks whether there is a free name, which is read.
pub fn begin_global<S: Store>(
    machine: &mut Machine<S>,
    name: u32,
    soft: bool,
) -> Result<Mode, OutOfMemory>
    ensures { let text = text_at machine.old.code name in
        IfOk result (LeadsTo (λ a. global_value (naming_of machine.old.me) text soft
        (party_of a machine.old))
        machine.old machine.new) }
{
    let key = name_key(machine, name)?;
    machine.ask(
        machine.global(),
        Ask::HasProperty { key },
        Frame::Global { name, soft },
    )
}

/// Reads a free name that is there.
fn get_global<S: Store>(machine: &mut Machine<S>, name: u32) -> Result<Mode, OutOfMemory>
    ensures { let key = key_kind.Text (text_at machine.old.code name) in
        IfOk result (LeadsTo (λ a. get_global (naming_of machine.old.me) key (party_of a
        machine.old)) machine.old machine.new) }
{
    let key = name_key(machine, name)?;
    let global = machine.global();
    let ask = Ask::Get {
        key,
        receiver: Value::Ref(global),
    };
    machine.ask(global, ask, Frame::Given)
}

/// A free name that is not there: under `typeof` it is undefined.
fn missing_global<S: Store>(
    machine: &mut Machine<S>,
    name: u32,
    soft: bool,
) -> Result<Mode, OutOfMemory>
    ensures { let text = text_at machine.old.code name in
        IfOk result (LeadsTo (λ a. missing_global (naming_of machine.old.me) text soft
        (party_of a machine.old))
        machine.old machine.new) }
{
    if soft {
        return machine.give(Value::Undefined);
    }
    fault_undefined(machine, name)
}

/// Reads a free name, as it is there or not (ECMA-262, GetValue).
pub fn global_found<S: Store>(
    machine: &mut Machine<S>,
    name: u32,
    soft: bool,
    there: bool,
) -> Result<Mode, OutOfMemory>
    ensures { let text = text_at machine.old.code name in
        let names = naming_of machine.old.me in
        IfOk result (LeadsTo (λ a. if there then get_global names (key_kind.Text text) (party_of a
        machine.old) else missing_global names text soft (party_of a machine.old)) machine.old
        machine.new) }
{
    if there {
        return get_global(machine, name);
    }
    missing_global(machine, name, soft)
}

/// Asks whether there is a free name, which is written.
pub fn begin_set_global<S: Store>(
    machine: &mut Machine<S>,
    name: u32,
    value: u32,
) -> Result<Mode, OutOfMemory>
    ensures { let text = text_at machine.old.code name in
        let term = term_at machine.old.code value in
        IfOk result (LeadsTo (λ a. set_global (naming_of machine.old.me) text term
        (party_of a machine.old))
        machine.old machine.new) }
{
    let key = name_key(machine, name)?;
    machine.ask(
        machine.global(),
        Ask::HasProperty { key },
        Frame::SetGlobal { name, value },
    )
}

/// Writes a free name that is there.
fn write_global<S: Store>(
    machine: &mut Machine<S>,
    name: u32,
    value: Value,
) -> Result<Mode, OutOfMemory>
    ensures { let text = text_at machine.old.code name in
        IfOk result (LeadsTo (λ a. put_global (naming_of machine.old.me) text Bool.true value
        (party_of a machine.old)) machine.old machine.new) }
{
    let key = name_key(machine, name)?;
    let global = machine.global();
    machine.push(copy_value(&value)?)?;
    let ask = Ask::Set {
        key,
        value,
        receiver: Value::Ref(global),
    };
    machine.ask(global, ask, Frame::HasSet)
}

/// Writes a free name, as it was there or not (ECMA-262, PutValue).
pub fn put_global<S: Store>(
    machine: &mut Machine<S>,
    name: u32,
    there: bool,
    value: Value,
) -> Result<Mode, OutOfMemory>
    ensures { let text = text_at machine.old.code name in
        IfOk result (LeadsTo (λ a. put_global (naming_of machine.old.me) text there value
        (party_of a machine.old)) machine.old machine.new) }
{
    if there {
        return write_global(machine, name, value);
    }
    fault_undefined(machine, name)
}

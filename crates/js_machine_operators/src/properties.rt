// Properties that are read, written and deleted.

ghost use Rattle.std.specs.Prelude.{◌≡◌, Bool, IfOk, if◌then◌else◌};
ghost use Rattle.js_text.specs.Naming.{naming_of};
ghost use Rattle.js_text.specs.declared.value.Value.TheVariants as truth_value;
ghost use Rattle.js_desc.specs.declared.ask.Ask.TheVariants as ask_kind;
ghost use Rattle.js_desc.specs.declared.fault.FaultText.TheVariants as fault_kind;
ghost use Rattle.js_machine.specs.js_run.Acts.{asks_value, give};
ghost use Rattle.js_machine.specs.js_run.Faults.{faults};
ghost use Rattle.js_machine.specs.js_run.Properties.{delete_property, has_set, put_property};
ghost use Rattle.js_machine.specs.js_run.Rows.{get_key};
ghost use Rattle.js_machine.specs.js_run.Truth.{is_nullish};
ghost use Rattle.js_machine.specs.Conversions.{KeyReaches};
ghost use Rattle.js_machine.specs.Steps.{LeadsTo, WaitsForValue};
ghost use Rattle.js_machine.specs.Views.{party_of};
ghost use Rattle.js_machine.specs.declared.frame.Frame.TheVariants as frame_kind;
ghost use Rattle.js_machine.specs.declared.frame.KeyGoal.TheVariants as key_goal;

use crate::conversions::{key_at_once, with_key_of};
use js_desc::ask::Ask;
use js_desc::fault::FaultText;
use js_machine::branches::is_nullish;
use js_machine::frame::{Frame, KeyGoal, Mode};
use js_machine::machine::Machine;
use js_store::store::Store;
use js_text::copy::copy_value;
use js_text::value::{Key, Value};
use lava_base::memory::OutOfMemory;

/// The value of a property that has this key.
#[tactic(auto, using(js_machine::proofs::Referenced::named))]
fn get_named<S: Store>(
    machine: &mut Machine<S>,
    object: Value,
    key: Key,
) -> Result<Mode, OutOfMemory>
    ensures { let ask = ask_kind.Get key object in
        IfOk result (WaitsForValue frame_kind.Given object ask machine.old machine.new) }
{
    let target = copy_value(&object)?;
    let ask = Ask::Get {
        key,
        receiver: object,
    };
    machine.ask_value(target, ask, Frame::Given)
}

/// The key of a property that is read is known; its object is on the stack.
pub fn key_to_get<S: Store>(machine: &mut Machine<S>, key: Key) -> Result<Mode, OutOfMemory>
    ensures { IfOk result (KeyReaches key_goal.Get key machine.old machine.new) }
{
    let object = machine.take();
    get_named(machine, object, key)
}

/// The key of a property that is read is an object.
fn convert_to_get<S: Store>(
    machine: &mut Machine<S>,
    object: Value,
    key: Value,
) -> Result<Mode, OutOfMemory>
    requires { is_nullish object ≡ Bool.false }
    ensures { IfOk result (LeadsTo (λ a. get_key (naming_of machine.old.me) a.shared object key
        (party_of a machine.old)) machine.old machine.new) }
{
    machine.push(object)?;
    with_key_of(machine, key, KeyGoal::Get)
}

/// The value of a property of a value (ECMA-262, GetValue, step 3).
pub fn get_key<S: Store>(
    machine: &mut Machine<S>,
    object: Value,
    key: Value,
) -> Result<Mode, OutOfMemory>
    ensures { IfOk result (LeadsTo (λ a. get_key (naming_of machine.old.me) a.shared object key
        (party_of a machine.old)) machine.old machine.new) }
{
    if is_nullish(&object) {
        return machine.fault(FaultText::CannotConvert);
    }
    match key_at_once(machine.alloc, &key)? {
        Some(key) => get_named(machine, object, key),
        None => convert_to_get(machine, object, key),
    }
}

/// A property that has this key is set, and a frame that has the value waits for whether it is.
fn ask_to_set<S: Store>(
    machine: &mut Machine<S>,
    object: Value,
    key: Key,
    value: Value,
) -> Result<Mode, OutOfMemory>
    ensures { let names = naming_of machine.old.me in
        let ask = ask_kind.Set key value object in
        IfOk result (LeadsTo (λ a. asks_value names object ask (party_of a machine.old)
        (has_set names value)) machine.old machine.new) }
{
    let target = copy_value(&object)?;
    machine.push(copy_value(&value)?)?;
    let ask = Ask::Set {
        key,
        value,
        receiver: object,
    };
    machine.ask_value(target, ask, Frame::HasSet)
}

/// The key of a property that is set is known; the value and the object below it are on the stack.
pub fn key_to_put<S: Store>(machine: &mut Machine<S>, key: Key) -> Result<Mode, OutOfMemory>
    ensures { IfOk result (KeyReaches key_goal.Put key machine.old machine.new) }
{
    let value = machine.take();
    let object = machine.take();
    ask_to_set(machine, object, key, value)
}

/// The key of a property that is set is an object.
fn convert_to_put<S: Store>(
    machine: &mut Machine<S>,
    object: Value,
    key: Value,
    value: Value,
) -> Result<Mode, OutOfMemory>
    requires { is_nullish object ≡ Bool.false }
    ensures { IfOk result (LeadsTo (λ a. put_property (naming_of machine.old.me) a.shared object key
        value (party_of a machine.old)) machine.old machine.new) }
{
    machine.push(object)?;
    machine.push(value)?;
    with_key_of(machine, key, KeyGoal::Put)
}

/// A property of a value is set (ECMA-262, PutValue, step 3).
pub fn put_property<S: Store>(
    machine: &mut Machine<S>,
    object: Value,
    key: Value,
    value: Value,
) -> Result<Mode, OutOfMemory>
    ensures { IfOk result (LeadsTo (λ a. put_property (naming_of machine.old.me) a.shared object key
        value (party_of a machine.old)) machine.old machine.new) }
{
    if is_nullish(&object) {
        return machine.fault(FaultText::CannotConvert);
    }
    match key_at_once(machine.alloc, &key)? {
        Some(key) => ask_to_set(machine, object, key, value),
        None => convert_to_put(machine, object, key, value),
    }
}

/// Whether a property was set: the value is given, or there is an error.
pub fn set_done<S: Store>(
    machine: &mut Machine<S>,
    done: bool,
    value: Value,
) -> Result<Mode, OutOfMemory>
    ensures { IfOk result (LeadsTo (λ a. if done then give value (party_of a machine.old)
        else faults (naming_of machine.old.me) fault_kind.CannotSet
        (party_of a machine.old)) machine.old machine.new) }
{
    if done {
        return machine.give(value);
    }
    machine.fault(FaultText::CannotSet)
}

/// The key of a property that is deleted is an object.
fn convert_to_delete<S: Store>(
    machine: &mut Machine<S>,
    object: Value,
    key: Value,
) -> Result<Mode, OutOfMemory>
    requires { is_nullish object ≡ Bool.false }
    ensures { IfOk result (LeadsTo (λ a. delete_property (naming_of machine.old.me) a.shared object
        key (party_of a machine.old)) machine.old machine.new) }
{
    machine.push(object)?;
    with_key_of(machine, key, KeyGoal::Delete)
}

/// A property of a value is deleted (ECMA-262, "The delete Operator").
pub fn delete_property<S: Store>(
    machine: &mut Machine<S>,
    object: Value,
    key: Value,
) -> Result<Mode, OutOfMemory>
    ensures { IfOk result (LeadsTo (λ a. delete_property (naming_of machine.old.me) a.shared object
        key (party_of a machine.old)) machine.old machine.new) }
{
    if is_nullish(&object) {
        return machine.fault(FaultText::CannotConvert);
    }
    match key_at_once(machine.alloc, &key)? {
        Some(key) => machine.ask_value(object, Ask::Delete { key }, Frame::HasDeleted),
        None => convert_to_delete(machine, object, key),
    }
}

/// The key of a property that is deleted is known; its object is on the stack.
pub fn key_to_delete<S: Store>(machine: &mut Machine<S>, key: Key) -> Result<Mode, OutOfMemory>
    ensures { IfOk result (KeyReaches key_goal.Delete key machine.old machine.new) }
{
    let object = machine.take();
    machine.ask_value(object, Ask::Delete { key }, Frame::HasDeleted)
}

/// Whether a property was deleted: true is given, or there is an error.
pub fn delete_done<S: Store>(machine: &mut Machine<S>, done: bool) -> Result<Mode, OutOfMemory>
    ensures { IfOk result (LeadsTo (λ a. if done then give (truth_value.Bool Bool.true) (party_of a
        machine.old) else faults (naming_of machine.old.me) fault_kind.CannotDelete (party_of a
        machine.old)) machine.old machine.new) }
{
    if done {
        return machine.give(Value::Bool(true));
    }
    machine.fault(FaultText::CannotDelete)
}

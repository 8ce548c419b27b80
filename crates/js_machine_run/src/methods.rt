// Methods that are called on values, where the key is a form.

ghost use Rattle.std.specs.Prelude.{◌≡◌, Bool, IfOk};
ghost use Rattle.js_code.specs.Decoded.{arguments_at, term_at};
ghost use Rattle.js_text.specs.Naming.{naming_of};
ghost use Rattle.js_machine.specs.js_run.Rows.{call_on_key};
ghost use Rattle.js_machine.specs.js_run.Truth.{is_nullish};
ghost use Rattle.js_machine.specs.Steps.{LeadsTo};
ghost use Rattle.js_machine.specs.Views.{below, party_of, top};

use js_desc::fault::FaultText;
use js_machine::branches::is_nullish;
use js_machine::frame::{KeyGoal, Mode};
use js_machine::machine::Machine;
use js_machine_operators::conversions::{key_at_once, with_key_of};
use js_store::store::Store;
use js_text::value::Value;
use lava_base::memory::OutOfMemory;

/// The key of a method is an object.
fn convert_to_call<S: Store>(
    machine: &mut Machine<S>,
    object: Value,
    key: Value,
    arguments: u32,
) -> Result<Mode, OutOfMemory>
    requires { is_nullish object ≡ Bool.false }
    ensures { let arguments = arguments_at machine.old.code (term_at machine.old.code) arguments in
        IfOk result (LeadsTo (λ a. call_on_key (naming_of machine.old.me) a.shared arguments object
        key (party_of a machine.old)) machine.old machine.new) }
{
    machine.push(object)?;
    with_key_of(machine, key, KeyGoal::Method { arguments })
}

/// A method of a value is called (ECMA-262, GetValue, step 3).
fn read_method<S: Store>(
    machine: &mut Machine<S>,
    object: Value,
    key: Value,
    arguments: u32,
) -> Result<Mode, OutOfMemory>
    ensures { let arguments = arguments_at machine.old.code (term_at machine.old.code) arguments in
        IfOk result (LeadsTo (λ a. call_on_key (naming_of machine.old.me) a.shared arguments object
        key (party_of a machine.old)) machine.old machine.new) }
{
    if is_nullish(&object) {
        return machine.fault(FaultText::CannotConvert);
    }
    match key_at_once(machine.alloc, &key)? {
        Some(key) => machine.ask_method_of(object, key, arguments),
        None => convert_to_call(machine, object, key, arguments),
    }
}

/// The key of a method has its value, which is called on the newest value (ECMA-262, EvaluateCall, of a property reference).
pub fn method_key_comes<S: Store>(
    machine: &mut Machine<S>,
    arguments: u32,
    key: Value,
) -> Result<Mode, OutOfMemory>
    ensures { let arguments = arguments_at machine.old.code (term_at machine.old.code) arguments in
        let object = top machine.old.values in
        let rest = record machine.old { values = below machine.old.values } in
        IfOk result (LeadsTo (λ a. call_on_key (naming_of machine.old.me) a.shared arguments object
        key (party_of a machine.old)) rest machine.new) }
{
    let object = machine.take();
    read_method(machine, object, key, arguments)
}

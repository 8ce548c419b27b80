// What is called, and what constructs: an object is asked.

ghost use Rattle.std.specs.Prelude.{IfOk};
ghost use Rattle.js_text.specs.Naming.{naming_of};
ghost use Rattle.js_text.specs.declared.value.Value.TheVariants as value_kind;
ghost use Rattle.js_machine.specs.js_run.Acts.{give, with_value};
ghost use Rattle.js_machine.specs.js_run.Asking.{calls};
ghost use Rattle.js_machine.specs.js_run.Calls.{constructs_itself};
ghost use Rattle.js_machine.specs.Steps.{LeadsTo};
ghost use Rattle.js_machine.specs.Views.{party_of};

use js_desc::ask::Ask;
use js_desc::fault::FaultText;
use js_machine::decisions::object_of_value;
use js_machine::frame::{Frame, Mode};
use js_machine::machine::Machine;
use js_store::store::Store;
use js_text::value::Value;
use lava_base::ids::Ref;
use lava_base::list::List;
use lava_base::memory::OutOfMemory;

/// An object is called, where it is callable.
fn call_object<S: Store>(
    machine: &mut Machine<S>,
    function: Ref,
    this: Value,
    args: List<Value>,
) -> Result<Mode, OutOfMemory>
    ensures { let callee = value_kind.Ref function in
        IfOk result (LeadsTo (λ a. calls (naming_of machine.old.me) a.shared callee this args
        (party_of a machine.old) (with_value give)) machine.old machine.new) }
{
    if machine.marks_of(function).callable {
        return machine.ask(function, Ask::Call { this, args }, Frame::Given);
    }
    machine.fault(FaultText::NotAFunction)
}

/// A value is called (ECMA-262, Call).
pub fn call_value<S: Store>(
    machine: &mut Machine<S>,
    callee: Value,
    this: Value,
    args: List<Value>,
) -> Result<Mode, OutOfMemory>
    ensures { IfOk result (LeadsTo (λ a. calls (naming_of machine.old.me) a.shared callee this args
        (party_of a machine.old) (with_value give)) machine.old machine.new) }
{
    match object_of_value(&callee) {
        Some(function) => call_object(machine, function, this, args),
        None => machine.fault(FaultText::NotAFunction),
    }
}

/// An object constructs, where it is a constructor.
fn construct_object<S: Store>(
    machine: &mut Machine<S>,
    function: Ref,
    args: List<Value>,
) -> Result<Mode, OutOfMemory>
    ensures { let callee = value_kind.Ref function in
        IfOk result (LeadsTo (λ a. constructs_itself (naming_of machine.old.me) a.shared callee args
        (party_of a machine.old)) machine.old machine.new) }
{
    if machine.marks_of(function).constructor {
        let ask = Ask::Construct {
            new_target: function,
            args,
        };
        return machine.ask(function, ask, Frame::Given);
    }
    machine.fault(FaultText::NotAConstructor)
}

/// A value constructs (ECMA-262, EvaluateNew).
pub fn construct_value<S: Store>(
    machine: &mut Machine<S>,
    callee: Value,
    args: List<Value>,
) -> Result<Mode, OutOfMemory>
    ensures { IfOk result (LeadsTo (λ a. constructs_itself (naming_of machine.old.me) a.shared
        callee args (party_of a machine.old)) machine.old machine.new) }
{
    match object_of_value(&callee) {
        Some(function) => construct_object(machine, function, args),
        None => machine.fault(FaultText::NotAConstructor),
    }
}

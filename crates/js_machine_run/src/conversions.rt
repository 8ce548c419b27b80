// Objects become primitive values and property keys: the frames that wait have the object, and what the value is for below it.

ghost use Rattle.std.specs.Prelude.{IfOk};
ghost use Rattle.js_machine.specs.Conversions.{GoesOnWithResult, Reaches};
ghost use Rattle.js_machine.specs.Steps.{LeadsTo, deed_with, under};
ghost use Rattle.js_machine.specs.declared.frame.Frame.TheVariants as frame_kind;

use js_machine::decisions::object_of_value;
use js_machine::frame::{Goal, Mode};
use js_machine::machine::Machine;
use js_machine_classes::parts::reach_part;
use js_machine_operators::conversions::{next_method, reach_key};
use js_machine_operators::operators::operand_comes;
use js_store::store::Store;
use js_text::value::{Key, Value};
use lava_base::ids::Ref;
use lava_base::memory::OutOfMemory;

/// What a method gave is known: a value that is no object is the primitive one, and else the next method is tried.
fn result_known<S: Store>(
    machine: &mut Machine<S>,
    object: Ref,
    goal: Goal,
    last: bool,
    value: Value,
) -> Result<Mode, OutOfMemory>
    ensures { IfOk result (GoesOnWithResult last object goal value machine.old machine.new) }
{
    match object_of_value(&value) {
        Some(_) => next_method(machine, object, goal, last),
        None => reach(machine, goal, value),
    }
}

/// What a method gave comes to the frame that has the object.
pub fn method_gave<S: Store>(
    machine: &mut Machine<S>,
    last: bool,
    goal: Goal,
    value: Value,
) -> Result<Mode, OutOfMemory>
    ensures { let frame = frame_kind.MethodCalled last goal in
        IfOk result (LeadsTo (deed_with frame value machine.old) (under frame machine.old)
        machine.new) }
{
    let object = machine.take_object();
    result_known(machine, object, goal, last, value)
}

/// What a primitive value is for goes on with it.
fn reach<S: Store>(machine: &mut Machine<S>, goal: Goal, value: Value) -> Result<Mode, OutOfMemory>
    ensures { IfOk result (Reaches goal value machine.old machine.new) }
{
    match goal {
        Goal::Operand(rest) => operand_comes(machine, rest, value),
        Goal::Key(goal) => reach_key(machine, goal, value),
        Goal::Part {
            enumerable,
            at,
            left,
        } => reach_part(machine, enumerable, at, left, value),
    }
}

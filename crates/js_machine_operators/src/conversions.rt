// Objects become primitive values and property keys: the frames that wait have the object, and what the value is for below it.

ghost use Rattle.std.specs.Prelude.{◌≡◌, IfOk};
ghost use Rattle.js_machine.specs.Conversions.{BecomesBy, BecomesKey, CallsMethod, GoesOnWithMethod, KeyReaches, Reaches, callable_in};
ghost use Rattle.js_machine.specs.Keys.{plain_key};
ghost use Rattle.js_machine.specs.Steps.{LeadsTo, deed_with, under};
ghost use Rattle.js_machine.specs.Views.{as_text, methods_behind};
ghost use Rattle.js_machine.specs.declared.frame.Frame.TheVariants as frame_kind;
ghost use Rattle.js_machine.specs.declared.frame.Goal.TheVariants as goal_kind;

use crate::properties::{key_to_delete, key_to_get, key_to_put};
use js_desc::ask::Ask;
use js_desc::fault::FaultText;
use js_machine::decisions::object_of_value;
use js_machine::frame::{Frame, Goal, KeyGoal, Mode};
use js_machine::machine::Machine;
use js_machine::plain_keys::plain_key;
use js_store::store::Store;
use js_text::value::{Key, Value};
use lava_base::ids::Ref;
use lava_base::list::List;
use lava_base::memory::OutOfMemory;
use std::alloc::Global;

/// The property key that a value is at once; an object is none.
pub fn key_at_once(alloc: Global, value: &Value) -> Result<Option<Key>, OutOfMemory>
    ensures { IfOk result (λ k. k ≡ plain_key value.now) }
{
    match value {
        Value::Ref(_) => Ok(None),
        _ => Ok(Some(plain_key(alloc, value)?)),
    }
}

/// The object that can be called that a value is (ECMA-262, IsCallable).
fn callable_of<S: Store>(machine: &Machine<S>, value: &Value) -> Option<Ref>
    ensures { result ≡ callable_in machine.now value.now }
{
    match value {
        Value::Ref(object) => {
            if machine.marks_of(*object).callable {
                return Some(*object);
            }
            None
        }
        _ => None,
    }
}

/// The next method is tried, if there is one.
pub fn next_method<S: Store>(
    machine: &mut Machine<S>,
    object: Ref,
    goal: Goal,
    last: bool,
) -> Result<Mode, OutOfMemory>
    ensures { let methods = methods_behind last (as_text goal) in
        IfOk result (BecomesBy methods object goal machine.old machine.new) }
{
    if last {
        machine.discard(goal.held());
        return machine.fault(FaultText::CannotConvert);
    }
    machine.ask_method(object, goal, true)
}

/// A method of an object is called.
fn call_method<S: Store>(
    machine: &mut Machine<S>,
    object: Ref,
    goal: Goal,
    last: bool,
    function: Ref,
) -> Result<Mode, OutOfMemory>
    ensures { IfOk result (CallsMethod last object goal function machine.old machine.new) }
{
    machine.push(Value::Ref(object))?;
    let ask = Ask::Call {
        this: Value::Ref(object),
        args: List::new(machine.alloc),
    };
    machine.ask(function, ask, Frame::MethodCalled { last, goal })
}

/// A method of an object is known: it is called where it can be, and else the next one is tried.
fn method_known<S: Store>(
    machine: &mut Machine<S>,
    object: Ref,
    goal: Goal,
    last: bool,
    method: Value,
) -> Result<Mode, OutOfMemory>
    ensures { IfOk result (GoesOnWithMethod last object goal method machine.old machine.new) }
{
    match callable_of(machine, &method) {
        Some(function) => call_method(machine, object, goal, last, function),
        None => next_method(machine, object, goal, last),
    }
}

/// A method comes to the frame that has the object.
pub fn method_got<S: Store>(
    machine: &mut Machine<S>,
    last: bool,
    goal: Goal,
    method: Value,
) -> Result<Mode, OutOfMemory>
    ensures { let frame = frame_kind.MethodGot last goal in
        IfOk result (LeadsTo (deed_with frame method machine.old)
        (under frame machine.old) machine.new) }
{
    let object = machine.take_object();
    method_known(machine, object, goal, last, method)
}

/// A primitive value becomes a property key (ECMA-262, ToPropertyKey, steps 2 and 3).
pub fn reach_key<S: Store>(
    machine: &mut Machine<S>,
    goal: KeyGoal,
    value: Value,
) -> Result<Mode, OutOfMemory>
    ensures { let goal = goal_kind.Key goal in
        IfOk result (Reaches goal value machine.old machine.new) }
{
    match key_at_once(machine.alloc, &value)? {
        Some(key) => key_comes(machine, goal, key),
        None => {
            machine.discard(goal.held());
            machine.fault(FaultText::CannotConvert)
        }
    }
}

/// What a property key is for goes on with it.
fn key_comes<S: Store>(
    machine: &mut Machine<S>,
    goal: KeyGoal,
    key: Key,
) -> Result<Mode, OutOfMemory>
    ensures { IfOk result (KeyReaches goal key machine.old machine.new) }
{
    match goal {
        KeyGoal::Get => key_to_get(machine, key),
        KeyGoal::Put => key_to_put(machine, key),
        KeyGoal::Delete => key_to_delete(machine, key),
        KeyGoal::Method { arguments } => machine.key_to_method(arguments, key),
        KeyGoal::Super { call } => machine.key_to_super(call, key),
    }
}

/// A value becomes a property key, and what that is for goes on with it: at once, or once an object became a primitive value (ECMA-262, ToPropertyKey). What it is for stands on the stack of values.
pub fn with_key_of<S: Store>(
    machine: &mut Machine<S>,
    value: Value,
    goal: KeyGoal,
) -> Result<Mode, OutOfMemory>
    ensures { IfOk result (BecomesKey value goal machine.old machine.new) }
{
    match object_of_value(&value) {
        Some(object) => machine.convert_object(object, Goal::Key(goal)),
        None => reach_key(machine, goal, value),
    }
}

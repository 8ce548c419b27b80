// Loops.

ghost use Rattle.std.specs.Prelude.{IfOk, if◌then◌else◌};
ghost use Rattle.js_machine.specs.js_run.Acts.{Evaluate, Tested, Turned, give};
ghost use Rattle.js_machine.specs.js_run.Control.{loop_begins};
ghost use Rattle.js_machine.specs.js_run.Truth.{to_boolean};
ghost use Rattle.js_text.specs.declared.value.Value.TheVariants as undefined_value;
ghost use Rattle.js_machine.specs.Steps.{LeadsTo};
ghost use Rattle.js_machine.specs.Views.{party_of, turns_at};

use crate::branches::is_true;
use js_machine::frame::{Frame, Mode};
use js_machine::machine::Machine;
use js_store::store::Store;
use js_text::value::Value;
use lava_base::memory::OutOfMemory;

/// The test of a loop's next turn.
pub fn test<S: Store>(machine: &mut Machine<S>, turns: u32) -> Result<Mode, OutOfMemory>
    ensures { let turn = turns_at machine.old.code turns in
        IfOk result (LeadsTo (λ a. Evaluate turn.test (party_of a machine.old) (Tested turn))
        machine.old machine.new) }
{
    let row = machine.code.turn(turns);
    machine.wait(Frame::Tested { turns }, row.test)
}

/// A turn of a loop.
pub fn turn<S: Store>(machine: &mut Machine<S>, turns: u32) -> Result<Mode, OutOfMemory>
    ensures { let turn = turns_at machine.old.code turns in
        IfOk result (LeadsTo (λ a. Evaluate turn.body (party_of a machine.old) (Turned turn))
        machine.old machine.new) }
{
    let row = machine.code.turn(turns);
    machine.wait(Frame::Turned { turns }, row.body)
}

/// A turn of a loop, or its end.
fn turn_or_end<S: Store>(
    machine: &mut Machine<S>,
    truth: bool,
    turns: u32,
) -> Result<Mode, OutOfMemory>
    ensures { let turn = turns_at machine.old.code turns in
        IfOk result (LeadsTo (λ a. if truth then Evaluate turn.body (party_of a machine.old) (Turned
        turn) else give undefined_value.Undefined (party_of a machine.old)) machine.old machine.new) }
{
    if truth {
        return turn(machine, turns);
    }
    machine.give(Value::Undefined)
}

/// The test of a turn has its value.
pub fn tested<S: Store>(
    machine: &mut Machine<S>,
    turns: u32,
    value: Value,
) -> Result<Mode, OutOfMemory>
    ensures { let turn = turns_at machine.old.code turns in
        IfOk result (LeadsTo (λ a. if to_boolean value then Evaluate turn.body (party_of a
        machine.old) (Turned turn) else give undefined_value.Undefined (party_of a machine.old))
        machine.old machine.new) }
{
    turn_or_end(machine, is_true(&value), turns)
}

/// A loop begins with its test or with its first turn.
pub fn begin_loop<S: Store>(
    machine: &mut Machine<S>,
    turns: u32,
    tests_first: bool,
) -> Result<Mode, OutOfMemory>
    ensures { let turn = turns_at machine.old.code turns in
        IfOk result (LeadsTo (λ a. loop_begins tests_first turn (party_of a machine.old))
        machine.old machine.new) }
{
    if tests_first {
        return test(machine, turns);
    }
    crate::loops::turn(machine, turns)
}

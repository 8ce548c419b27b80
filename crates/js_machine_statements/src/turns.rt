// What follows a turn of a loop.

ghost use Rattle.std.specs.Prelude.{◌≡◌, IfOk, map, true};
ghost use Rattle.js_code.specs.Decoded.{text_at};
ghost use Rattle.js_code.specs.Tables.{part_of};
ghost use Rattle.js_machine.specs.js_run.Acts.{give, is_label, next_turn};
ghost use Rattle.js_text.specs.Texts.{same_units};
ghost use Rattle.js_machine.specs.Steps.{IsDelivered, LeadsTo};
ghost use Rattle.js_machine.specs.Views.{is_completion, party_of, turns_at};
ghost use Rattle.js_machine.specs.declared.frame.Frame.TheVariants as frame;
ghost use Rattle.js_machine.specs.declared.frame.Mode.TheVariants as mode_kind;

use crate::loops::test;
use js_machine::frame::{Frame, Mode};
use js_machine::machine::Machine;
use js_store::store::Store;
use js_text::value::Value;
use lava_base::memory::OutOfMemory;

/// Whether two texts have the same units.
fn is_same_text<S: Store>(machine: &Machine<S>, first: u32, second: u32) -> bool
    ensures { let text = text_at machine.now.code in
        result ≡ same_units (text first) (text second) }
{
    machine.code.text(first).is_same(machine.code.text(second))
}

/// Whether a label is one of a list.
fn is_label<S: Store>(
    machine: &Machine<S>,
    label: u32,
    start: u32,
    count: u32,
) -> Result<bool, OutOfMemory>
    ensures { let part = part_of start count machine.now.code.numbers in
        let labels = map (text_at machine.now.code) part in
        IfOk result (λ is. is ≡ is_label (text_at machine.now.code label) labels) }
{
    let there = machine.listed(start, count)?;
    for i in 0..there {
        if is_same_text(machine, label, machine.number(start + i)) {
            return Ok(true);
        }
    }
    Ok(false)
}

/// Whether a label is one of a loop's.
fn has_label<S: Store>(machine: &Machine<S>, turns: u32, label: u32) -> Result<bool, OutOfMemory>
    ensures { let labels = (turns_at machine.now.code turns).labels in
        IfOk result (λ is. is ≡ is_label (text_at machine.now.code label) labels) }
{
    let row = machine.code.turn(turns);
    is_label(machine, label, row.labels_start, row.labels_count)
}

/// What a loop does after a turn, and then the next one.
pub fn next_turn<S: Store>(machine: &mut Machine<S>, turns: u32) -> Result<Mode, OutOfMemory>
    ensures { let turn = turns_at machine.old.code turns in
        IfOk result (LeadsTo (λ a. next_turn turn turn.update (party_of a machine.old))
        machine.old machine.new) }
{
    match machine.code.turn(turns).update {
        None => test(machine, turns),
        Some(update) => machine.wait(Frame::Updated { turns }, update),
    }
}

/// A turn ends with a value.
fn end_turn<S: Store>(machine: &mut Machine<S>, turns: u32) -> Result<Mode, OutOfMemory>
    ensures { IfOk result (IsDelivered (frame.Turned turns) mode_kind.Value machine.old machine.new) }
{
    let _value = machine.take();
    next_turn(machine, turns)
}

/// A turn ends with a `continue` (ECMA-262, LoopContinues).
#[tactic(auto, using(crate::proofs::Turned::goes_round, crate::proofs::Turned::goes_further))]
fn continue_turn<S: Store>(
    machine: &mut Machine<S>,
    turns: u32,
    to: u32,
) -> Result<Mode, OutOfMemory>
    ensures { let mode = mode_kind.Continue to in
        IfOk result (IsDelivered (frame.Turned turns) mode machine.old machine.new) }
{
    let own = has_label(machine, turns, to)?;
    if own {
        return next_turn(machine, turns);
    }
    Ok(Mode::Continue(to))
}

/// A turn ends with a `break` (ECMA-262, "Runtime Semantics: LoopEvaluation").
#[tactic(auto, using(crate::proofs::Turned::loop_left, crate::proofs::Turned::loop_passed))]
fn break_turn<S: Store>(machine: &mut Machine<S>, turns: u32, to: u32) -> Result<Mode, OutOfMemory>
    ensures { let mode = mode_kind.Break to in
        IfOk result (IsDelivered (frame.Turned turns) mode machine.old machine.new) }
{
    let own = has_label(machine, turns, to)?;
    if own {
        return machine.give(Value::Undefined);
    }
    Ok(Mode::Break(to))
}

/// What comes out of a turn ends the loop, or goes on with it.
#[tactic(auto, using(crate::proofs::Turned::passes_turn))]
pub fn deliver_turn<S: Store>(
    machine: &mut Machine<S>,
    turns: u32,
    mode: Mode,
) -> Result<Mode, OutOfMemory>
    requires { is_completion mode ≡ true }
    ensures { IfOk result (IsDelivered (frame.Turned turns) mode machine.old machine.new) }
{
    match mode {
        Mode::Value => end_turn(machine, turns),
        Mode::Continue(to) => continue_turn(machine, turns, to),
        Mode::Break(to) => break_turn(machine, turns, to),
        _ => Ok(mode),
    }
}

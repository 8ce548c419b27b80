// Forms that others wait for.

ghost use Rattle.std.specs.Prelude.{◌≡◌, IfOk, get_or};
ghost use Rattle.js_code.specs.Decoded.{no_turn_row, term_at, terms_of};
ghost use Rattle.js_in_place.specs.InPlace.{LedTo, WaitsIn};
ghost use Rattle.js_machine.specs.Views.{party_of, turns_at};
ghost use Rattle.js_machine.specs.js_run.Acts.{Evaluate, Tested, Turned, next_turn};
ghost use Rattle.js_machine.specs.js_run.Control.{in_order, loop_begins};

use crate::spot::{Stand, at_form, at_value};
use js_code::node::TurnRow;
use js_direct::plain::Plain;
use js_machine::frame::Frame;
use js_machine::machine::Machine;
use js_store::store::Store;
use lava_base::memory::OutOfMemory;

/// A form begins, and a frame waits for it.
#[inline]
pub fn wait<S: Store>(
    machine: &mut Machine<S>,
    frame: Frame,
    at: u32,
    left: u64,
) -> Result<Stand, OutOfMemory>
    ensures { IfOk result (WaitsIn frame at left machine.old machine.new) }
{
    machine.push_frame(frame)?;
    Ok(at_form(at, left))
}

/// Forms in their order; the last one takes the place of the list (ECMA-262, "Block").
#[inline]
pub fn in_order<S: Store>(
    machine: &mut Machine<S>,
    start: u32,
    count: u32,
    left: u64,
) -> Result<Stand, OutOfMemory>
    ensures { let terms = terms_of machine.old.code (term_at machine.old.code) start count in
        IfOk result (LedTo (λ a. in_order terms (party_of a machine.old)) left
        machine.old machine.new) }
{
    let there = machine.listed(start, count)?;
    if there == 0 {
        return Ok(at_value(Plain::Undefined, left));
    }
    let first = machine.number(start);
    if there == 1 {
        return Ok(at_form(first, left));
    }
    let rest = Frame::Seq {
        start: start + 1,
        count: count - 1,
    };
    wait(machine, rest, first, left)
}

/// What a loop does each turn.
#[inline]
pub fn turn_row<S: Store>(machine: &Machine<S>, turns: u32) -> TurnRow
    ensures { result ≡ get_or machine.now.code.turns turns no_turn_row }
{
    machine.code.turn(turns)
}

/// The test of a loop's next turn.
#[inline]
pub fn test<S: Store>(machine: &mut Machine<S>, turns: u32, left: u64) -> Result<Stand, OutOfMemory>
    ensures { let turn = turns_at machine.old.code turns in
        IfOk result (LedTo (λ a. Evaluate turn.test (party_of a machine.old) (Tested turn)) left
        machine.old machine.new) }
{
    let row = turn_row(machine, turns);
    wait(machine, Frame::Tested { turns }, row.test, left)
}

/// A turn of a loop.
#[inline]
pub fn turn<S: Store>(machine: &mut Machine<S>, turns: u32, left: u64) -> Result<Stand, OutOfMemory>
    ensures { let turn = turns_at machine.old.code turns in
        IfOk result (LedTo (λ a. Evaluate turn.body (party_of a machine.old) (Turned turn)) left
        machine.old machine.new) }
{
    let row = turn_row(machine, turns);
    wait(machine, Frame::Turned { turns }, row.body, left)
}

/// What a loop does after a turn, and then the next one.
#[inline]
pub fn next_turn<S: Store>(
    machine: &mut Machine<S>,
    turns: u32,
    left: u64,
) -> Result<Stand, OutOfMemory>
    ensures { let turn = turns_at machine.old.code turns in
        IfOk result (LedTo (λ a. next_turn turn turn.update (party_of a machine.old)) left
        machine.old machine.new) }
{
    match turn_row(machine, turns).update {
        None => test(machine, turns, left),
        Some(update) => wait(machine, Frame::Updated { turns }, update, left),
    }
}

// The steps of a machine: completions are handed on, and what was charged for is done.

ghost use Rattle.std.specs.Prelude.{◌≡◌, [], IfOk, true};
ghost use Rattle.js_machine.specs.Steps.{IsDelivered};
ghost use Rattle.js_machine.specs.Stops.{IsWorked, Stays};
ghost use Rattle.js_machine.specs.Views.{is_completion, is_due, is_handed, takes_values};
ghost use Rattle.js_machine.specs.declared.frame.Frame.TheVariants as frame_kind;
ghost use Rattle.js_machine.specs.declared.frame.Mode.TheVariants as mode_kind;

use crate::answers::deliver_answer;
use crate::begin::begin;
use crate::decisions::{decide, resume_thrown};
use crate::deliver::deliver_value;
use crate::newest::deliver_newest;
use crate::wakes::resume_jumped;
use js_in_place::frames::take_frame;
use js_in_place::js_machine_statements::blocks::{deliver_label, exit_scope};
use js_in_place::js_machine_statements::returns::{
    deliver_built, deliver_called, deliver_constructed, deliver_derived,
};
use js_in_place::js_machine_statements::tries::{deliver_guarded, deliver_handled};
use js_in_place::js_machine_statements::turns::deliver_turn;
use js_machine::frame::{Frame, Mode};
use js_machine::machine::Machine;
use js_machine_modules::modules::{deliver_module_body, deliver_module_ends};
use js_machine_natives::natives::{deliver_charged, deliver_made};
use js_machine_natives::slot_asks::{deliver_refused, deliver_slot};
use js_machine_operators::operators::deliver_paid;
use js_store::store::Store;
use js_text::value::Value;
use lava_base::memory::OutOfMemory;

/// A completion comes to a frame that takes values alone.
fn deliver_plain<S: Store>(
    machine: &mut Machine<S>,
    frame: Frame,
    mode: Mode,
) -> Result<Mode, OutOfMemory>
    requires takes { takes_values frame ≡ true }
    requires comes { is_completion mode ≡ true }
    ensures { IfOk result (IsDelivered frame mode machine.old machine.new) }
{
    match mode {
        Mode::Value => deliver_value(machine, frame),
        _ => machine.pass(frame, mode),
    }
}

/// A completion comes to a decision that waits.
fn deliver_decision<S: Store>(machine: &mut Machine<S>, mode: Mode) -> Result<Mode, OutOfMemory>
    requires { is_completion mode ≡ true }
    ensures { IfOk result (IsDelivered frame_kind.Decides mode machine.old machine.new) }
{
    match mode {
        Mode::Value => deliver_value(machine, Frame::Decides),
        Mode::Throw => resume_thrown(machine),
        _ => resume_jumped(machine, mode),
    }
}

/// A completion comes to a frame that was taken off.
pub fn deliver<S: Store>(
    machine: &mut Machine<S>,
    frame: Frame,
    mode: Mode,
) -> Result<Mode, OutOfMemory>
    requires { is_completion mode ≡ true }
    ensures { IfOk result (IsDelivered frame mode machine.old machine.new) }
{
    match frame {
        Frame::ScopeExit { scope } => Ok(exit_scope(machine, scope, mode)),
        Frame::Turned { turns } => deliver_turn(machine, turns, mode),
        Frame::Label { label } => deliver_label(machine, label, mode),
        Frame::Guarded { guarded } => deliver_guarded(machine, guarded, mode),
        Frame::Handled { guarded, scope } => deliver_handled(machine, guarded, scope, mode),
        Frame::Decides => deliver_decision(machine, mode),
        Frame::Called => deliver_called(machine, mode),
        Frame::Constructed { object } => deliver_constructed(machine, object, mode),
        Frame::Derived => deliver_derived(machine, mode),
        Frame::Built => deliver_built(machine, mode),
        Frame::Paid => deliver_paid(machine, mode),
        Frame::Charged { which, count } => deliver_charged(machine, which, count, mode),
        Frame::Made => deliver_made(machine, mode),
        Frame::ModuleBody {
            number,
            template,
            object,
        } => deliver_module_body(machine, number, template, object, mode),
        Frame::ModuleEnds { number, template } => {
            deliver_module_ends(machine, number, template, mode)
        }
        Frame::SlotCharged { which, count } => deliver_slot(machine, which, count, mode),
        Frame::Refused { converts } => deliver_refused(machine, converts, mode),
        _ => deliver_plain(machine, frame, mode),
    }
}

/// A completion or an answer comes to a frame that was taken off.
fn deliver_any<S: Store>(
    machine: &mut Machine<S>,
    frame: Frame,
    mode: Mode,
) -> Result<Mode, OutOfMemory>
    requires { is_handed mode ≡ true }
    ensures { IfOk result (IsDelivered frame mode machine.old machine.new) }
{
    match mode {
        Mode::Answer => deliver_answer(machine, frame),
        _ => deliver(machine, frame, mode),
    }
}

/// The newest value comes to the newest frame; where there is none, the body is over.
#[inline]
fn hand_value<S: Store>(machine: &mut Machine<S>) -> Result<Mode, OutOfMemory>
    ensures { IfOk result (Stays mode_kind.Value machine.old machine.new) }
{
    match take_frame(machine) {
        Some(frame) => deliver_newest(machine, frame),
        None => Ok(Mode::Value),
    }
}

/// A completion or an answer comes to the newest frame; where there is none, the body is over.
fn hand_any<S: Store>(machine: &mut Machine<S>, mode: Mode) -> Result<Mode, OutOfMemory>
    requires { is_handed mode ≡ true }
    ensures { IfOk result (Stays mode machine.old machine.new) }
{
    match take_frame(machine) {
        Some(frame) => deliver_any(machine, frame, mode),
        None => Ok(mode),
    }
}

/// A completion or an answer comes to the newest frame; where there is none, the body is over.
#[inline]
fn hand<S: Store>(machine: &mut Machine<S>, mode: Mode) -> Result<Mode, OutOfMemory>
    requires { is_handed mode ≡ true }
    ensures { IfOk result (Stays mode machine.old machine.new) }
{
    match mode {
        Mode::Value => hand_value(machine),
        _ => hand_any(machine, mode),
    }
}

/// Completions are handed on until there is something to do, or the run stops. Each takes one
/// frame off, so as many as there are frames are enough.
#[inline(never)]
#[tactic(auto, using(crate::proofs::Handed::stays_so, crate::proofs::Handed::stays_further, crate::proofs::Handed::no_frames))]
fn settle_handed<S: Store>(machine: &mut Machine<S>, mode: Mode) -> Result<Mode, OutOfMemory>
    ensures stays { IfOk result (Stays mode machine.old machine.new) }
    ensures settled { IfOk result (λ m. is_handed m ≡ true → machine.new.frames ≡ []) }
{
    let mut mode = mode;
    for _i in 0..machine.frames.len() {
        if !mode.is_handed() {
            return Ok(mode);
        }
        mode = hand(machine, mode)?;
    }
    if mode.is_handed() && machine.frames.len() != 0 {
        return Err(OutOfMemory);
    }
    Ok(mode)
}

/// Completions are handed on until there is something to do, or the run stops.
#[inline(always)]
#[tactic(auto, using(crate::proofs::Handed::stays_so))]
pub fn settle<S: Store>(machine: &mut Machine<S>, mode: Mode) -> Result<Mode, OutOfMemory>
    ensures stays { IfOk result (Stays mode machine.old machine.new) }
    ensures settled { IfOk result (λ m. is_handed m ≡ true → machine.new.frames ≡ []) }
{
    if mode.is_handed() {
        return settle_handed(machine, mode);
    }
    Ok(mode)
}

/// An ask that was charged for is decided; one that is sent stays.
#[tactic(auto, using(crate::proofs::Handed::decided_works, crate::proofs::Handed::sent_works))]
fn work_ask<S: Store>(machine: &mut Machine<S>) -> Result<Mode, OutOfMemory>
    ensures { IfOk result (IsWorked mode_kind.Ask machine.old machine.new) }
{
    match machine.sent_to() {
        None => decide(machine),
        Some(_) => Ok(Mode::Ask),
    }
}

/// What was paid for goes on with undefined.
#[tactic(auto, using(crate::proofs::Handed::paid_works))]
fn work_paid<S: Store>(machine: &mut Machine<S>, mode: Mode) -> Result<Mode, OutOfMemory>
    requires { is_due mode ≡ true }
    ensures { IfOk result (IsWorked mode machine.old machine.new) }
{
    machine.give(Value::Undefined)
}

/// What was charged for is done.
pub fn work<S: Store>(machine: &mut Machine<S>, mode: Mode) -> Result<Mode, OutOfMemory>
    ensures { IfOk result (IsWorked mode machine.old machine.new) }
{
    match mode {
        Mode::Eval(at) => begin(machine, at),
        Mode::Ask => work_ask(machine),
        Mode::Pay(_) => work_paid(machine, mode),
        Mode::Serve(_) => decide(machine),
        // Nothing else is charged for.
        _ => Err(OutOfMemory),
    }
}

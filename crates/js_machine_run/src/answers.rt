// What frames do with answers that are no values.

ghost use Rattle.std.specs.Prelude.{◌≡◌, Bool, IfOk};
ghost use Rattle.js_desc.specs.declared.reply.Reply.TheVariants as reply_kind;
ghost use Rattle.js_machine.specs.Replies.{deed_replied};
ghost use Rattle.js_machine.specs.Steps.{IsDelivered, LeadsTo, deed_with, under};
ghost use Rattle.js_machine.specs.Views.{flag_in, takes_answers, takes_values};
ghost use Rattle.js_machine.specs.declared.frame.Frame.TheVariants as frame_kind;
ghost use Rattle.js_machine.specs.declared.frame.Mode.TheVariants as mode_kind;

use crate::decisions::resume_answered;
use crate::supers::deliver_prototype;
use js_in_place::js_machine_statements::slots::stand_in;
use js_machine::asked::Answer;
use js_machine::frame::{Frame, Mode};
use js_machine::machine::Machine;
use js_machine_operators::globals::global_found;
use js_machine_operators::properties::{delete_done, set_done};
use js_store::store::Store;
use js_text::value::Value;
use lava_base::ids::Ref;
use lava_base::memory::OutOfMemory;

/// The answer, where it is a truth value.
pub fn flag<S: Store>(machine: &Machine<S>) -> Option<bool>
    ensures { result ≡ flag_in machine.now.answer }
{
    match &machine.answer {
        Answer::Flag(truth) => Some(*truth),
        _ => None,
    }
}

/// Whether a property was set comes to the frame that has the value.
#[tactic(auto, using(crate::proofs::Replied::set_known))]
fn deliver_set<S: Store>(machine: &mut Machine<S>, done: bool) -> Result<Mode, OutOfMemory>
    ensures { let reply = reply_kind.Flag done in
        IfOk result (LeadsTo (deed_replied frame_kind.HasSet reply machine.old)
        (under frame_kind.HasSet machine.old) machine.new) }
{
    let value = machine.take();
    set_done(machine, done, value)
}

/// A frame that waits for a truth value goes on with it.
fn go_on_flag<S: Store>(
    machine: &mut Machine<S>,
    frame: Frame,
    flag: bool,
) -> Result<Mode, OutOfMemory>
    ensures { let reply = reply_kind.Flag flag in
        IfOk result (LeadsTo (deed_replied frame reply machine.old)
        (under frame machine.old) machine.new) }
{
    match frame {
        Frame::HasSet => deliver_set(machine, flag),
        Frame::HasDeleted => delete_done(machine, flag),
        Frame::Global { name, soft } => global_found(machine, name, soft, flag),
        Frame::SetGlobal { name, value } => {
            machine.wait(Frame::PutGlobal { name, there: flag }, value)
        }
        Frame::Told => machine.give(Value::Bool(flag)),
        // No other frame waits for one.
        _ => Err(OutOfMemory),
    }
}

/// An answer passes a frame that takes values alone.
fn pass_answer<S: Store>(machine: &mut Machine<S>, frame: Frame) -> Result<Mode, OutOfMemory>
    requires takes { takes_values frame ≡ Bool.true }
    requires none { takes_answers frame ≡ Bool.false }
    ensures { IfOk result (IsDelivered frame mode_kind.Answer machine.old machine.new) }
{
    machine.discard(frame.owned());
    Ok(Mode::Answer)
}

/// An answer comes to a frame that waits for a truth value.
#[tactic(auto, using(crate::proofs::Replied::flag_comes))]
fn deliver_flag<S: Store>(machine: &mut Machine<S>, frame: Frame) -> Result<Mode, OutOfMemory>
    ensures { IfOk result (IsDelivered frame mode_kind.Answer machine.old machine.new) }
{
    match flag(machine) {
        Some(flag) => go_on_flag(machine, frame, flag),
        None => deliver_prototype(machine, frame),
    }
}

/// An answer leaves a scope.
fn leave_scope<S: Store>(machine: &mut Machine<S>, scope: u32) -> Result<Mode, OutOfMemory>
    ensures { IfOk result (IsDelivered (frame_kind.ScopeExit scope) mode_kind.Answer machine.old
        machine.new) }
{
    stand_in(machine, scope);
    Ok(Mode::Answer)
}

/// A value comes to a frame that waits for another answer, and passes it.
pub fn pass_value<S: Store>(
    machine: &mut Machine<S>,
    frame: Frame,
    value: Value,
) -> Result<Mode, OutOfMemory>
    requires { takes_answers frame ≡ Bool.true }
    ensures { IfOk result (LeadsTo (deed_with frame value machine.old)
        (under frame machine.old) machine.new) }
{
    machine.discard(frame.owned());
    machine.give(value)
}

/// An answer comes to a frame that was taken off.
#[tactic(auto, using(crate::proofs::Replied::leaves_label, crate::proofs::Replied::leaves_loop))]
pub fn deliver_answer<S: Store>(machine: &mut Machine<S>, frame: Frame) -> Result<Mode, OutOfMemory>
    ensures { IfOk result (IsDelivered frame mode_kind.Answer machine.old machine.new) }
{
    if frame.takes_answers() {
        return deliver_flag(machine, frame);
    }
    if frame.takes_values() {
        return pass_answer(machine, frame);
    }
    match frame {
        Frame::Decides => resume_answered(machine),
        Frame::ScopeExit { scope } => leave_scope(machine, scope),
        Frame::Label { .. } | Frame::Turned { .. } => Ok(Mode::Answer),
        // What leaves a `try` with an answer.
        _ => Err(OutOfMemory),
    }
}

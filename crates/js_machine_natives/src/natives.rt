// Forms that name a native: operands, the charge, what the native decides, and how it goes on.

ghost use Rattle.std.specs.Prelude.{◌≡◌, Bool, IfOk, OnOk, drop};
ghost use Rattle.js_text.specs.Naming.{naming_of};
ghost use Rattle.js_native.specs.Costs.{makes_text, native_cost};
ghost use Rattle.js_natives.specs.Deeds.{Does, acts_with, goes_on_with};
ghost use Rattle.js_machine.specs.js_native_steps.Steps.{waits_as};
ghost use Rattle.js_machine.specs.js_operations.Lists.{list_items};
ghost use Rattle.js_machine.specs.js_run.NativeTurns.{charged, follows_native, gives_text, listed_units, native_gives, native_goes_on};
ghost use Rattle.js_machine.specs.js_run.Natives.{native_acts, runs_native};
ghost use Rattle.js_machine.specs.js_run.Operators.{given_text};
ghost use Rattle.js_desc.specs.declared.decision.Decision.TheVariants as decision_kind;
ghost use Rattle.js_desc.specs.declared.reply.Reply.TheVariants as reply_kind;
ghost use Rattle.js_machine.specs.Natives.{asks_slots};
ghost use Rattle.js_machine.specs.Steps.{IsDelivered, LeadsTo};
ghost use Rattle.js_machine.specs.Views.{args_on, is_completion, party_of};
ghost use Rattle.js_machine.specs.declared.frame.Frame.TheVariants as frame_kind;
ghost use Rattle.js_machine.specs.declared.frame.Mode.TheVariants as mode_kind;

use crate::kinds::act_kind;
use crate::slot_asks::run_slot_native;
use crate::units::act_units;
use js_desc::ask::Ask;
use js_desc::decision::Decision;
use js_desc::fault::FaultText;
use js_desc::reply::Reply;
use js_machine::asked::{Answer, Wait};
use js_machine::frame::{Frame, Mode};
use js_machine::js_native_steps::next::NativeNext;
use js_machine::machine::Machine;
use js_native::costs::{makes_text, unit_steps};
use js_natives::costs::cost;
use js_natives::natives::native;
use js_natives::resume::resume;
use js_store::store::Store;
use js_text::native::Native;
use js_text::text::Text;
use js_text::value::Value;
use lava_base::ids::Ref;
use lava_base::memory::OutOfMemory;

/// Whether a native asks a `Slot`, so that it sees first whether its ask crosses.
fn asks_slots(which: Native) -> bool
    ensures { result ≡ asks_slots which }
{
    matches!(
        which,
        Native::IsArray
            | Native::MapGet
            | Native::MapSet
            | Native::MapHas
            | Native::MapDelete
            | Native::MapClear
            | Native::MapNext
            | Native::MapKeyAt
            | Native::MapSize
    )
}

/// A text that is made is charged for its units, and then given; no text is past the limit.
pub fn give_made_text<S: Store>(machine: &mut Machine<S>, text: Text) -> Result<Mode, OutOfMemory>
    ensures { IfOk result (LeadsTo (λ a. given_text text (party_of a machine.old)) machine.old
        machine.new) }
{
    let steps = unit_steps(u64::from(text.len()));
    if steps == 0 {
        return machine.give(Value::Text(text));
    }
    machine.push(Value::Text(text))?;
    machine.pay((steps - 1) as u32, Frame::Made)
}

/// A text that a native gives: one that it makes is charged.
fn give_text_of<S: Store>(
    machine: &mut Machine<S>,
    which: Native,
    text: Text,
) -> Result<Mode, OutOfMemory>
    ensures { let made = makes_text which in
        IfOk result (LeadsTo (λ a. gives_text made text (party_of a machine.old))
        machine.old machine.new) }
{
    if makes_text(which) {
        return give_made_text(machine, text);
    }
    machine.give(Value::Text(text))
}

/// A value that a native gives: a text that it makes is charged once it is known.
fn give_value_of<S: Store>(
    machine: &mut Machine<S>,
    which: Native,
    value: Value,
) -> Result<Mode, OutOfMemory>
    ensures { let reply = reply_kind.Value value in
        IfOk result (LeadsTo (λ a. native_gives which reply (party_of a machine.old))
        machine.old machine.new) }
{
    match value {
        Value::Text(text) => give_text_of(machine, which, text),
        _ => machine.give(value),
    }
}

/// What a native gives.
fn give_native<S: Store>(
    machine: &mut Machine<S>,
    which: Native,
    reply: Reply,
) -> Result<Mode, OutOfMemory>
    ensures { IfOk result (LeadsTo (λ a. native_gives which reply (party_of a machine.old))
        machine.old machine.new) }
{
    match reply {
        Reply::Value(value) => give_value_of(machine, which, value),
        Reply::Proto(proto) => machine.answer(Answer::Proto(proto)),
        Reply::Flag(truth) => machine.answer(Answer::Flag(truth)),
        Reply::Desc(property) => machine.answer(Answer::Desc(property)),
        Reply::Keys(keys) => machine.answer(Answer::Keys(keys)),
        Reply::Throw(value) => machine.end_with(value, Mode::Throw),
    }
}

/// The ask of a native, which waits for the answer.
fn ask_native<S: Store>(
    machine: &mut Machine<S>,
    which: Native,
    target: Option<Ref>,
    ask: Ask,
    next: NativeNext,
) -> Result<Mode, OutOfMemory>
    ensures { let decision = decision_kind.Ask target ask next in
        IfOk result (LeadsTo (λ a. follows_native (naming_of machine.old.me) which waits_as decision
        (party_of a machine.old)) machine.old machine.new) }
{
    match target {
        Some(target) => machine.wait_for(target, ask, Wait::Native { which, next }),
        None => machine.fault(FaultText::WrongKind),
    }
}

/// Follows the decision of a native.
pub(crate) fn follow_native<S: Store>(
    machine: &mut Machine<S>,
    which: Native,
    decision: Decision<NativeNext>,
) -> Result<Mode, OutOfMemory>
    ensures { IfOk result (LeadsTo (λ a. follows_native (naming_of machine.old.me) which waits_as
        decision (party_of a machine.old)) machine.old machine.new) }
{
    match decision {
        Decision::Done(reply) => give_native(machine, which, reply),
        Decision::Fault(fault) => machine.fault(fault),
        Decision::Ask { target, ask, next } => ask_native(machine, which, target, ask, next),
        Decision::Number { .. } => machine.fault(FaultText::WrongKind),
        Decision::Run { .. } => machine.fault(FaultText::WrongKind),
        Decision::End(kind) => machine.end_as(kind),
    }
}

/// What a native decides, with these operands.
fn native_decision<S: Store>(
    machine: &mut Machine<S>,
    which: Native,
    args: &[Value],
) -> Result<Decision<NativeNext>, OutOfMemory>
    ensures does { let deed = acts_with which args.now in
        IfOk result (λ d. Does machine.old.me machine.old.objects machine.old.common
        machine.old.known which deed d machine.new.objects) }
    ensures rest { OnOk result (machine.new ≡ record machine.old { objects = machine.new.objects }) }
{
    native(
        machine.alloc,
        &mut machine.store,
        &machine.common,
        &machine.foreign,
        which,
        args,
    )
}

/// A native that asks no `Slot` does what it does with the newest values, its operands.
fn act_decided<S: Store>(
    machine: &mut Machine<S>,
    which: Native,
    count: u32,
) -> Result<Mode, OutOfMemory>
    ensures { let args = args_on count machine.old.values in
        let rest = record machine.old { values = drop count machine.old.values } in
        IfOk result (LeadsTo (λ a. native_acts (naming_of machine.old.me) a.shared which args
        (party_of a machine.old)) rest machine.new) }
{
    let args = machine.take_arguments(count)?;
    let decision = native_decision(machine, which, args.as_slice())?;
    follow_native(machine, which, decision)
}

/// A native that is charged does what it does with the newest values, its operands.
fn act_native<S: Store>(
    machine: &mut Machine<S>,
    which: Native,
    count: u32,
) -> Result<Mode, OutOfMemory>
    ensures { let args = args_on count machine.old.values in
        let rest = record machine.old { values = drop count machine.old.values } in
        IfOk result (LeadsTo (λ a. native_acts (naming_of machine.old.me) a.shared which args
        (party_of a machine.old)) rest machine.new) }
{
    match which {
        Native::ClassOf => act_kind(machine, count),
        Native::FromUnits => act_units(machine, count),
        _ => act_decided(machine, which, count),
    }
}

/// So many newest values, the oldest of them first.
pub fn last_values<S: Store>(machine: &Machine<S>, count: u32) -> &[Value]
    ensures { result.now ≡ args_on count machine.now.values }
{
    let first = machine.values.len() - machine.given(count) as usize;
    &machine.values[first..]
}

/// What a native costs, whose operands are the newest values.
pub fn native_cost<S: Store>(
    machine: &Machine<S>,
    which: Native,
    count: u32,
) -> Result<u64, OutOfMemory>
    ensures { let items = list_items (naming_of machine.now.me) machine.now.objects
        machine.now.common in
        let args = args_on count machine.now.values in
        IfOk result (λ n. n ≡ native_cost which args (listed_units items which args)) }
{
    cost(
        machine.alloc,
        &machine.store,
        &machine.common,
        which,
        last_values(machine, count),
    )
}

/// A native is charged, and its operands stay on the stack of values meanwhile.
fn charge_native<S: Store>(
    machine: &mut Machine<S>,
    which: Native,
    count: u32,
) -> Result<Mode, OutOfMemory>
    ensures { let args = args_on count machine.old.values in
        let rest = record machine.old { values = drop count machine.old.values } in
        IfOk result (LeadsTo (λ a. charged (naming_of machine.old.me) a.shared which args (party_of
        a machine.old) (λ p. native_acts (naming_of machine.old.me) a.shared which args p)) rest
        machine.new) }
{
    let cost = native_cost(machine, which, count)?;
    if cost == 0 {
        // Each native costs a step or more.
        return Err(OutOfMemory);
    }
    if cost > u64::from(u32::MAX) {
        return Err(OutOfMemory);
    }
    machine.pay((cost - 1) as u32, Frame::Charged { which, count })
}

/// A native begins, whose operands are the newest values.
pub fn run_native<S: Store>(
    machine: &mut Machine<S>,
    which: Native,
    count: u32,
) -> Result<Mode, OutOfMemory>
    ensures { let args = args_on count machine.old.values in
        let rest = record machine.old { values = drop count machine.old.values } in
        IfOk result (LeadsTo (λ a. runs_native (naming_of machine.old.me) a.shared which args
        (party_of a machine.old)) rest machine.new) }
{
    if asks_slots(which) {
        return run_slot_native(machine, which, count);
    }
    charge_native(machine, which, count)
}

/// What was charged for comes: the native does what it does.
fn native_paid<S: Store>(
    machine: &mut Machine<S>,
    which: Native,
    count: u32,
) -> Result<Mode, OutOfMemory>
    ensures { IfOk result (IsDelivered (frame_kind.Charged which count) mode_kind.Value
        machine.old machine.new) }
{
    let _value = machine.take();
    act_native(machine, which, count)
}

/// A completion comes to a native that was charged.
pub fn deliver_charged<S: Store>(
    machine: &mut Machine<S>,
    which: Native,
    count: u32,
    mode: Mode,
) -> Result<Mode, OutOfMemory>
    requires { is_completion mode ≡ Bool.true }
    ensures { IfOk result (IsDelivered (frame_kind.Charged which count) mode machine.old
        machine.new) }
{
    match mode {
        Mode::Value => native_paid(machine, which, count),
        // A payment is answered by a value alone.
        _ => Err(OutOfMemory),
    }
}

/// What was charged for comes: the text that was made is given.
fn made_paid<S: Store>(machine: &mut Machine<S>) -> Result<Mode, OutOfMemory>
    ensures { IfOk result (IsDelivered frame_kind.Made mode_kind.Value machine.old machine.new) }
{
    let _value = machine.take();
    Ok(Mode::Value)
}

/// A completion comes to a text that was made and charged.
pub fn deliver_made<S: Store>(machine: &mut Machine<S>, mode: Mode) -> Result<Mode, OutOfMemory>
    requires { is_completion mode ≡ Bool.true }
    ensures { IfOk result (IsDelivered frame_kind.Made mode machine.old machine.new) }
{
    match mode {
        Mode::Value => made_paid(machine),
        // A payment is answered by a value alone.
        _ => Err(OutOfMemory),
    }
}

/// What a native that waited decides, with the answer.
fn native_resumed<S: Store>(
    machine: &mut Machine<S>,
    which: Native,
    next: NativeNext,
    reply: Reply,
) -> Result<Decision<NativeNext>, OutOfMemory>
    ensures does { let deed = goes_on_with which next reply in
        IfOk result (λ d. Does machine.old.me machine.old.objects machine.old.common
        machine.old.known which deed d machine.new.objects) }
    ensures rest { OnOk result (machine.new ≡ record machine.old { objects = machine.new.objects }) }
{
    resume(
        machine.alloc,
        &mut machine.store,
        &machine.common,
        &machine.foreign,
        which,
        next,
        reply,
    )
}

/// A native goes on with the answer that it waited for.
pub fn resume_native<S: Store>(
    machine: &mut Machine<S>,
    which: Native,
    next: NativeNext,
    reply: Reply,
) -> Result<Mode, OutOfMemory>
    ensures { IfOk result (LeadsTo (λ a. native_goes_on (naming_of machine.old.me) a.shared which
        (waits_as next) reply (party_of a machine.old)) machine.old machine.new) }
{
    let decision = native_resumed(machine, which, next, reply)?;
    follow_native(machine, which, decision)
}

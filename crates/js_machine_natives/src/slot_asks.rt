// Natives that ask a `Slot`: where their object is from is seen first, and only what doesn't cross is charged here.

ghost use Rattle.std.specs.Prelude.{◌≡◌, Bool, IfOk, Some, drop, suc};
ghost use Rattle.js_text.specs.Naming.{naming_of};
ghost use Rattle.js_desc.specs.declared.ask.Ask.TheVariants as ask_kind;
ghost use Rattle.js_desc.specs.declared.decision.Decision.TheVariants as decision_kind;
ghost use Rattle.js_desc.specs.declared.fault.FaultText.TheVariants as fault_kind;
ghost use Rattle.js_native.specs.Costs.{native_cost};
ghost use Rattle.js_machine.specs.js_native_steps.Steps.{waits_as};
ghost use Rattle.js_machine.specs.js_operations.Lists.{list_items};
ghost use Rattle.js_machine.specs.js_operations.Looks.{marks_seen};
ghost use Rattle.js_machine.specs.js_run.Acts.{Native_decides};
ghost use Rattle.js_machine.specs.js_run.Asking.{waits_for};
ghost use Rattle.js_machine.specs.js_run.Faults.{faults};
ghost use Rattle.js_machine.specs.js_run.NativeTurns.{charged, listed_units};
ghost use Rattle.js_machine.specs.js_run.Natives.{runs_native};
ghost use Rattle.js_machine.specs.js_run.Parties.{shallower};
ghost use Rattle.js_machine.specs.js_run.SlotNatives.{asks_slot, proxy_tells, slot_tells};
ghost use Rattle.js_machine.specs.Natives.{asks_slots};
ghost use Rattle.js_machine.specs.Proxying.{known_of, proxy_decided};
ghost use Rattle.js_machine.specs.SlotAsks.{asks_first, asks_foreign, first_object, refusal, slot_leads, slot_step, slot_wait, step_of_maker, step_of_slot};
ghost use Rattle.js_machine_natives.specs.Telling.{tells_waiting, wait_of};
ghost use Rattle.js_machine.specs.SlotSteps.{first_step};
ghost use Rattle.js_machine.specs.Steps.{IsDelivered, LeadsTo, Wakes};
ghost use Rattle.js_machine.specs.Views.{args_on, is_completion, party_of};
ghost use Rattle.js_machine.specs.Ways.{object_in};
ghost use Rattle.js_machine.specs.declared.asked.Wait.TheVariants as wait_kind;
ghost use Rattle.js_machine.specs.declared.frame.Frame.TheVariants as frame_kind;
ghost use Rattle.js_machine.specs.declared.frame.Mode.TheVariants as mode_kind;
ghost use Rattle.js_machine.specs.declared.slot_asks.SlotStep.TheVariants as step_kind;

use crate::collections::decide_collection;
use crate::natives::{last_values, native_cost, resume_native};
use crate::proxies::{known_if, proxy_decision};
use js_desc::ask::Ask;
use js_desc::decision::Decision;
use js_desc::fault::FaultText;
use js_desc::reply::Reply;
use js_machine::asked::Wait;
use js_machine::decisions::object_of_value;
use js_machine::frame::{Frame, Halt, Mode};
use js_machine::js_maker_natives::kinds::is_array;
use js_machine::js_maker_natives::next::Next as MakerNext;
use js_machine::js_native_steps::next::NativeNext;
use js_machine::js_slot_natives::next::Next as SlotNext;
use js_machine::js_slot_natives::slot_natives::slot_native;
use js_machine::js_traps::next::Next as ProxyNext;
use js_machine::machine::Machine;
use js_machine::slot_asks::SlotStep;
use js_machine::ways::Way;
use js_store::foreign::Foreign;
use js_store::store::Store;
use js_text::native::Native;
use js_text::value::Value;
use lava_base::ids::Ref;
use lava_base::list::List;
use lava_base::memory::OutOfMemory;

/// What the decision of a native on a collection says.
fn step_of_slot(decision: &Decision<SlotNext>) -> SlotStep
    ensures { result ≡ step_of_slot decision.now }
{
    match decision {
        Decision::Ask {
            target: Some(_),
            ..
        } => SlotStep::Asks,
        Decision::Fault(FaultText::CannotConvert) => SlotStep::Refuses { converts: true },
        _ => SlotStep::Refuses { converts: false },
    }
}

/// What the decision of `isArray` says.
fn step_of_maker(decision: &Decision<MakerNext>) -> SlotStep
    ensures { result ≡ step_of_maker decision.now }
{
    match decision {
        Decision::Ask {
            target: Some(_),
            ..
        } => SlotStep::Asks,
        Decision::Done(Reply::Value(Value::Bool(truth))) => SlotStep::Tells { truth: *truth },
        _ => SlotStep::Refuses { converts: false },
    }
}

/// What a native waits for whose object tells.
fn slot_wait(which: Native) -> NativeNext
    ensures { result ≡ slot_wait which }
{
    match which {
        Native::IsArray => NativeNext::Maker(MakerNext::Answer),
        _ => NativeNext::Slot(SlotNext::Answer),
    }
}

/// What a native waits for whose object tells: `classOf` remembers whether that can be called.
fn wait_of(which: Native, kind: Option<bool>) -> NativeNext
    ensures { result ≡ wait_of which kind }
{
    match kind {
        None => slot_wait(which),
        Some(callable) => NativeNext::Maker(MakerNext::KindTold { callable }),
    }
}

/// The fault of a native that is refused.
fn refusal(converts: bool) -> FaultText
    ensures { result ≡ refusal converts }
{
    if converts {
        FaultText::CannotConvert
    } else {
        FaultText::WrongKind
    }
}

/// The first operand, where it is an object.
pub(crate) fn first_object(args: &[Value]) -> Option<Ref>
    ensures { result ≡ first_object args.now }
{
    match args {
        [first, ..] => object_of_value(first),
        _ => None,
    }
}

/// What a native does whose first operand is this object, if it is one.
fn slot_step<S: Store>(
    machine: &Machine<S>,
    which: Native,
    object: Option<Ref>,
    args: &[Value],
) -> Result<SlotStep, OutOfMemory>
    ensures { let names = naming_of machine.now.me in
        let known = known_of machine.now object in
        let seen = marks_seen names machine.now.objects machine.now.common known in
        IfOk result (λ s. s ≡ slot_step seen which args.now) }
{
    let nothing = Foreign::new(machine.alloc);
    let known = known_if(machine.store.party(), object, &machine.foreign, &nothing);
    match which {
        Native::IsArray => {
            let decision = is_array(machine.alloc, &machine.store, &machine.common, known, args);
            Ok(step_of_maker(&decision))
        }
        _ => {
            let decision = slot_native(
                machine.alloc,
                &machine.store,
                &machine.common,
                known,
                which,
                args,
            )?;
            Ok(step_of_slot(&decision))
        }
    }
}

/// What a native does whose operands are the newest values; None where it has none.
fn first_step<S: Store>(
    machine: &Machine<S>,
    which: Native,
    count: u32,
) -> Result<Option<SlotStep>, OutOfMemory>
    ensures { let args = args_on count machine.now.values in
        IfOk result (λ s. s ≡ first_step machine.now which args) }
{
    let args = last_values(machine, count);
    if args.is_empty() {
        return Ok(None);
    }
    let step = slot_step(machine, which, first_object(args), args)?;
    Ok(Some(step))
}

/// Whether the first operand is a foreign object.
fn asks_foreign<S: Store>(machine: &Machine<S>, count: u32) -> bool
    ensures { let args = args_on count machine.now.values in
        result ≡ asks_foreign (naming_of machine.now.me) (first_object args) }
{
    match first_object(last_values(machine, count)) {
        Some(object) => machine.foreign_of(object).is_some(),
        None => false,
    }
}

/// What a native costs beside its first step.
fn cost_behind<S: Store>(
    machine: &Machine<S>,
    which: Native,
    count: u32,
) -> Result<u32, OutOfMemory>
    ensures { let items = list_items (naming_of machine.now.me) machine.now.objects
        machine.now.common in
        let args = args_on count machine.now.values in
        IfOk result (λ n. native_cost which args (listed_units items which args) ≡ suc n) }
{
    let cost = native_cost(machine, which, count)?;
    if cost == 0 {
        // Each native costs a step or more.
        return Err(OutOfMemory);
    }
    if cost > u64::from(u32::MAX) {
        return Err(OutOfMemory);
    }
    Ok((cost - 1) as u32)
}

/// A native that asks is charged, and its operands stay on the stack of values meanwhile.
fn charge_slot<S: Store>(
    machine: &mut Machine<S>,
    which: Native,
    count: u32,
) -> Result<Mode, OutOfMemory>
    ensures { let names = naming_of machine.old.me in
        let args = args_on count machine.old.values in
        let rest = record machine.old { values = drop count machine.old.values } in
        IfOk result (LeadsTo (λ a. charged names a.shared which args (party_of a machine.old)
        (λ p. asks_first names a.shared which args p)) rest machine.new) }
{
    let cost = cost_behind(machine, which, count)?;
    machine.pay(cost, Frame::SlotCharged { which, count })
}

/// A native that tells a truth value is charged.
fn charge_told<S: Store>(
    machine: &mut Machine<S>,
    which: Native,
    count: u32,
    truth: bool,
) -> Result<Mode, OutOfMemory>
    ensures { let args = args_on count machine.old.values in
        let rest = record machine.old { values = drop count machine.old.values } in
        let step = step_kind.Tells truth in
        IfOk result (LeadsTo (λ a. slot_leads (naming_of machine.old.me) a.shared which args step
        (party_of a machine.old)) rest machine.new) }
{
    let cost = cost_behind(machine, which, count)?;
    machine.discard(u64::from(count));
    machine.push(Value::Bool(truth))?;
    machine.pay(cost, Frame::Made)
}

/// A native that is refused is charged.
fn charge_refused<S: Store>(
    machine: &mut Machine<S>,
    which: Native,
    count: u32,
    converts: bool,
) -> Result<Mode, OutOfMemory>
    ensures { let args = args_on count machine.old.values in
        let rest = record machine.old { values = drop count machine.old.values } in
        let step = step_kind.Refuses converts in
        IfOk result (LeadsTo (λ a. slot_leads (naming_of machine.old.me) a.shared which args step
        (party_of a machine.old)) rest machine.new) }
{
    let cost = cost_behind(machine, which, count)?;
    machine.discard(u64::from(count));
    machine.pay(cost, Frame::Refused { converts })
}

/// The first operand is asked: a foreign object at once, and any other once that is charged.
fn charge_or_ask<S: Store>(
    machine: &mut Machine<S>,
    which: Native,
    count: u32,
) -> Result<Mode, OutOfMemory>
    ensures { let names = naming_of machine.old.me in
        let args = args_on count machine.old.values in
        let rest = record machine.old { values = drop count machine.old.values } in
        IfOk result (LeadsTo (λ a. slot_leads names a.shared which args step_kind.Asks
        (party_of a machine.old)) rest machine.new) }
{
    if asks_foreign(machine, count) {
        return ask_first(machine, which, count);
    }
    charge_slot(machine, which, count)
}

/// A native does what the marks of its first operand say.
fn take_step<S: Store>(
    machine: &mut Machine<S>,
    which: Native,
    count: u32,
    step: SlotStep,
) -> Result<Mode, OutOfMemory>
    ensures { let args = args_on count machine.old.values in
        let rest = record machine.old { values = drop count machine.old.values } in
        IfOk result (LeadsTo (λ a. slot_leads (naming_of machine.old.me) a.shared which args step
        (party_of a machine.old)) rest machine.new) }
{
    match step {
        SlotStep::Asks => charge_or_ask(machine, which, count),
        SlotStep::Tells { truth } => charge_told(machine, which, count, truth),
        SlotStep::Refuses { converts } => charge_refused(machine, which, count, converts),
    }
}

/// A native that asks a `Slot` begins, whose operands are the newest values.
pub fn run_slot_native<S: Store>(
    machine: &mut Machine<S>,
    which: Native,
    count: u32,
) -> Result<Mode, OutOfMemory>
    requires { asks_slots which ≡ Bool.true }
    ensures { let args = args_on count machine.old.values in
        let rest = record machine.old { values = drop count machine.old.values } in
        IfOk result (LeadsTo (λ a. runs_native (naming_of machine.old.me) a.shared which args
        (party_of a machine.old)) rest machine.new) }
{
    match first_step(machine, which, count)? {
        Some(step) => take_step(machine, which, count, step),
        None => {
            machine.discard(u64::from(count));
            machine.fault(FaultText::WrongKind)
        }
    }
}

/// The first operand is asked.
fn ask_first<S: Store>(
    machine: &mut Machine<S>,
    which: Native,
    count: u32,
) -> Result<Mode, OutOfMemory>
    ensures { let args = args_on count machine.old.values in
        let rest = record machine.old { values = drop count machine.old.values } in
        IfOk result (LeadsTo (λ a. asks_first (naming_of machine.old.me) a.shared which args
        (party_of a machine.old)) rest machine.new) }
{
    let args = machine.take_arguments(count)?;
    ask_with(machine, which, args)
}

/// The first of these operands is asked.
fn ask_with<S: Store>(
    machine: &mut Machine<S>,
    which: Native,
    args: List<Value>,
) -> Result<Mode, OutOfMemory>
    ensures { IfOk result (LeadsTo (λ a. asks_first (naming_of machine.old.me) a.shared which args
        (party_of a machine.old)) machine.old machine.new) }
{
    match first_object(args.as_slice()) {
        Some(object) => ask_slot(machine, object, which, args),
        None => machine.fault(FaultText::WrongKind),
    }
}

/// An object is asked a `Slot` with the operands behind the first one.
fn ask_slot<S: Store>(
    machine: &mut Machine<S>,
    object: Ref,
    which: Native,
    args: List<Value>,
) -> Result<Mode, OutOfMemory>
    ensures { let names = naming_of machine.old.me in
        let origin = names.origin object in
        let ask = ask_kind.Slot which (drop 1 args) in
        let next = waits_as (slot_wait which) in
        IfOk result (LeadsTo (λ a. asks_slot names a.shared origin object ask which
        next (party_of a machine.old)) machine.old machine.new) }
{
    let mut args = args;
    if args.is_empty() {
        // The object is the first operand.
        return Err(OutOfMemory);
    }
    args.drop_first(1);
    ask_object(machine, object, which, None, Ask::Slot { which, args })
}

/// An object is asked for a native, which waits for the answer.
pub fn ask_object<S: Store>(
    machine: &mut Machine<S>,
    object: Ref,
    which: Native,
    kind: Option<bool>,
    ask: Ask,
) -> Result<Mode, OutOfMemory>
    ensures { let names = naming_of machine.old.me in
        let origin = names.origin object in
        let next = waits_as (wait_of which kind) in
        IfOk result (LeadsTo (λ a. asks_slot names a.shared origin object ask which
        next (party_of a machine.old)) machine.old machine.new) }
{
    match machine.foreign_of(object) {
        Some(_) => send_slot(machine, object, which, kind, ask),
        None => ask_object_here(machine, object, which, kind, ask),
    }
}

/// A foreign object is asked.
fn send_slot<S: Store>(
    machine: &mut Machine<S>,
    object: Ref,
    which: Native,
    kind: Option<bool>,
    ask: Ask,
) -> Result<Mode, OutOfMemory>
    ensures { let names = naming_of machine.old.me in
        let next = Native_decides which (waits_as (wait_of which kind)) in
        IfOk result (LeadsTo (λ a. waits_for names object ask (party_of a machine.old)
        next) machine.old machine.new) }
{
    let wait = Wait::Native {
        which,
        next: wait_of(which, kind),
    };
    machine.wait_for(object, ask, wait)
}

/// An object that is not foreign is asked. The native is open meanwhile.
fn ask_object_here<S: Store>(
    machine: &mut Machine<S>,
    object: Ref,
    which: Native,
    kind: Option<bool>,
    ask: Ask,
) -> Result<Mode, OutOfMemory>
    ensures { let next = waits_as (wait_of which kind) in
        IfOk result (LeadsTo (λ a. tells_waiting (naming_of machine.old.me) a.shared which next
        object ask (party_of a machine.old)) machine.old machine.new) }
{
    if !machine.open_one() {
        return machine.end_run(Halt::Depth);
    }
    machine.set_asked(Value::Ref(object), ask);
    tell_slot(machine, object, which, kind)
}

/// An object tells what it is asked, for a native that is open.
fn tell_slot<S: Store>(
    machine: &mut Machine<S>,
    object: Ref,
    which: Native,
    kind: Option<bool>,
) -> Result<Mode, OutOfMemory>
    ensures { let slot = (object_in machine.old object).slot in
        let next = waits_as (wait_of which kind) in
        IfOk result (LeadsTo (λ a. slot_tells (naming_of machine.old.me) a.shared object slot
        machine.old.asked.ask which next (party_of a machine.old)) machine.old machine.new) }
{
    match machine.way(object) {
        Way::Proxy => ask_proxy(machine, object, which, kind),
        Way::Collection => {
            machine.close_one();
            decide_collection(machine, object)
        }
        _ => tell_wrong_kind(machine),
    }
}

/// The object of a native that is open has no answer.
fn tell_wrong_kind<S: Store>(machine: &mut Machine<S>) -> Result<Mode, OutOfMemory>
    ensures { let wrong = fault_kind.WrongKind in
        IfOk result (LeadsTo (λ a. faults (naming_of machine.old.me) wrong
        (shallower (party_of a machine.old))) machine.old machine.new) }
{
    machine.close_one();
    machine.fault(FaultText::WrongKind)
}

/// A proxy tells what it is asked, for a native that is open.
fn ask_proxy<S: Store>(
    machine: &mut Machine<S>,
    object: Ref,
    which: Native,
    kind: Option<bool>,
) -> Result<Mode, OutOfMemory>
    ensures { let names = naming_of machine.old.me in
        let decision = proxy_decided machine.old object in
        let next = waits_as (wait_of which kind) in
        IfOk result (LeadsTo (λ a. proxy_tells names a.shared which next decision
        (party_of a machine.old)) machine.old machine.new) }
{
    let decision = proxy_decision(machine, object)?;
    follow_told(machine, which, kind, decision)
}

/// Follows what a proxy tells a native that is open.
fn follow_told<S: Store>(
    machine: &mut Machine<S>,
    which: Native,
    kind: Option<bool>,
    decision: Decision<ProxyNext>,
) -> Result<Mode, OutOfMemory>
    ensures { let names = naming_of machine.old.me in
        let next = waits_as (wait_of which kind) in
        IfOk result (LeadsTo (λ a. proxy_tells names a.shared which next decision
        (party_of a machine.old)) machine.old machine.new) }
{
    match decision {
        Decision::Done(reply) => {
            machine.close_one();
            resume_native(machine, which, wait_of(which, kind), reply)
        }
        Decision::Ask { target, ask, next } => follow_told_ask(
            machine, which, kind, target, ask, next,
        ),
        Decision::Fault(fault) => {
            machine.close_one();
            machine.fault(fault)
        }
        Decision::Number { .. } => tell_wrong_kind(machine),
        Decision::Run { .. } => tell_wrong_kind(machine),
        Decision::End(_) => tell_wrong_kind(machine),
    }
}

/// A proxy asks its target, which has the answer for the native too.
fn follow_told_ask<S: Store>(
    machine: &mut Machine<S>,
    which: Native,
    kind: Option<bool>,
    target: Option<Ref>,
    ask: Ask,
    next: ProxyNext,
) -> Result<Mode, OutOfMemory>
    ensures { let names = naming_of machine.old.me in
        let decision = decision_kind.Ask target ask next in
        let next = waits_as (wait_of which kind) in
        IfOk result (LeadsTo (λ a. proxy_tells names a.shared which next decision
        (party_of a machine.old)) machine.old machine.new) }
{
    match target {
        Some(target) => wait_told(machine, which, kind, target, ask, next),
        None => tell_wrong_kind(machine),
    }
}

/// The target of a proxy is asked, where its answer is that of the proxy.
fn wait_told<S: Store>(
    machine: &mut Machine<S>,
    which: Native,
    kind: Option<bool>,
    target: Ref,
    ask: Ask,
    next: ProxyNext,
) -> Result<Mode, OutOfMemory>
    ensures { let names = naming_of machine.old.me in
        let decision = decision_kind.Ask (Some target) ask next in
        let next = waits_as (wait_of which kind) in
        IfOk result (LeadsTo (λ a. proxy_tells names a.shared which next decision
        (party_of a machine.old)) machine.old machine.new) }
{
    match next {
        ProxyNext::Answer => {
            let wait = Wait::SlotTold {
                which,
                next: wait_of(which, kind),
            };
            machine.wait_for(target, ask, wait)
        }
        _ => tell_wrong_kind(machine),
    }
}

/// The answer of a proxy's target comes to the native.
pub fn resume_told<S: Store>(
    machine: &mut Machine<S>,
    which: Native,
    next: NativeNext,
    reply: Reply,
) -> Result<Mode, OutOfMemory>
    ensures { let wait = wait_kind.SlotTold which next in
        IfOk result (Wakes wait reply machine.old machine.new) }
{
    machine.close_one();
    resume_native(machine, which, next, reply)
}

/// What was charged for comes: the first operand is asked.
fn slot_paid<S: Store>(
    machine: &mut Machine<S>,
    which: Native,
    count: u32,
) -> Result<Mode, OutOfMemory>
    ensures { IfOk result (IsDelivered (frame_kind.SlotCharged which count) mode_kind.Value
        machine.old machine.new) }
{
    let _value = machine.take();
    ask_first(machine, which, count)
}

/// A completion comes to a native that was charged and is to ask.
pub fn deliver_slot<S: Store>(
    machine: &mut Machine<S>,
    which: Native,
    count: u32,
    mode: Mode,
) -> Result<Mode, OutOfMemory>
    requires { is_completion mode ≡ Bool.true }
    ensures { IfOk result (IsDelivered (frame_kind.SlotCharged which count) mode
        machine.old machine.new) }
{
    match mode {
        Mode::Value => slot_paid(machine, which, count),
        // A payment is answered by a value alone.
        _ => Err(OutOfMemory),
    }
}

/// What was charged for comes: the native is refused.
fn refused_paid<S: Store>(machine: &mut Machine<S>, converts: bool) -> Result<Mode, OutOfMemory>
    ensures { IfOk result (IsDelivered (frame_kind.Refused converts) mode_kind.Value
        machine.old machine.new) }
{
    let _value = machine.take();
    machine.fault(refusal(converts))
}

/// A completion comes to a native that was charged and is refused.
pub fn deliver_refused<S: Store>(
    machine: &mut Machine<S>,
    converts: bool,
    mode: Mode,
) -> Result<Mode, OutOfMemory>
    requires { is_completion mode ≡ Bool.true }
    ensures { IfOk result (IsDelivered (frame_kind.Refused converts) mode machine.old machine.new) }
{
    match mode {
        Mode::Value => refused_paid(machine, converts),
        // A payment is answered by a value alone.
        _ => Err(OutOfMemory),
    }
}

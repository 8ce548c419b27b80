// What an object or a primitive value decides of an ask, and what follows.

ghost use Rattle.std.specs.Prelude.{◌≡◌, ◌-◌, IfOk, OnOk};
ghost use Rattle.js_text.specs.Naming.{naming_of};
ghost use Rattle.js_desc.specs.declared.decision.Decision.TheVariants as decision_kind;
ghost use Rattle.js_machine.specs.js_exotic.Decided.{decided, exotic_resumed};
ghost use Rattle.js_machine.specs.js_exotic.Verdicts.{as_exotic};
ghost use Rattle.js_machine.specs.js_run.Acts.{End};
ghost use Rattle.js_machine.specs.js_run.Decisions.{decides_object, follows, follows_once, follows_with, goes_on};
ghost use Rattle.js_machine.specs.Decisions.{object_of_value};
ghost use Rattle.js_machine.specs.js_run.Completions.{Replied};
ghost use Rattle.js_machine.specs.js_run.Going.{go_on};
ghost use Rattle.js_machine.specs.Steps.{IsDecided, IsDelivered, LeadsTo, Wakes, over, under};
ghost use Rattle.js_machine.specs.Views.{party_of};
ghost use Rattle.js_machine.specs.declared.frame.Frame.TheVariants as frame;
ghost use Rattle.js_machine.specs.declared.frame.Mode.TheVariants as mode_kind;

use crate::primitives::primitive_decided;
use crate::proxies::{decide_proxy, resume_proxy};
use crate::to_number::{begin_number, resume_called};
use js_desc::ask::Ask;
use js_desc::decision::Decision;
use js_desc::fault::FaultText;
use js_desc::reply::Reply;
use js_in_place::js_machine_calls::closures::run_function;
use js_in_place::js_machine_calls::constructions::resume_construct;
use js_machine::asked::{Answer, NumberFor, Wait};
use js_machine::decisions::object_of_value;
use js_machine::frame::Mode;
use js_machine::js_exotic::decide::resume;
use js_machine::js_exotic::next::Next as ExoticNext;
use js_machine::machine::Machine;
use js_machine::ways::Way;
use js_machine_modules::outside::call_host;
use js_machine_modules::require_calls::{call_mapped, call_require};
use js_machine_natives::collections::decide_collection;
use js_machine_natives::natives::resume_native;
use js_machine_natives::slot_asks::resume_told;
use js_machine_natives::to_number::resume_got;
use js_ordinary::next::Next as OrdinaryNext;
use js_store::store::Store;
use lava_base::ids::Ref;
use lava_base::memory::OutOfMemory;

/// The ask of a decision that waits.
fn follow_ask<S: Store>(
    machine: &mut Machine<S>,
    me: Ref,
    target: Option<Ref>,
    ask: Ask,
    next: ExoticNext,
) -> Result<Mode, OutOfMemory>
    ensures { let decision = decision_kind.Ask target ask next in
        IfOk result (LeadsTo (λ a. follows_once (naming_of machine.old.me) a.shared me decision
        (party_of a machine.old)) machine.old machine.new) }
{
    match target {
        Some(target) => machine.wait_for(target, ask, Wait::Object { me, next }),
        None => machine.fault(FaultText::WrongKind),
    }
}

/// Follows a decision where no number is wanted.
pub fn follow_once<S: Store>(
    machine: &mut Machine<S>,
    me: Ref,
    decision: Decision<ExoticNext>,
) -> Result<Mode, OutOfMemory>
    ensures { IfOk result (LeadsTo (λ a. follows_once (naming_of machine.old.me) a.shared me
        decision (party_of a machine.old)) machine.old machine.new) }
{
    match decision {
        Decision::Done(reply) => machine.reply(reply),
        Decision::Fault(fault) => machine.fault(fault),
        Decision::Ask { target, ask, next } => follow_ask(machine, me, target, ask, next),
        Decision::Number { .. } => machine.fault(FaultText::WrongKind),
        Decision::Run {
            body,
            this,
            args,
            new_target,
        } => run_function(machine, me, body, this, args, new_target),
        Decision::End(kind) => machine.end_as(kind),
    }
}

/// Follows a decision.
fn follow<S: Store>(
    machine: &mut Machine<S>,
    me: Ref,
    decision: Decision<ExoticNext>,
) -> Result<Mode, OutOfMemory>
    ensures { IfOk result (LeadsTo (λ a. follows (naming_of machine.old.me) a.shared me decision
        (party_of a machine.old)) machine.old machine.new) }
{
    match decision {
        Decision::Number { value, next } => {
            begin_number(machine, value, NumberFor::Object { me, next })
        }
        decision => follow_once(machine, me, decision),
    }
}

/// What the table of decisions says of the ask of the machine.
fn table_decision<S: Store>(
    machine: &mut Machine<S>,
    me: Ref,
) -> Result<Decision<ExoticNext>, OutOfMemory>
    ensures decided { let names = naming_of machine.old.me in
        let decided = decided names machine.old.objects machine.old.common me machine.old.asked.ask
        in
        IfOk result (λ d. (d, machine.new.objects) ≡ decided) }
    ensures rest { OnOk result (machine.new ≡ record machine.old { objects = machine.new.objects }) }
{
    js_machine::js_exotic::decide::decide(
        machine.alloc,
        &mut machine.store,
        &machine.common,
        &machine.foreign,
        me,
        &machine.asked.ask,
    )
}

/// An object decides as every object does.
fn decide_as_object<S: Store>(machine: &mut Machine<S>, me: Ref) -> Result<Mode, OutOfMemory>
    ensures { IfOk result (LeadsTo (λ a. follows_with (naming_of machine.old.me) a.shared me
        (decided (naming_of machine.old.me) machine.old.objects a.shared.objects me
        machine.old.asked.ask) (party_of a machine.old)) machine.old machine.new) }
{
    let decision = table_decision(machine, me)?;
    follow(machine, me, decision)
}

/// An object decides of the ask of the machine.
fn decide_object<S: Store>(machine: &mut Machine<S>, me: Ref) -> Result<Mode, OutOfMemory>
    ensures { IfOk result (LeadsTo (λ a. decides_object (naming_of machine.old.me) a.shared me
        machine.old.asked.ask (party_of a machine.old)) machine.old machine.new) }
{
    match machine.way(me) {
        Way::Object => decide_as_object(machine, me),
        Way::Module => call_require(machine, me),
        Way::Mapped => call_mapped(machine),
        Way::Host => call_host(machine, me),
        Way::Proxy => decide_proxy(machine, me),
        Way::Collection => decide_collection(machine, me),
    }
}

/// Follows the decision of a primitive value.
fn follow_primitive<S: Store>(
    machine: &mut Machine<S>,
    decision: Decision<OrdinaryNext>,
) -> Result<Mode, OutOfMemory>
    ensures { let names = naming_of machine.old.me in
        IfOk result (LeadsTo (λ a. follows_once names a.shared (names.own 0) (as_exotic decision)
        (party_of a machine.old)) machine.old machine.new) }
{
    let me = machine.global();
    match decision {
        Decision::Done(reply) => machine.reply(reply),
        Decision::Fault(fault) => machine.fault(fault),
        Decision::Ask { target, ask, next } => {
            follow_ask(machine, me, target, ask, ExoticNext::Ordinary(next))
        }
        Decision::Number { .. } => machine.fault(FaultText::WrongKind),
        Decision::Run {
            body,
            this,
            args,
            new_target,
        } => run_function(machine, me, body, this, args, new_target),
        Decision::End(kind) => machine.end_as(kind),
    }
}

/// Decides the ask of the machine, whose own step is paid.
#[tactic(auto, using(js_machine::proofs::Followed::object_decides, js_machine::proofs::Followed::value_decides))]
pub fn decide<S: Store>(machine: &mut Machine<S>) -> Result<Mode, OutOfMemory>
    ensures { IfOk result (IsDecided machine.old machine.new) }
{
    match object_of_value(&machine.asked.target) {
        Some(me) => decide_object(machine, me),
        None => {
            let decision = primitive_decided(machine)?;
            follow_primitive(machine, decision)
        }
    }
}

/// What a decision that waits says, with the answer.
fn next_decision<S: Store>(
    machine: &mut Machine<S>,
    next: ExoticNext,
    reply: Reply,
) -> Result<Decision<ExoticNext>, OutOfMemory>
    ensures decided { let names = naming_of machine.old.me in
        let decided = exotic_resumed names machine.old.objects machine.old.common next reply in
        IfOk result (λ d. (d, machine.new.objects) ≡ decided) }
    ensures rest { OnOk result (machine.new ≡ record machine.old { objects = machine.new.objects }) }
{
    resume(
        machine.alloc,
        &mut machine.store,
        &machine.common,
        &machine.foreign,
        next,
        reply,
    )
}

/// The decision of an object goes on with the answer that it waited for.
pub fn resume_object<S: Store>(
    machine: &mut Machine<S>,
    me: Ref,
    next: ExoticNext,
    reply: Reply,
) -> Result<Mode, OutOfMemory>
    ensures { IfOk result (LeadsTo (λ a. goes_on (naming_of machine.old.me) a.shared me next reply
        (party_of a machine.old)) machine.old machine.new) }
{
    let decision = next_decision(machine, next, reply)?;
    follow_once(machine, me, decision)
}

/// What waited is open no longer, and goes on with a reply.
pub fn wake<S: Store>(
    machine: &mut Machine<S>,
    wait: Wait,
    reply: Reply,
) -> Result<Mode, OutOfMemory>
    ensures { IfOk result (Wakes wait reply machine.old machine.new) }
{
    match wait {
        Wait::Object { me, next } => resume_object(machine, me, next, reply),
        Wait::Construct { construction, args } => {
            resume_construct(machine, construction, args, reply)
        }
        Wait::Native { which, next } => resume_native(machine, which, next, reply),
        Wait::Exports => machine.reply(reply),
        Wait::Proxy { next } => resume_proxy(machine, next, reply),
        Wait::MethodGot {
            object,
            last,
            wanted,
        } => resume_got(machine, object, last, wanted, reply),
        Wait::MethodCalled {
            object,
            last,
            wanted,
        } => resume_called(machine, object, last, wanted, reply),
        Wait::SlotTold { which, next } => resume_told(machine, which, next, reply),
    }
}

/// What waits goes on with a reply.
pub fn resume_wait<S: Store>(machine: &mut Machine<S>, reply: Reply) -> Result<Mode, OutOfMemory>
    ensures { let old = machine.old in
        IfOk result (LeadsTo (λ a. go_on (naming_of old.me) a.shared (over frame.Decides old a)
        (Replied reply) (party_of a old)) (under frame.Decides old) machine.new) }
{
    let wait = machine.take_wait();
    machine.close_one();
    wake(machine, wait, reply)
}

/// An answer comes to a decision that waits.
pub fn resume_answered<S: Store>(machine: &mut Machine<S>) -> Result<Mode, OutOfMemory>
    ensures { IfOk result (IsDelivered frame.Decides mode_kind.Answer machine.old machine.new) }
{
    let reply = machine.take_answer();
    resume_wait(machine, reply)
}

/// A throw comes to a decision that waits.
pub fn resume_thrown<S: Store>(machine: &mut Machine<S>) -> Result<Mode, OutOfMemory>
    ensures { IfOk result (IsDelivered frame.Decides mode_kind.Throw machine.old machine.new) }
{
    let thrown = machine.take();
    resume_wait(machine, Reply::Throw(thrown))
}

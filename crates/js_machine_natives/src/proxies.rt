// What proxies decide, and what follows.

ghost use Rattle.std.specs.Prelude.{◌≡◌, IfOk, OnOk};
ghost use Rattle.js_text.specs.Naming.{naming_of};
ghost use Rattle.js_desc.specs.declared.decision.Decision.TheVariants as proxy_decision;
ghost use Rattle.js_machine.specs.js_proxy.Decided.{resumed};
ghost use Rattle.js_machine.specs.js_run.Acts.{Proxy_decides};
ghost use Rattle.js_machine.specs.js_run.Following.{follows_by};
ghost use Rattle.js_machine.specs.js_run.Proxies.{proxy_has_number};
ghost use Rattle.js_machine.specs.Proxying.{known_if, marks_if, object_come, proxy_decided, target_of};
ghost use Rattle.js_machine.specs.Steps.{LeadsTo};
ghost use Rattle.js_machine.specs.Views.{party_of};
ghost use Rattle.js_machine.specs.Ways.{object_in};

use js_desc::ask::Ask;
use js_desc::decision::Decision;
use js_desc::fault::FaultText;
use js_desc::reply::Reply;
use js_machine::asked::Wait;
use js_machine::decisions::object_of_value;
use js_machine::frame::Mode;
use js_machine::js_proxy::decide::{decide, resume};
use js_machine::js_traps::next::Next as ProxyNext;
use js_machine::machine::Machine;
use js_ordinary::target::{find_target, slot};
use js_store::foreign::Foreign;
use js_store::slot::Slot;
use js_store::store::Store;
use js_text::value::Value;
use lava_base::ids::{PartyId, Ref};
use lava_base::memory::OutOfMemory;

/// The target of a proxy that is not revoked.
fn target_of(slot: &Slot) -> Option<Ref>
    ensures { result ≡ target_of slot.now }
{
    match slot {
        Slot::Proxy(Some(proxied)) => Some(proxied.target),
        _ => None,
    }
}

/// The object that comes as an answer.
fn object_come(reply: &Reply) -> Option<Ref>
    ensures { result ≡ object_come reply.now }
{
    match reply {
        Reply::Value(value) => object_of_value(value),
        _ => None,
    }
}

/// What is known of others, where an object is looked at: of an own or a common one nothing is.
pub fn known_if<'a>(
    me: PartyId,
    object: Option<Ref>,
    known: &'a Foreign,
    nothing: &'a Foreign,
) -> &'a Foreign
    ensures { result.now ≡ known_if (naming_of me.0) known.now nothing.now object }
{
    match object {
        Some(Ref::Own { party, .. }) if party.0 != me.0 => known,
        _ => nothing,
    }
}

/// The target of an object that is a proxy.
fn target<S: Store>(machine: &Machine<S>, me: Ref) -> Option<Ref>
    ensures { result ≡ target_of (object_in machine.now me).slot }
{
    match find_target(&machine.store, &machine.common, me) {
        None => None,
        Some(target) => target_of(slot(&machine.store, &machine.common, target)),
    }
}

/// What a proxy decides of the ask of the machine.
pub fn proxy_decision<S: Store>(
    machine: &Machine<S>,
    me: Ref,
) -> Result<Decision<ProxyNext>, OutOfMemory>
    ensures { IfOk result (λ d. d ≡ proxy_decided machine.now me) }
{
    let target = target(machine, me);
    let nothing = Foreign::new(machine.alloc);
    let known = known_if(machine.store.party(), target, &machine.foreign, &nothing);
    decide(
        machine.alloc,
        &machine.store,
        &machine.common,
        known,
        me,
        &machine.asked.ask,
    )
}

/// The ask of a proxy's decision that waits.
fn follow_proxy_ask<S: Store>(
    machine: &mut Machine<S>,
    target: Option<Ref>,
    ask: Ask,
    next: ProxyNext,
) -> Result<Mode, OutOfMemory>
    ensures { let decision = proxy_decision.Ask target ask next in
        IfOk result (LeadsTo (λ a. follows_by (naming_of machine.old.me) Proxy_decides decision
        (party_of a machine.old)) machine.old machine.new) }
{
    match target {
        Some(target) => machine.wait_for(target, ask, Wait::Proxy { next }),
        None => machine.fault(FaultText::WrongKind),
    }
}

/// Follows the decision of a proxy, where no number is wanted.
pub fn follow_proxy_once<S: Store>(
    machine: &mut Machine<S>,
    decision: Decision<ProxyNext>,
) -> Result<Mode, OutOfMemory>
    ensures { IfOk result (LeadsTo (λ a. follows_by (naming_of machine.old.me) Proxy_decides
        decision (party_of a machine.old)) machine.old machine.new) }
{
    match decision {
        Decision::Done(reply) => machine.reply(reply),
        Decision::Fault(fault) => machine.fault(fault),
        Decision::Ask { target, ask, next } => follow_proxy_ask(machine, target, ask, next),
        Decision::Number { .. } => machine.fault(FaultText::WrongKind),
        Decision::Run { .. } => machine.fault(FaultText::WrongKind),
        Decision::End(kind) => machine.end_as(kind),
    }
}

/// What the decision of a proxy says that waits, with the answer.
pub fn next_of_proxy<S: Store>(
    machine: &mut Machine<S>,
    next: ProxyNext,
    reply: Reply,
) -> Result<Decision<ProxyNext>, OutOfMemory>
    ensures decided { let names = naming_of machine.old.me in
        let marks = marks_if machine.old (object_come reply) in
        let decided = resumed names (λ o. marks) machine.old.objects next reply in
        IfOk result (λ d. (d, machine.new.objects) ≡ decided) }
    ensures rest { OnOk result (machine.new ≡ record machine.old { objects = machine.new.objects }) }
{
    let nothing = Foreign::new(machine.alloc);
    let object = object_come(&reply);
    let known = known_if(machine.store.party(), object, &machine.foreign, &nothing);
    resume(
        machine.alloc,
        &mut machine.store,
        &machine.common,
        known,
        next,
        reply,
    )
}

/// The decision of a proxy goes on with the number that it wanted.
pub fn proxy_has_number<S: Store>(
    machine: &mut Machine<S>,
    next: ProxyNext,
    number: i64,
) -> Result<Mode, OutOfMemory>
    ensures { let names = naming_of machine.old.me in
        IfOk result (LeadsTo (λ a. proxy_has_number names a.shared next number
        (party_of a machine.old)) machine.old machine.new) }
{
    let decision = next_of_proxy(machine, next, Reply::Value(Value::Int(number)))?;
    follow_proxy_once(machine, decision)
}

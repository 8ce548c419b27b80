// What proxies decide, and what follows.

ghost use Rattle.std.specs.Prelude.{IfOk};
ghost use Rattle.js_text.specs.Naming.{naming_of};
ghost use Rattle.js_desc.specs.declared.decision.Decision.TheVariants as proxy_decision;
ghost use Rattle.js_machine.specs.js_run.Proxies.{follows_proxy, proxy_goes_on};
ghost use Rattle.js_machine.specs.Proxying.{proxy_decided};
ghost use Rattle.js_machine.specs.Steps.{LeadsTo};
ghost use Rattle.js_machine.specs.Views.{party_of};

use crate::to_number::begin_number;
use js_desc::decision::Decision;
use js_desc::reply::Reply;
use js_machine::asked::NumberFor;
use js_machine::frame::Mode;
use js_machine::js_traps::next::Next as ProxyNext;
use js_machine::machine::Machine;
use js_machine_natives::proxies::{follow_proxy_once, next_of_proxy, proxy_decision};
use js_store::store::Store;
use lava_base::ids::Ref;
use lava_base::memory::OutOfMemory;

/// Follows the decision of a proxy.
fn follow_proxy<S: Store>(
    machine: &mut Machine<S>,
    decision: Decision<ProxyNext>,
) -> Result<Mode, OutOfMemory>
    ensures { IfOk result (LeadsTo (λ a. follows_proxy (naming_of machine.old.me) a.shared decision
        (party_of a machine.old)) machine.old machine.new) }
{
    match decision {
        Decision::Number { value, next } => {
            begin_number(machine, value, NumberFor::Proxy { next })
        }
        decision => follow_proxy_once(machine, decision),
    }
}

/// A proxy decides of the ask of the machine.
pub fn decide_proxy<S: Store>(machine: &mut Machine<S>, me: Ref) -> Result<Mode, OutOfMemory>
    ensures { let decision = proxy_decided machine.old me in
        IfOk result (LeadsTo (λ a. follows_proxy (naming_of machine.old.me) a.shared decision
        (party_of a machine.old)) machine.old machine.new) }
{
    let decision = proxy_decision(machine, me)?;
    follow_proxy(machine, decision)
}

/// The decision of a proxy goes on with the answer that it waited for.
pub fn resume_proxy<S: Store>(
    machine: &mut Machine<S>,
    next: ProxyNext,
    reply: Reply,
) -> Result<Mode, OutOfMemory>
    ensures { let names = naming_of machine.old.me in
        IfOk result (LeadsTo (λ a. proxy_goes_on names a.shared next reply
        (party_of a machine.old)) machine.old machine.new) }
{
    let decision = next_of_proxy(machine, next, reply)?;
    follow_proxy(machine, decision)
}

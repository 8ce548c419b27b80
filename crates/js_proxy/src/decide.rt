// What a proxy decides of an ask, and how a decision that waits goes on.

ghost use Rattle.std.specs.Prelude.{◌≡◌, IfOk, OnErr};
ghost use Rattle.js_text.specs.Naming.{naming_of};
ghost use Rattle.js_traps.specs.js_operations.Looks.{marks_seen};
ghost use Rattle.js_traps.specs.js_operations.MadeObjects.{StandFirst};
ghost use Rattle.js_proxy.specs.Decided.{decided, decided_by_slot, resumed};

use crate::traps::{after_trap, decided_by_proxy};
use js_desc::ask::Ask;
use js_desc::decision::Decision;
use js_desc::fault::FaultText;
use js_desc::reply::Reply;
use js_ordinary::target::{find_target, slot};
use js_store::foreign::Foreign;
use js_store::frozen::FrozenStore;
use js_store::slot::Slot;
use js_store::store::Store;
use js_traps::next::Next;
use js_traps::resume::resume_trap;
use lava_base::ids::Ref;
use lava_base::memory::OutOfMemory;
use std::alloc::Global;

/// What the proxy `me` decides of an ask: the next ask, with what waits for its answer, or a fault. The store stays as it is.
///
/// Where there is no such object, the decision is the fault `not an object`; an object that is no proxy, and an ask that no proxy answers, give the fault `wrong kind`.
pub fn decide<S: Store>(
    alloc: Global,
    store: &S,
    common: &FrozenStore,
    foreign: &Foreign,
    me: Ref,
    ask: &Ask,
) -> Result<Decision<Next>, OutOfMemory>
    ensures { let names = naming_of (S.owner store.now).0 in
        let decision = decided names (S.objects store.now) common.now foreign.now me ask.now in
        IfOk result (λ d. d ≡ decision) }
{
    match find_target(store, common, me) {
        None => Ok(Decision::Fault(FaultText::NotAnObject)),
        Some(target) => {
            let slot = slot(store, common, target);
            decided_by_slot(alloc, store, common, foreign, slot, ask)
        }
    }
}

/// What an object decides by its slot.
fn decided_by_slot<S: Store>(
    alloc: Global,
    store: &S,
    common: &FrozenStore,
    foreign: &Foreign,
    slot: &Slot,
    ask: &Ask,
) -> Result<Decision<Next>, OutOfMemory>
    ensures { let names = naming_of (S.owner store.now).0 in
        let seen = marks_seen names (S.objects store.now) common.now foreign.now in
        IfOk result (λ d. d ≡ decided_by_slot seen slot.now ask.now) }
{
    match slot {
        Slot::Proxy(proxied) => decided_by_proxy(alloc, store, common, foreign, proxied, ask),
        _ => Ok(Decision::Fault(FaultText::WrongKind)),
    }
}

/// How a decision that waits goes on with the answer to its ask. A throw goes on as it is. An answer of another kind than the ask has does not come; it would be the fault `wrong kind`.
///
/// An object may be made for a trap, at the end of the store; the others stay as they are, after want of memory too.
pub fn resume<S: Store>(
    alloc: Global,
    store: &mut S,
    common: &FrozenStore,
    foreign: &Foreign,
    next: Next,
    reply: Reply,
) -> Result<Decision<Next>, OutOfMemory>
    ensures ok { let names = naming_of (S.owner store.old).0 in
        let objects = S.objects store.old in
        let seen = marks_seen names objects common.now foreign.now in
        IfOk result (λ d. (d, S.objects store.new) ≡ resumed names seen objects next reply) }
    ensures err { OnErr result (StandFirst (S.objects store.old) (S.objects store.new)) }
    ensures party { S.owner store.new ≡ S.owner store.old }
{
    match next {
        Next::Trap { proxied, ask } => {
            after_trap(alloc, store, common, foreign, proxied, ask, reply)
        }
        next => resume_trap(alloc, store, common, foreign, next, reply),
    }
}

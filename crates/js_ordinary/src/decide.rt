// What an ordinary object decides of an ask, and how a decision that waits goes on.

ghost use Rattle.std.specs.Prelude.{◌≡◌, IfOk, OnErr, option_map};
ghost use Rattle.js_desc.specs.declared.ask.Ask.TheVariants.{PreventExtensions};
ghost use Rattle.js_desc.specs.declared.decision.Decision.TheVariants.{Done};
ghost use Rattle.js_desc.specs.declared.reply.Reply.TheVariants.{Desc};
ghost use Rattle.js_text.specs.Naming.{naming_of};
ghost use Rattle.js_store.specs.Frozen.{common_ref};
ghost use Rattle.js_ordinary.specs.Decided.{decided, resumed};
ghost use Rattle.js_ordinary.specs.Targets.{IsSeen, decided_seen};

use crate::calls::{call_by, construct_by};
use crate::held_functions::{after_member, after_member_value, after_override, after_result};
use crate::next::Next;
use crate::ordinary_define_own_property::ordinary_define_own_property;
use crate::ordinary_delete::ordinary_delete;
use crate::ordinary_get::ordinary_get;
use crate::ordinary_has_property::ordinary_has_property;
use crate::ordinary_set::{after_receiver, after_setter, ordinary_set};
use crate::ordinary_set_prototype_of::ordinary_set_prototype_of;
use crate::target::{
    Target, extensible, find_target, marks, own_keys, own_property, prototype, slot,
};
use js_desc::ask::Ask;
use js_desc::copy::copy_descriptor;
use js_desc::decision::Decision;
use js_desc::descriptor::Descriptor;
use js_desc::fault::FaultText;
use js_desc::reply::Reply;
use js_store::foreign::Foreign;
use js_store::frozen::FrozenStore;
use js_store::store::Store;
use lava_base::ids::Ref;
use lava_base::memory::OutOfMemory;
use std::alloc::Global;

/// What the object `me` decides of an ask: an answer, or the next ask with what waits for its answer, or a body that runs. Of the party's objects `me` alone may change, and no object is made; after want of memory none has changed.
///
/// `me` is an object of the store or of the common part; where there is no such object, the decision is the fault `not an object`. An ask that no object answers is the fault `wrong kind`. No decision of an ordinary object looks at the marks of foreign references.
pub fn decide<S: Store>(
    alloc: Global,
    store: &mut S,
    common: &FrozenStore,
    _foreign: &Foreign,
    me: Ref,
    ask: &Ask,
) -> Result<Decision<Next>, OutOfMemory>
    ensures ok { let names = naming_of (S.owner store.old).0 in
        let decision = decided names (S.objects store.old) common.now me ask.now in
        IfOk result (λ d. (d, S.objects store.new) ≡ decision) }
    ensures err { OnErr result (S.objects store.new ≡ S.objects store.old) }
    ensures party { S.owner store.new ≡ S.owner store.old }
{
    match find_target(store, common, me) {
        None => Ok(Decision::Fault(FaultText::NotAnObject)),
        Some(target) => decide_at(alloc, store, common, target, ask),
    }
}

/// What the object of a target decides of an ask, as `decide`: one row a method.
pub fn decide_at<S: Store>(
    alloc: Global,
    store: &mut S,
    common: &FrozenStore,
    target: Target,
    ask: &Ask,
) -> Result<Decision<Next>, OutOfMemory>
    requires { IsSeen (S.objects store.old) common.now target }
    ensures ok { let names = naming_of (S.owner store.old).0 in
        let decision = decided_seen names (S.objects store.old) common.now target ask.now in
        IfOk result (λ d. (d, S.objects store.new) ≡ decision) }
    ensures err { OnErr result (S.objects store.new ≡ S.objects store.old) }
    ensures party { S.owner store.new ≡ S.owner store.old }
{
    match ask {
        Ask::GetPrototypeOf => Ok(Decision::Done(Reply::Proto(prototype(store, common, target)))),
        Ask::SetPrototypeOf { proto } => {
            Ok(ordinary_set_prototype_of(store, common, target, *proto))
        }
        Ask::IsExtensible => Ok(Decision::Done(Reply::Flag(extensible(store, common, target)))),
        Ask::PreventExtensions => Ok(prevent_extensions(store, common, target)),
        Ask::GetOwnProperty { key } => tell_property(own_property(store, common, target, key)),
        Ask::DefineOwnProperty { key, descriptor } => {
            ordinary_define_own_property(store, common, target, key, descriptor)
        }
        Ask::HasProperty { key } => ordinary_has_property(store, common, target, key),
        Ask::Get { key, receiver } => ordinary_get(alloc, store, common, target, key, receiver),
        Ask::Set {
            key,
            value,
            receiver,
        } => ordinary_set(alloc, store, common, target, key, value, receiver),
        Ask::Delete { key } => Ok(ordinary_delete(store, common, target, key)),
        Ask::OwnPropertyKeys => {
            let keys = own_keys(alloc, store, common, target)?;
            Ok(Decision::Done(Reply::Keys(keys)))
        }
        Ask::Call { this, args } => {
            let party = store.party().0;
            call_by(alloc, party, slot(store, common, target), this, args)
        },
        Ask::Construct { new_target, args } => {
            let constructor = marks(store, common, target).constructor;
            construct_by(
                alloc,
                slot(store, common, target),
                constructor,
                *new_target,
                args,
            )
        }
        Ask::Import { .. } | Ask::Slot { .. } | Ask::Make { .. } | Ask::Queue | Ask::Turn => {
            Ok(Decision::Fault(FaultText::WrongKind))
        }
    }
}

/// From now on no new properties may be made (ECMA-262, OrdinaryPreventExtensions). An object of the common part has none made anyhow.
fn prevent_extensions<S: Store>(
    store: &mut S,
    common: &FrozenStore,
    target: Target,
) -> Decision<Next>
    requires { IsSeen (S.objects store.old) common.now target }
    ensures decision { let names = naming_of (S.owner store.old).0 in
        let objects = S.objects store.old in
        let decision = decided_seen names objects common.now target PreventExtensions in
        (result, S.objects store.new) ≡ decision }
    ensures party { S.owner store.new ≡ S.owner store.old }
{
    if let Target::Own(id) = target {
        store.prevent(id);
    }
    Decision::Done(Reply::Flag(true))
}

/// A property, or that there is none.
fn tell_property(property: Option<&Descriptor>) -> Result<Decision<Next>, OutOfMemory>
    ensures { IfOk result (λ d. d ≡ Done (Desc (option_map (λ p. p.now) property.entry))) }
{
    match property {
        None => Ok(Decision::Done(Reply::Desc(None))),
        Some(property) => {
            let property = copy_descriptor(property)?;
            Ok(Decision::Done(Reply::Desc(Some(property))))
        }
    }
}

/// How a decision that waits goes on with the answer to its ask. A throw goes on as it is. An answer of another kind than the ask has does not come; it would be the fault `wrong kind`.
pub fn resume<S: Store>(
    alloc: Global,
    _store: &mut S,
    _common: &FrozenStore,
    _foreign: &Foreign,
    next: Next,
    reply: Reply,
) -> Result<Decision<Next>, OutOfMemory>
    ensures goes_on { IfOk result (λ d. d ≡ resumed common_ref next reply) }
    ensures store { _store.new ≡ _store.old }
{
    match next {
        Next::Answer => Ok(Decision::Done(reply)),
        Next::Setter => Ok(after_setter(reply)),
        Next::Receiver {
            key,
            value,
            receiver,
        } => Ok(after_receiver(key, value, receiver, reply)),
        Next::Member { key } => after_member(alloc, key, reply),
        Next::MemberValue { key, value } => Ok(after_member_value(key, value, reply)),
        Next::Override {
            key,
            value,
            receiver,
        } => Ok(after_override(key, value, receiver, reply)),
        Next::SetResult => Ok(after_result(FaultText::CannotSet, reply)),
        Next::DefineResult => Ok(after_result(FaultText::CannotDefine, reply)),
    }
}

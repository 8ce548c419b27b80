// What an object decides of an ask, where it may be exotic.

ghost use Rattle.std.specs.Prelude.{◌≡◌, IfOk, OnErr};
ghost use Rattle.js_text.specs.Naming.{naming_of};
ghost use Rattle.js_ordinary.specs.Origins.{there};
ghost use Rattle.js_ordinary.specs.Targets.{IsSeen};
ghost use Rattle.js_exotic.specs.Decided.{after_number, decided, exotic_resumed, length_set_there};
ghost use Rattle.js_exotic.specs.Targets.{decided_seen, ordinary_seen};

use crate::array_define_own_property::define_own_property;
use crate::array_set_length::array_set_length_to;
use crate::bound_functions::{call_any, construct_any};
use crate::next::{Next, as_exotic};
use crate::set_immutable_prototype::set_prototype_of;
use js_desc::ask::Ask;
use js_desc::decision::Decision;
use js_desc::descriptor::PartialDescriptor;
use js_desc::fault::FaultText;
use js_desc::reply::Reply;
use js_ordinary::decide;
use js_ordinary::target::{Target, find_target, marks, slot};
use js_store::foreign::Foreign;
use js_store::frozen::FrozenStore;
use js_store::store::Store;
use js_text::value::Value;
use lava_base::ids::Ref;
use lava_base::memory::OutOfMemory;
use std::alloc::Global;

/// What the object `me`, which is no proxy, decides of an ask: an answer, or the next ask with what waits for its answer, or a body that runs. Of the party's objects `me` alone may change, and no object is made; after want of memory none has changed.
///
/// `me` is an object of the store or of the common part; where there is no such object, the decision is the fault `not an object`. An ask that no object answers is the fault `wrong kind`.
pub fn decide<S: Store>(
    alloc: Global,
    store: &mut S,
    common: &FrozenStore,
    _foreign: &Foreign,
    me: Ref,
    ask: &Ask,
) -> Result<Decision<Next>, OutOfMemory>
    ensures ok { let names = naming_of (S.owner store.old).0 in
        let decision = decided names (S.objects store.old) common.now me ask.now in
        IfOk result (λ d. (d, S.objects store.new) ≡ decision) }
    ensures err { OnErr result (S.objects store.new ≡ S.objects store.old) }
    ensures party { S.owner store.new ≡ S.owner store.old }
{
    match find_target(store, common, me) {
        None => Ok(Decision::Fault(FaultText::NotAnObject)),
        Some(target) => decide_exotic(alloc, store, common, me, target, ask),
    }
}

/// What an object decides of an ask that an exotic one decides in its own way, and of any other.
fn decide_exotic<S: Store>(
    alloc: Global,
    store: &mut S,
    common: &FrozenStore,
    me: Ref,
    target: Target,
    ask: &Ask,
) -> Result<Decision<Next>, OutOfMemory>
    requires { IsSeen (S.objects store.old) common.now target }
    ensures ok { let names = naming_of (S.owner store.old).0 in
        let decision = decided_seen names (S.objects store.old) common.now me target ask.now in
        IfOk result (λ d. (d, S.objects store.new) ≡ decision) }
    ensures err { OnErr result (S.objects store.new ≡ S.objects store.old) }
    ensures party { S.owner store.new ≡ S.owner store.old }
{
    match ask {
        Ask::SetPrototypeOf { proto } => {
            Ok(as_exotic(set_prototype_of(store, common, target, *proto)))
        }
        Ask::DefineOwnProperty { key, descriptor } => {
            define_own_property(store, common, me, target, key, descriptor)
        }
        Ask::Call { this, args } => {
            let party = store.party().0;
            let decision = call_any(alloc, party, slot(store, common, target), this, args)?;
            Ok(as_exotic(decision))
        }
        Ask::Construct { new_target, args } => {
            let constructor = marks(store, common, target).constructor;
            let slot = slot(store, common, target);
            let decision = construct_any(alloc, me, slot, constructor, *new_target, args)?;
            Ok(as_exotic(decision))
        }
        Ask::GetPrototypeOf
        | Ask::IsExtensible
        | Ask::PreventExtensions
        | Ask::GetOwnProperty { .. }
        | Ask::HasProperty { .. }
        | Ask::Get { .. }
        | Ask::Set { .. }
        | Ask::Delete { .. }
        | Ask::OwnPropertyKeys
        | Ask::Import { .. }
        | Ask::Slot { .. }
        | Ask::Make { .. }
        | Ask::Queue
        | Ask::Turn => decide_as_ordinary(alloc, store, common, target, ask),
    }
}

/// What an object decides of an ask as an ordinary one.
fn decide_as_ordinary<S: Store>(
    alloc: Global,
    store: &mut S,
    common: &FrozenStore,
    target: Target,
    ask: &Ask,
) -> Result<Decision<Next>, OutOfMemory>
    requires { IsSeen (S.objects store.old) common.now target }
    ensures ok { let names = naming_of (S.owner store.old).0 in
        let decision = ordinary_seen names (S.objects store.old) common.now target ask.now in
        IfOk result (λ d. (d, S.objects store.new) ≡ decision) }
    ensures err { OnErr result (S.objects store.new ≡ S.objects store.old) }
    ensures party { S.owner store.new ≡ S.owner store.old }
{
    let decision = decide::decide_at(alloc, store, common, target, ask)?;
    Ok(as_exotic(decision))
}

/// How a decision that waits goes on with the answer to what came with it. A throw goes on as it is. An answer of another kind does not come; it would be the fault `wrong kind`. After want of memory nothing has changed.
pub fn resume<S: Store>(
    alloc: Global,
    store: &mut S,
    common: &FrozenStore,
    foreign: &Foreign,
    next: Next,
    reply: Reply,
) -> Result<Decision<Next>, OutOfMemory>
    ensures ok { let names = naming_of (S.owner store.old).0 in
        let decision = exotic_resumed names (S.objects store.old) common.now next reply in
        IfOk result (λ d. (d, S.objects store.new) ≡ decision) }
    ensures err { OnErr result (S.objects store.new ≡ S.objects store.old) }
    ensures party { S.owner store.new ≡ S.owner store.old }
{
    match next {
        Next::Ordinary(next) => {
            let decision = decide::resume(alloc, store, common, foreign, next, reply)?;
            Ok(as_exotic(decision))
        }
        Next::Length { me, descriptor } => after_number(store, common, me, &descriptor, reply),
    }
}

/// The number that the length of an array is to be has come.
fn after_number<S: Store>(
    store: &mut S,
    common: &FrozenStore,
    me: Ref,
    descriptor: &PartialDescriptor,
    reply: Reply,
) -> Result<Decision<Next>, OutOfMemory>
    ensures ok { let names = naming_of (S.owner store.old).0 in
        let objects = S.objects store.old in
        let decision = after_number names objects common.now me descriptor.now reply in
        IfOk result (λ d. (d, S.objects store.new) ≡ decision) }
    ensures err { OnErr result (S.objects store.new ≡ S.objects store.old) }
    ensures party { S.owner store.new ≡ S.owner store.old }
{
    match reply {
        Reply::Value(value) => set_length_there(store, common, me, descriptor, &value),
        Reply::Throw(thrown) => Ok(Decision::Done(Reply::Throw(thrown))),
        _ => Ok(Decision::Fault(FaultText::WrongKind)),
    }
}

/// Sets the length of the array `me` to a number, where there is such an object.
fn set_length_there<S: Store>(
    store: &mut S,
    common: &FrozenStore,
    me: Ref,
    descriptor: &PartialDescriptor,
    number: &Value,
) -> Result<Decision<Next>, OutOfMemory>
    ensures ok { let names = naming_of (S.owner store.old).0 in
        let objects = S.objects store.old in
        let place = there objects common.now (names.origin me) in
        let decision = length_set_there names objects common.now descriptor.now number.now place in
        IfOk result (λ d. (d, S.objects store.new) ≡ decision) }
    ensures err { OnErr result (S.objects store.new ≡ S.objects store.old) }
    ensures party { S.owner store.new ≡ S.owner store.old }
{
    let Some(target) = find_target(store, common, me) else {
        return Ok(Decision::Fault(FaultText::NotAnObject));
    };
    match number {
        Value::Int(number) => array_set_length_to(store, common, target, descriptor, *number),
        _ => Ok(Decision::Fault(FaultText::WrongKind)),
    }
}

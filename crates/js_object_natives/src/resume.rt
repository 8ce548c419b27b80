// How a native on objects goes on with the answer to its ask.

ghost use Rattle.std.specs.Prelude.{◌≡◌, ℕ, ℤ, List, Option, IfOk, OnErr};
ghost use Rattle.js_text.specs.Naming.{naming_of};
ghost use Rattle.js_conversions.specs.js_operations.Looks.{marks_seen};
ghost use Rattle.js_conversions.specs.js_operations.MadeObjects.{StandFirst};
ghost use Rattle.js_conversions.specs.Primitives.{ReadsNumbers};
ghost use Rattle.js_object_natives.specs.Resumed.{answered, described, given_object, listed, native_resumed, property_described, values_of_keys};

use crate::keyed::{converting, defining};
use crate::next::Next;
use js_conversions::conversions::resume_conversion;
use js_conversions::js_operations::descriptions::resume_description;
use js_conversions::js_operations::made_objects::{make_array, make_description};
use js_conversions::js_operations::names::{key_value, proto_value};
use js_desc::complete::fields;
use js_desc::decision::Decision;
use js_desc::descriptor::Descriptor;
use js_desc::fault::FaultText;
use js_desc::reply::Reply;
use js_store::foreign::Foreign;
use js_store::frozen::FrozenStore;
use js_store::store::Store;
use js_text::value::{Key, Value};
use lava_base::ids::{ObjId, PartyId, Ref};
use lava_base::list::List;
use lava_base::memory::OutOfMemory;
use std::alloc::Global;

/// An answer as a value.
fn answered(reply: Reply) -> Decision<Next>
    ensures { result ≡ answered reply }
{
    match reply {
        Reply::Value(value) => Decision::Done(Reply::Value(value)),
        Reply::Proto(proto) => Decision::Done(Reply::Value(proto_value(proto))),
        Reply::Flag(truth) => Decision::Done(Reply::Value(Value::Bool(truth))),
        Reply::Throw(thrown) => Decision::Done(Reply::Throw(thrown)),
        _ => Decision::Fault(FaultText::WrongKind),
    }
}

/// Gives an object that was made.
fn given_object(party: PartyId, id: ObjId) -> Decision<Next>
    ensures { result ≡ given_object (naming_of party.0) id.0 }
{
    Decision::Done(Reply::Value(Value::Ref(Ref::Own { party, id })))
}

/// Describes a property by an object, or tells that there is none.
fn property_described<S: Store>(
    alloc: Global,
    store: &mut S,
    property: &Option<Descriptor>,
) -> Result<Decision<Next>, OutOfMemory>
    ensures ok { let names = naming_of (S.owner store.old).0 in
        let decision = property_described names (S.objects store.old) property.now in
        IfOk result (λ d. (d, S.objects store.new) ≡ decision) }
    ensures err { OnErr result (StandFirst (S.objects store.old) (S.objects store.new)) }
    ensures party { S.owner store.new ≡ S.owner store.old }
{
    match property {
        None => Ok(Decision::Done(Reply::Value(Value::Undefined))),
        Some(property) => {
            let id = make_description(alloc, store, &fields(property)?)?;
            Ok(given_object(store.party(), id))
        }
    }
}

/// Goes on with the property that is to be described.
fn described<S: Store>(
    alloc: Global,
    store: &mut S,
    reply: Reply,
) -> Result<Decision<Next>, OutOfMemory>
    ensures ok { let names = naming_of (S.owner store.old).0 in
        let decision = described names (S.objects store.old) reply in
        IfOk result (λ d. (d, S.objects store.new) ≡ decision) }
    ensures err { OnErr result (StandFirst (S.objects store.old) (S.objects store.new)) }
    ensures party { S.owner store.new ≡ S.owner store.old }
{
    match reply {
        Reply::Desc(property) => property_described(alloc, store, &property),
        Reply::Throw(thrown) => Ok(Decision::Done(Reply::Throw(thrown))),
        _ => Ok(Decision::Fault(FaultText::WrongKind)),
    }
}

/// Keys as values.
#[tactic(auto, using(crate::proofs::Keys_as_values::one_more_value, crate::proofs::Keys_as_values::all_values))]
fn values_of_keys(alloc: Global, keys: &List<Key>) -> Result<List<Value>, OutOfMemory>
    ensures { IfOk result (λ values. values ≡ values_of_keys keys.now) }
{
    let mut values = List::new(alloc);
    for key in keys.as_slice() {
        values.push(key_value(alloc, key)?)?;
    }
    Ok(values)
}

/// Goes on with the keys that are to be told.
fn listed<S: Store>(
    alloc: Global,
    store: &mut S,
    reply: Reply,
) -> Result<Decision<Next>, OutOfMemory>
    ensures ok { let names = naming_of (S.owner store.old).0 in
        let decision = listed names (S.objects store.old) reply in
        IfOk result (λ d. (d, S.objects store.new) ≡ decision) }
    ensures err { OnErr result (StandFirst (S.objects store.old) (S.objects store.new)) }
    ensures party { S.owner store.new ≡ S.owner store.old }
{
    match reply {
        Reply::Keys(keys) => {
            let values = values_of_keys(alloc, &keys)?;
            let id = make_array(alloc, store, &values)?;
            Ok(given_object(store.party(), id))
        }
        Reply::Throw(thrown) => Ok(Decision::Done(Reply::Throw(thrown))),
        _ => Ok(Decision::Fault(FaultText::WrongKind)),
    }
}

/// How a waiting native goes on with the answer to its ask. A throw goes on as it is. An answer of another kind than the ask has does not come; it would be the fault `wrong kind`.
///
/// An object may be made, at the end of the store; the others stay as they are, after want of memory too.
pub fn resume_native<S: Store>(
    alloc: Global,
    store: &mut S,
    common: &FrozenStore,
    foreign: &Foreign,
    next: Next,
    reply: Reply,
) -> Result<Decision<Next>, OutOfMemory>
    ensures ok { (read : List ℕ → Option ℤ) → ReadsNumbers read
        → let names = naming_of (S.owner store.old).0 in
        let objects = S.objects store.old in
        let seen = marks_seen names objects common.now foreign.now in
        let decision = native_resumed names seen read objects next reply in
        IfOk result (λ d. (d, S.objects store.new) ≡ decision) }
    ensures err { OnErr result (StandFirst (S.objects store.old) (S.objects store.new)) }
    ensures party { S.owner store.new ≡ S.owner store.old }
{
    match next {
        Next::Answer => Ok(answered(reply)),
        Next::Described => described(alloc, store, reply),
        Next::Listed => listed(alloc, store, reply),
        Next::Keyed { call, conversion } => {
            let conversion = resume_conversion(alloc, store, common, foreign, conversion, reply)?;
            converting(alloc, call, conversion)
        }
        Next::Defining {
            object,
            key,
            description,
        } => {
            let step = resume_description(alloc, store, common, foreign, description, reply)?;
            Ok(defining(object, key, step))
        }
    }
}

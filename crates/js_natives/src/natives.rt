// All natives, by number.

ghost use Rattle.std.specs.Prelude.{◌≡◌, ℕ, ℤ, List, Option, IfOk};
ghost use Rattle.js_text.specs.Naming.{naming_of};
ghost use Rattle.js_run_laws.specs.js_conversions.Primitives.{ReadsNumbers};
ghost use Rattle.js_native.specs.TextNatives.{FindsFirst};
ghost use Rattle.js_run_laws.specs.js_operations.Looks.{marks_seen};
ghost use Rattle.js_natives.specs.Decided.{native_step};
ghost use Rattle.js_natives.specs.Deeds.{Does, acts_with, asks_here, asks_kind, is_here};

use crate::families::{Family, family_of};
use crate::items::{item_native, reads_items};
use crate::makers::maker_native;
use crate::objects::{call_native, telling_native};
use crate::seen::all_are_there;
use crate::texts::{conversion_native, text_native};
use js_desc::decision::Decision;
use js_desc::fault::FaultText;
use js_native_steps::next::NativeNext;
use js_store::foreign::Foreign;
use js_store::frozen::FrozenStore;
use js_store::store::Store;
use js_text::native::Native;
use js_text::value::Value;
use lava_base::ids::Ref;
use lava_base::memory::OutOfMemory;
use std::alloc::Global;

/// What a native decides.
fn native_step<S: Store>(
    alloc: Global,
    store: &mut S,
    common: &FrozenStore,
    foreign: &Foreign,
    which: Native,
    args: &[Value],
) -> Result<Decision<NativeNext>, OutOfMemory>
    ensures ok { (read : List ℕ → Option ℤ) → ReadsNumbers read
        → (find : List ℕ → List ℕ → ℕ → Option ℕ) → FindsFirst find
        → let names = naming_of (S.owner store.old).0 in
        let objects = S.objects store.old in
        let seen = marks_seen names objects common.now foreign.now in
        let step = native_step names seen objects common.now read find which args.now in
        IfOk result (λ d. (d, S.objects store.new) ≡ step) }
    ensures party { S.owner store.new ≡ S.owner store.old }
{
    match family_of(which) {
        Family::Makes => maker_native(alloc, store, common, foreign, which, args),
        Family::Tells => telling_native(alloc, store, common, foreign, which, args),
        Family::Texts => text_native(alloc, which, args),
        Family::Converts => conversion_native(alloc, which, args),
        Family::Calls => call_native(alloc, store, common, foreign, which, args),
        Family::Parties => Ok(Decision::Fault(FaultText::Unsupported)),
        Family::Compartments => Ok(Decision::Fault(FaultText::WrongKind)),
    }
}

/// Whether an object is not a foreign one, for the party of a store.
fn is_here(party: u32, object: Ref) -> bool
    ensures { result ≡ is_here ((naming_of party).origin object) }
{
    match object {
        Ref::Common(_) => true,
        Ref::Own { party: owner, .. } => owner.0 == party,
    }
}

/// Whether an own object or one of the common part is asked.
pub fn asks_here(party: u32, decision: &Decision<NativeNext>) -> bool
    ensures { result ≡ asks_here (naming_of party) decision.now }
{
    match decision {
        Decision::Ask {
            target: Some(object),
            ..
        } => is_here(party, *object),
        _ => false,
    }
}

/// Whether `classOf` asks a proxy that is not a foreign one.
fn asks_kind(party: u32, which: Native, decision: &Decision<NativeNext>) -> bool
    ensures { result ≡ asks_kind (naming_of party) which decision.now }
{
    match which {
        Native::ClassOf => asks_here(party, decision),
        _ => false,
    }
}

/// What a native decides once it is charged. Want of memory is answered too where an operand names no object, where an item of `fromUnits` is an object, and where `classOf` is to ask a proxy that is not a foreign one.
pub fn native<S: Store>(
    alloc: Global,
    store: &mut S,
    common: &FrozenStore,
    foreign: &Foreign,
    which: Native,
    args: &[Value],
) -> Result<Decision<NativeNext>, OutOfMemory>
    ensures does { let deed = acts_with which args.now in
        IfOk result (λ d. Does (S.owner store.old).0 (S.objects store.old) common.now foreign.now
        which deed d (S.objects store.new)) }
    ensures party { S.owner store.new ≡ S.owner store.old }
{
    if !all_are_there(store, common, args) {
        return Err(OutOfMemory);
    }
    if reads_items(which) {
        return item_native(alloc, store, common, which, args);
    }
    let decision = native_step(alloc, store, common, foreign, which, args)?;
    if asks_kind(store.party().0, which, &decision) {
        return Err(OutOfMemory);
    }
    Ok(decision)
}

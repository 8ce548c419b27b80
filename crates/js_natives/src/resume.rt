// How a native goes on with the answer that it waited for.

ghost use Rattle.std.specs.Prelude.{◌≡◌, ℕ, ℤ, List, Option, IfOk};
ghost use Rattle.js_text.specs.Naming.{naming_of};
ghost use Rattle.js_run_laws.specs.js_conversions.Primitives.{ReadsNumbers};
ghost use Rattle.js_run_laws.specs.js_operations.Looks.{marks_seen};
ghost use Rattle.js_natives.specs.Decided.{step_resumed};
ghost use Rattle.js_natives.specs.Deeds.{Does, goes_on_with};

use crate::seen::reply_is_there;
use js_desc::decision::Decision;
use js_desc::reply::Reply;
use js_native_steps::next::{NativeNext, of_conversion, of_maker, of_object, of_slot};
use js_run_laws::js_conversions::conversions::resume_conversion;
use js_run_laws::js_maker_natives::resume::resume_maker;
use js_run_laws::js_object_natives::resume::resume_native;
use js_run_laws::js_slot_natives::slot_natives::resume_slot_native;
use js_store::foreign::Foreign;
use js_store::frozen::FrozenStore;
use js_store::store::Store;
use js_text::native::Native;
use lava_base::memory::OutOfMemory;
use std::alloc::Global;

/// What a native that waits decides with the answer.
fn step_resumed<S: Store>(
    alloc: Global,
    store: &mut S,
    common: &FrozenStore,
    foreign: &Foreign,
    next: NativeNext,
    reply: Reply,
) -> Result<Decision<NativeNext>, OutOfMemory>
    ensures ok { (read : List ℕ → Option ℤ) → ReadsNumbers read
        → let names = naming_of (S.owner store.old).0 in
        let objects = S.objects store.old in
        let seen = marks_seen names objects common.now foreign.now in
        let step = step_resumed names seen objects common.now read next reply in
        IfOk result (λ d. (d, S.objects store.new) ≡ step) }
    ensures party { S.owner store.new ≡ S.owner store.old }
{
    match next {
        NativeNext::Object(next) => {
            Ok(of_object(resume_native(alloc, store, common, foreign, next, reply)?))
        }
        NativeNext::Maker(next) => {
            Ok(of_maker(resume_maker(alloc, store, common, foreign, next, reply)?))
        }
        NativeNext::Slot(_) => Ok(of_slot(resume_slot_native(reply))),
        NativeNext::Conversion(next) => {
            Ok(of_conversion(resume_conversion(alloc, store, common, foreign, next, reply)?))
        }
    }
}

/// Goes on with the answer that a native waited for. Want of memory is answered too where the answer names no object.
pub fn resume<S: Store>(
    alloc: Global,
    store: &mut S,
    common: &FrozenStore,
    foreign: &Foreign,
    which: Native,
    next: NativeNext,
    reply: Reply,
) -> Result<Decision<NativeNext>, OutOfMemory>
    ensures does { let deed = goes_on_with which next reply in
        IfOk result (λ d. Does (S.owner store.old).0 (S.objects store.old) common.now foreign.now
        which deed d (S.objects store.new)) }
    ensures party { S.owner store.new ≡ S.owner store.old }
{
    if !reply_is_there(store, common, &reply) {
        return Err(OutOfMemory);
    }
    step_resumed(alloc, store, common, foreign, next, reply)
}

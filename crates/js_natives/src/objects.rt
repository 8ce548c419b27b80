// The natives on objects, those that call, and those that tell what a value is.

ghost use Rattle.std.specs.Prelude.{◌≡◌, IfOk};
ghost use Rattle.js_text.specs.Naming.{naming_of};
ghost use Rattle.js_run_laws.specs.js_operations.Looks.{marks_seen};
ghost use Rattle.js_natives.specs.Decided.{call_native, telling_native};

use js_desc::decision::Decision;
use js_desc::fault::FaultText;
use js_native_steps::next::{NativeNext, of_maker, of_object};
use js_run_laws::js_maker_natives::kinds::{class_of, is_common, symbol_for};
use js_run_laws::js_object_natives::call_natives::{apply, construct};
use js_run_laws::js_object_natives::object_natives::object_native;
use js_store::foreign::Foreign;
use js_store::frozen::FrozenStore;
use js_store::store::Store;
use js_text::native::Native;
use js_text::value::Value;
use lava_base::memory::OutOfMemory;
use std::alloc::Global;

/// What one of the natives decides that call, or that ask an object.
pub(crate) fn call_native<S: Store>(
    alloc: Global,
    store: &S,
    common: &FrozenStore,
    foreign: &Foreign,
    which: Native,
    args: &[Value],
) -> Result<Decision<NativeNext>, OutOfMemory>
    ensures { let names = naming_of (S.owner store.now).0 in
        let objects = S.objects store.now in
        let seen = marks_seen names objects common.now foreign.now in
        IfOk result (λ d. d ≡ call_native names seen objects common.now which args.now) }
{
    match which {
        Native::Apply => Ok(of_object(apply(alloc, store, common, foreign, args)?)),
        Native::Construct => Ok(of_object(construct(alloc, store, common, foreign, args)?)),
        _ => Ok(of_object(object_native(alloc, which, args)?)),
    }
}

/// What one of the natives decides that tell what a value is.
pub(crate) fn telling_native<S: Store>(
    alloc: Global,
    store: &S,
    common: &FrozenStore,
    foreign: &Foreign,
    which: Native,
    args: &[Value],
) -> Result<Decision<NativeNext>, OutOfMemory>
    ensures { let names = naming_of (S.owner store.now).0 in
        let objects = S.objects store.now in
        let seen = marks_seen names objects common.now foreign.now in
        IfOk result (λ d. d ≡ telling_native names seen objects common.now which args.now) }
{
    match which {
        Native::IsCommon => Ok(of_maker(is_common(store.party().0, args))),
        Native::SymbolFor => Ok(of_maker(symbol_for(args)?)),
        Native::ClassOf => Ok(of_maker(class_of(alloc, store, common, foreign, args)?)),
        _ => Ok(Decision::Fault(FaultText::WrongKind)),
    }
}

// The natives that make objects.

ghost use Rattle.std.specs.Prelude.{◌≡◌, IfOk};
ghost use Rattle.js_text.specs.Naming.{naming_of};
ghost use Rattle.js_run_laws.specs.js_operations.Looks.{marks_seen};
ghost use Rattle.js_natives.specs.Decided.{maker_native};

use js_desc::decision::Decision;
use js_desc::fault::FaultText;
use js_native_steps::next::{NativeNext, of_maker};
use js_run_laws::js_maker_natives::makers::{
    bind, make_array, make_map, make_object, make_proxy, make_symbol, revoke,
};
use js_run_laws::js_maker_natives::resume::make_error;
use js_store::foreign::Foreign;
use js_store::frozen::FrozenStore;
use js_store::store::Store;
use js_text::native::Native;
use js_text::value::Value;
use lava_base::memory::OutOfMemory;
use std::alloc::Global;

/// What one of the natives decides that make objects, which it makes at the end of the store.
pub(crate) fn maker_native<S: Store>(
    alloc: Global,
    store: &mut S,
    common: &FrozenStore,
    foreign: &Foreign,
    which: Native,
    args: &[Value],
) -> Result<Decision<NativeNext>, OutOfMemory>
    ensures ok { let names = naming_of (S.owner store.old).0 in
        let objects = S.objects store.old in
        let seen = marks_seen names objects common.now foreign.now in
        let step = maker_native names seen objects common.now which args.now in
        IfOk result (λ d. (d, S.objects store.new) ≡ step) }
    ensures party { S.owner store.new ≡ S.owner store.old }
{
    match which {
        Native::MakeObject => Ok(of_maker(make_object(store, args)?)),
        Native::MakeArray => Ok(of_maker(make_array(alloc, store, args)?)),
        Native::Bind => Ok(of_maker(bind(alloc, store, common, foreign, args)?)),
        Native::MakeProxy => Ok(of_maker(make_proxy(store, common, foreign, args)?)),
        Native::Revoke => Ok(of_maker(revoke(store, common, args))),
        Native::MakeSymbol => Ok(of_maker(make_symbol(store, args)?)),
        Native::MakeError => Ok(of_maker(make_error(alloc, store, args)?)),
        Native::MakeMap => Ok(of_maker(make_map(alloc, store, args)?)),
        _ => Ok(Decision::Fault(FaultText::WrongKind)),
    }
}

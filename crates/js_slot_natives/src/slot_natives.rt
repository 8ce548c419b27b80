// The natives 36 to 43: what is asked of a keyed collection.

ghost use Rattle.std.specs.Prelude.{◌≡◌, ◌∷◌, IfOk};
ghost use Rattle.js_text.specs.Naming.{naming_of};
ghost use Rattle.js_text.specs.declared.value.Value.TheVariants as value;
ghost use Rattle.js_operations.specs.Looks.{marks_seen};
ghost use Rattle.js_slot_natives.specs.SlotNatives.{ask_collection, slot_native, slot_native_resumed, takes};

use crate::collections::{collection_class, is_of_class};
use crate::next::Next;
use js_desc::ask::Ask;
use js_desc::decision::Decision;
use js_desc::fault::FaultText;
use js_desc::reply::Reply;
use js_operations::looks::marks_seen;
use js_store::foreign::Foreign;
use js_store::frozen::FrozenStore;
use js_store::store::Store;
use js_text::copy::copy_value;
use js_text::native::Native;
use js_text::text::Text;
use js_text::value::Value;
use lava_base::ids::Ref;
use lava_base::list::List;
use lava_base::memory::OutOfMemory;
use std::alloc::Global;

/// Whether the operands behind the class are those that a native names.
fn takes(which: Native, rest: &[Value]) -> bool
    ensures { result ≡ takes which rest.now }
{
    match (which, rest) {
        (Native::MapGet, [_]) => true,
        (Native::MapSet, [_, _]) => true,
        (Native::MapHas, [_]) => true,
        (Native::MapDelete, [_]) => true,
        (Native::MapClear, []) => true,
        (Native::MapNext, [Value::Int(_)]) => true,
        (Native::MapKeyAt, [Value::Int(_)]) => true,
        (Native::MapSize, []) => true,
        _ => false,
    }
}

/// The name of a class, and values behind it.
#[tactic(auto, using(crate::proofs::Values_behind::one_more_behind, crate::proofs::Values_behind::all_behind))]
fn with_class(alloc: Global, class: &Text, rest: &[Value]) -> Result<List<Value>, OutOfMemory>
    ensures { IfOk result (λ args. args ≡ value.Text class.now ∷ rest.now) }
{
    let mut args = List::new(alloc);
    args.push(Value::Text(class.copy()?))?;
    for value in rest {
        args.push(copy_value(value)?)?;
    }
    Ok(args)
}

/// Asks a collection.
fn ask_collection(
    alloc: Global,
    which: Native,
    object: Ref,
    class: &Text,
    rest: &[Value],
) -> Result<Decision<Next>, OutOfMemory>
    ensures { IfOk result (λ d. d ≡ ask_collection which object class.now rest.now) }
{
    if !takes(which, rest) {
        return Ok(Decision::Fault(FaultText::CannotConvert));
    }
    let args = with_class(alloc, class, rest)?;
    Ok(Decision::Ask {
        target: Some(object),
        ask: Ask::Slot { which, args },
        next: Next::Answer,
    })
}

/// What one of the natives 36 to 43 decides: the class mark of its target is looked at, then its other operands, and then the collection is asked, wherever it is from.
pub fn slot_native<S: Store>(
    alloc: Global,
    store: &S,
    common: &FrozenStore,
    foreign: &Foreign,
    which: Native,
    args: &[Value],
) -> Result<Decision<Next>, OutOfMemory>
    ensures { let names = naming_of (S.owner store.now).0 in
        let seen = marks_seen names (S.objects store.now) common.now foreign.now in
        IfOk result (λ d. d ≡ slot_native seen which args.now) }
{
    match args {
        [Value::Ref(object), Value::Text(class), rest @ ..] => {
            let named = collection_class(alloc, class)?;
            let marks = marks_seen(store, common, foreign, *object);
            if !is_of_class(named, marks.class) {
                return Ok(Decision::Fault(FaultText::WrongKind));
            }
            ask_collection(alloc, which, *object, class, rest)
        }
        _ => Ok(Decision::Fault(FaultText::WrongKind)),
    }
}

/// How a native goes on with the answer to its ask. A throw goes on as it is. An answer of another kind than the ask has does not come; it would be the fault `wrong kind`.
pub fn resume_slot_native(reply: Reply) -> Decision<Next>
    ensures { result ≡ slot_native_resumed reply }
{
    match reply {
        Reply::Value(value) => Decision::Done(Reply::Value(value)),
        Reply::Throw(thrown) => Decision::Done(Reply::Throw(thrown)),
        _ => Decision::Fault(FaultText::WrongKind),
    }
}

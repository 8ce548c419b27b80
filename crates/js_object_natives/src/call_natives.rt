// The natives 12 and 13: a function is called, or constructs, with the items of a list.

ghost use Rattle.std.specs.Prelude.{◌≡◌, IfOk};
ghost use Rattle.js_text.specs.Naming.{naming_of};
ghost use Rattle.js_conversions.specs.js_operations.Lists.{list_items};
ghost use Rattle.js_conversions.specs.js_operations.Looks.{marks_seen};
ghost use Rattle.js_object_natives.specs.CallNatives.{apply, apply_to, construct, construct_by, construct_for, construct_with, constructor_of};

use crate::keyed::asked;
use crate::next::Next;
use js_conversions::js_operations::lists::list_items;
use js_conversions::js_operations::looks::marks_seen;
use js_desc::ask::Ask;
use js_desc::decision::Decision;
use js_desc::fault::FaultText;
use js_store::foreign::Foreign;
use js_store::frozen::FrozenStore;
use js_store::store::Store;
use js_text::copy::copy_value;
use js_text::value::Value;
use lava_base::ids::Ref;
use lava_base::list::List;
use lava_base::memory::OutOfMemory;
use std::alloc::Global;

/// Calls a function with items, if there are some.
fn apply_to(
    function: Ref,
    this: &Value,
    items: Option<List<Value>>,
) -> Result<Decision<Next>, OutOfMemory>
    ensures { IfOk result (λ d. d ≡ apply_to function this.now items) }
{
    match items {
        None => Ok(Decision::Fault(FaultText::CannotConvert)),
        Some(args) => {
            let this = copy_value(this)?;
            Ok(asked(function, Ask::Call { this, args }))
        }
    }
}

/// `apply(f, t, list)`: calls `f` with `this` being `t` and the items of an array as arguments (ECMA-262, Reflect.apply).
pub fn apply<S: Store>(
    alloc: Global,
    store: &S,
    common: &FrozenStore,
    foreign: &Foreign,
    args: &[Value],
) -> Result<Decision<Next>, OutOfMemory>
    ensures { let names = naming_of (S.owner store.now).0 in
        let objects = S.objects store.now in
        let seen = marks_seen names objects common.now foreign.now in
        let decision = apply seen (list_items names objects common.now) args.now in
        IfOk result (λ d. d ≡ decision) }
{
    match args {
        [Value::Ref(function), this, list] => {
            if !marks_seen(store, common, foreign, *function).callable {
                return Ok(Decision::Fault(FaultText::NotAFunction));
            }
            let items = list_items(alloc, store, common, list)?;
            apply_to(*function, this, items)
        }
        [_, _, _] => Ok(Decision::Fault(FaultText::NotAFunction)),
        _ => Ok(Decision::Fault(FaultText::WrongKind)),
    }
}

/// A value as a constructor, if it is one (ECMA-262, IsConstructor).
fn constructor_of<S: Store>(
    store: &S,
    common: &FrozenStore,
    foreign: &Foreign,
    value: &Value,
) -> Option<Ref>
    ensures { let names = naming_of (S.owner store.now).0 in
        let seen = marks_seen names (S.objects store.now) common.now foreign.now in
        result ≡ constructor_of seen value.now }
{
    match value {
        Value::Ref(function) => {
            if marks_seen(store, common, foreign, *function).constructor {
                Some(*function)
            } else {
                None
            }
        }
        _ => None,
    }
}

/// Constructs for a new target, if that is a constructor.
fn construct_for(function: Ref, args: List<Value>, target: Option<Ref>) -> Decision<Next>
    ensures { result ≡ construct_for function args target }
{
    match target {
        None => Decision::Fault(FaultText::NotAConstructor),
        Some(new_target) => asked(function, Ask::Construct { new_target, args }),
    }
}

/// Constructs with items, if there are some.
fn construct_with(function: Ref, items: Option<List<Value>>, target: Option<Ref>) -> Decision<Next>
    ensures { result ≡ construct_with function items target }
{
    match items {
        None => Decision::Fault(FaultText::CannotConvert),
        Some(items) => construct_for(function, items, target),
    }
}

/// Constructs by a function, if that is a constructor.
fn construct_by(
    function: Option<Ref>,
    items: Option<List<Value>>,
    target: Option<Ref>,
) -> Decision<Next>
    ensures { result ≡ construct_by function items target }
{
    match function {
        None => Decision::Fault(FaultText::NotAConstructor),
        Some(function) => construct_with(function, items, target),
    }
}

/// `construct(f, list, n)`: constructs by `f` with the items of an array as arguments and the new target `n` (ECMA-262, Reflect.construct).
pub fn construct<S: Store>(
    alloc: Global,
    store: &S,
    common: &FrozenStore,
    foreign: &Foreign,
    args: &[Value],
) -> Result<Decision<Next>, OutOfMemory>
    ensures { let names = naming_of (S.owner store.now).0 in
        let objects = S.objects store.now in
        let seen = marks_seen names objects common.now foreign.now in
        let decision = construct seen (list_items names objects common.now) args.now in
        IfOk result (λ d. d ≡ decision) }
{
    match args {
        [function, list, target] => {
            let function = constructor_of(store, common, foreign, function);
            let items = list_items(alloc, store, common, list)?;
            let target = constructor_of(store, common, foreign, target);
            Ok(construct_by(function, items, target))
        }
        _ => Ok(Decision::Fault(FaultText::WrongKind)),
    }
}

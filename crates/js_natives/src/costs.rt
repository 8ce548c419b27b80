// What a native costs.

ghost use Rattle.std.specs.Prelude.{◌≡◌, ◌≤◌, ◌*◌, ◌∷◌, [], IfOk};
ghost use Rattle.js_text.specs.Naming.{naming_of};
ghost use Rattle.js_native.specs.Costs.{native_cost};
ghost use Rattle.js_run_laws.specs.js_operations.Lists.{list_items};
ghost use Rattle.js_run_laws.specs.js_run.NativeTurns.{listed_units, units_of_items, units_of_lists};

use js_native::costs::{native_cost, units_of_values};
use js_run_laws::js_operations::lists::list_items;
use js_store::frozen::FrozenStore;
use js_store::store::Store;
use js_text::native::Native;
use js_text::value::Value;
use lava_base::memory::OutOfMemory;
use std::alloc::Global;

/// How many units the texts have in an array that a native reads. Want of memory is answered too where it has more than 4,294,967,295 items.
fn units_of_items<S: Store>(
    alloc: Global,
    store: &S,
    common: &FrozenStore,
    list: &Value,
) -> Result<u64, OutOfMemory>
    ensures units { let me = naming_of (S.owner store.now).0 in
        let items = list_items me (S.objects store.now) common.now list.now in
        IfOk result (λ n. n ≡ units_of_items items) }
    ensures short { IfOk result (λ n. n ≤ 1048576 * 4294967296) }
{
    let Some(items) = list_items(alloc, store, common, list)? else {
        return Ok(0);
    };
    if items.len() > u32::MAX as usize {
        return Err(OutOfMemory);
    }
    Ok(units_of_values(items.as_slice()))
}

/// How many units the texts have in four arrays.
fn units_of_four<S: Store>(
    alloc: Global,
    store: &S,
    common: &FrozenStore,
    names: &Value,
    values: &Value,
    paths: &Value,
    modules: &Value,
) -> Result<u64, OutOfMemory>
    ensures units { let me = naming_of (S.owner store.now).0 in
        let items = list_items me (S.objects store.now) common.now in
        let lists = names.now ∷ values.now ∷ paths.now ∷ modules.now ∷ [] in
        IfOk result (λ n. n ≡ units_of_lists items lists) }
    ensures short { IfOk result (λ n. n ≤ 1048576 * 17179869184) }
{
    let globals = units_of_items(alloc, store, common, names)?;
    let given = units_of_items(alloc, store, common, values)?;
    let requests = units_of_items(alloc, store, common, paths)?;
    let mapped = units_of_items(alloc, store, common, modules)?;
    Ok(globals + (given + (requests + mapped)))
}

/// How many units the texts have in the arrays that `makeCompartment` reads. Want of memory is answered too where these are not four.
fn units_of_lists<S: Store>(
    alloc: Global,
    store: &S,
    common: &FrozenStore,
    lists: &[Value],
) -> Result<u64, OutOfMemory>
    ensures units { let me = naming_of (S.owner store.now).0 in
        let items = list_items me (S.objects store.now) common.now in
        IfOk result (λ n. n ≡ units_of_lists items lists.now) }
    ensures short { IfOk result (λ n. n ≤ 1048576 * 17179869184) }
{
    match lists {
        [names, values, paths, modules] => {
            units_of_four(alloc, store, common, names, values, paths, modules)
        }
        _ => Err(OutOfMemory),
    }
}

/// How many units the texts have in the arrays that a native reads. Want of memory is answered too for a `makeCompartment` with another number of operands than it has.
fn listed_units<S: Store>(
    alloc: Global,
    store: &S,
    common: &FrozenStore,
    which: Native,
    args: &[Value],
) -> Result<u64, OutOfMemory>
    ensures units { let me = naming_of (S.owner store.now).0 in
        let items = list_items me (S.objects store.now) common.now in
        IfOk result (λ n. n ≡ listed_units items which args.now) }
    ensures short { IfOk result (λ n. n ≤ 1048576 * 17179869184) }
{
    match (which, args) {
        (Native::Apply | Native::Bind, [_, _, list]) => units_of_items(alloc, store, common, list),
        (Native::Construct, [_, list, _]) => units_of_items(alloc, store, common, list),
        (Native::SortTexts, [list]) => units_of_items(alloc, store, common, list),
        (Native::MakeCompartment, [_, lists @ ..]) => units_of_lists(alloc, store, common, lists),
        (Native::MakeCompartment, _) => Err(OutOfMemory),
        _ => Ok(0),
    }
}

/// What a native costs, in steps, before it begins. Want of memory is answered too where there are more than 4,294,967,295 operands, or items of an array that it reads, and for a `makeCompartment` with another number of operands than it has.
pub fn cost<S: Store>(
    alloc: Global,
    store: &S,
    common: &FrozenStore,
    which: Native,
    args: &[Value],
) -> Result<u64, OutOfMemory>
    ensures { let me = naming_of (S.owner store.now).0 in
        let items = list_items me (S.objects store.now) common.now in
        IfOk result (λ n. n ≡ native_cost which args.now (listed_units items which args.now)) }
{
    if args.len() > u32::MAX as usize {
        return Err(OutOfMemory);
    }
    let listed = listed_units(alloc, store, common, which, args)?;
    Ok(native_cost(which, args, listed))
}

// The natives that read the items of an array: `sortTexts`; `fromUnits` is not decided here.

ghost use Rattle.std.specs.Prelude.{◌≡◌, IfOk, false, map, pos};
ghost use Rattle.js_text.specs.Naming.{naming_of};
ghost use Rattle.js_text.specs.declared.value.Value.TheVariants as value_kind;
ghost use Rattle.js_native.specs.TextNatives.{are_texts, is_text, text_of_value};
ghost use Rattle.js_run_laws.specs.js_operations.Lists.{list_items};
ghost use Rattle.js_run_laws.specs.js_run.Sorting.{sorted_places};
ghost use Rattle.js_natives.specs.Items.{calls_items, item_step, places_made, reads_items, sort_native, sorted_items};

use js_desc::decision::Decision;
use js_desc::fault::FaultText;
use js_desc::reply::Reply;
use js_native::sorts::sorted_places;
use js_native_steps::arrays::add_array;
use js_native_steps::next::NativeNext;
use js_run_laws::js_operations::lists::list_items;
use js_run_laws::places_are_sorted;
use js_store::frozen::FrozenStore;
use js_store::store::Store;
use js_text::native::Native;
use js_text::text::{Text, from_units};
use js_text::value::Value;
use lava_base::ids::Ref;
use lava_base::list::List;
use lava_base::memory::OutOfMemory;
use std::alloc::Global;

/// Whether a native reads the items of an array, and works on them: `fromUnits` and `sortTexts`.
pub(crate) fn reads_items(which: Native) -> bool
    ensures { result ≡ reads_items which }
{
    matches!(which, Native::FromUnits | Native::SortTexts)
}

/// Whether a value is a text.
fn is_text(value: &Value) -> bool
    ensures { result ≡ is_text value.now }
{
    match value {
        Value::Text(_) => true,
        _ => false,
    }
}

/// Whether all values are texts.
#[tactic(auto, using(crate::proofs::Item_lists::texts_step, crate::proofs::Item_lists::texts_end))]
fn are_texts(values: &[Value]) -> bool
    ensures { result ≡ are_texts values.now }
{
    for value in values {
        if !is_text(value) {
            return false;
        }
    }
    true
}

/// The text that a value is, and the empty one where it is none.
fn text_of_value(alloc: Global, value: &Value) -> Result<Text, OutOfMemory>
    ensures { IfOk result (λ text. text ≡ text_of_value value.now) }
{
    match value {
        Value::Text(text) => text.copy(),
        _ => match from_units(alloc, &[]) {
            Ok(text) => Ok(text),
            Err(_) => Err(OutOfMemory),
        },
    }
}

/// The texts that values are.
fn texts_of(alloc: Global, values: &[Value]) -> Result<List<Text>, OutOfMemory>
    ensures { IfOk result (λ texts. texts ≡ map text_of_value values.now) }
{
    let mut texts = List::new(alloc);
    for value in values {
        texts.push(text_of_value(alloc, value)?)?;
    }
    Ok(texts)
}

/// Places as values.
fn place_values(alloc: Global, places: &[u32]) -> Result<List<Value>, OutOfMemory>
    ensures { IfOk result (λ values. values ≡ map (λ n. value_kind.Int (pos n)) places.now) }
{
    let mut values = List::new(alloc);
    for place in places {
        values.push(Value::Int(i64::from(*place)))?;
    }
    Ok(values)
}

/// The places of texts in the order of the texts. Want of memory is answered too past 4,294,967,295 texts.
fn places_of(alloc: Global, values: &[Value]) -> Result<Vec<u32>, OutOfMemory>
    ensures { IfOk result (λ places. places.items ≡ sorted_places (map text_of_value values.now)) }
{
    let texts = texts_of(alloc, values)?;
    if texts.len() > u32::MAX as usize {
        return Err(OutOfMemory);
    }
    places_are_sorted();
    sorted_places(alloc, &texts)
}

/// Makes an array of places, and gives it.
fn places_made<S: Store>(
    alloc: Global,
    store: &mut S,
    places: &[u32],
) -> Result<Decision<NativeNext>, OutOfMemory>
    ensures made { let names = naming_of (S.owner store.old).0 in
        let step = places_made names (S.objects store.old) places.now in
        IfOk result (λ d. (d, S.objects store.new) ≡ step) }
    ensures party { S.owner store.new ≡ S.owner store.old }
{
    let values = place_values(alloc, places)?;
    let id = add_array(alloc, store, &values)?;
    let array = Ref::Own {
        party: store.party(),
        id,
    };
    Ok(Decision::Done(Reply::Value(Value::Ref(array))))
}

/// `sortTexts` with the items of its operand.
fn sorted_items<S: Store>(
    alloc: Global,
    store: &mut S,
    items: Option<List<Value>>,
) -> Result<Decision<NativeNext>, OutOfMemory>
    ensures sorted { let names = naming_of (S.owner store.old).0 in
        let step = sorted_items names (S.objects store.old) items in
        IfOk result (λ d. (d, S.objects store.new) ≡ step) }
    ensures party { S.owner store.new ≡ S.owner store.old }
{
    let Some(items) = items else {
        return Ok(Decision::Fault(FaultText::CannotConvert));
    };
    if !are_texts(items.as_slice()) {
        return Ok(Decision::Fault(FaultText::CannotConvert));
    }
    let places = places_of(alloc, items.as_slice())?;
    places_made(alloc, store, &places)
}

/// `sortTexts` of one operand.
fn sort_list<S: Store>(
    alloc: Global,
    store: &mut S,
    common: &FrozenStore,
    list: &Value,
) -> Result<Decision<NativeNext>, OutOfMemory>
    ensures sorted { let names = naming_of (S.owner store.old).0 in
        let items = list_items names (S.objects store.old) common.now list.now in
        let step = sorted_items names (S.objects store.old) items in
        IfOk result (λ d. (d, S.objects store.new) ≡ step) }
    ensures party { S.owner store.new ≡ S.owner store.old }
{
    let items = list_items(alloc, store, common, list)?;
    sorted_items(alloc, store, items)
}

/// `sortTexts` (ECMA-262, SortIndexedProperties).
fn sort_native<S: Store>(
    alloc: Global,
    store: &mut S,
    common: &FrozenStore,
    args: &[Value],
) -> Result<Decision<NativeNext>, OutOfMemory>
    ensures sorted { let names = naming_of (S.owner store.old).0 in
        let step = sort_native names (S.objects store.old) common.now args.now in
        IfOk result (λ d. (d, S.objects store.new) ≡ step) }
    ensures party { S.owner store.new ≡ S.owner store.old }
{
    match args {
        [list] => sort_list(alloc, store, common, list),
        _ => Ok(Decision::Fault(FaultText::WrongKind)),
    }
}

/// What `sortTexts` decides. Want of memory is answered for `fromUnits`, which is not decided here.
pub(crate) fn item_native<S: Store>(
    alloc: Global,
    store: &mut S,
    common: &FrozenStore,
    which: Native,
    args: &[Value],
) -> Result<Decision<NativeNext>, OutOfMemory>
    ensures ok { let names = naming_of (S.owner store.old).0 in
        let step = item_step names (S.objects store.old) common.now which args.now in
        IfOk result (λ d. (d, S.objects store.new) ≡ step) }
    ensures plain { IfOk result (λ d. calls_items which ≡ false) }
    ensures party { S.owner store.new ≡ S.owner store.old }
{
    match which {
        Native::FromUnits => Err(OutOfMemory),
        Native::SortTexts => sort_native(alloc, store, common, args),
        _ => Ok(Decision::Fault(FaultText::WrongKind)),
    }
}

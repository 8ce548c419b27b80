// Arrays of the running party that are read directly, without an ask.

ghost use Rattle.std.specs.Prelude.{◌≡◌, ◌<◌, length, IfOk, option_map};
ghost use Rattle.lava_base.specs.Ids.{same_made_symbol};
ghost use Rattle.js_text.specs.Naming.{naming_of};
ghost use Rattle.js_store.specs.Objects.{object_at};
ghost use Rattle.js_operations.specs.Lists.{data_value, element_at, first_elements, items_by_class, items_of_array, length_of_value, list_items};

use crate::names::index_key;
use js_desc::descriptor::Descriptor;
use js_ordinary::target::{Target, find_target};
use js_store::frozen::FrozenStore;
use js_store::store::Store;
use js_text::copy::copy_value;
use js_text::length::length_key;
use js_text::value::Value;
use lava_base::ids::ObjId;
use lava_base::list::List;
use lava_base::marks::Class;
use lava_base::memory::OutOfMemory;
use std::alloc::Global;

/// The value of a data property, and undefined in the place of any other.
fn data_value(property: Option<&Descriptor>) -> Result<Value, OutOfMemory>
    ensures { let there = option_map (λ d. d.now) property.entry in
        IfOk result (λ value. value ≡ data_value there) }
{
    match property {
        Some(Descriptor::Data { value, .. }) => copy_value(value),
        _ => Ok(Value::Undefined),
    }
}

/// What stands at a place of an array.
fn element_at<S: Store>(
    alloc: Global,
    store: &S,
    id: ObjId,
    at: usize,
) -> Result<Value, OutOfMemory>
    requires { id.0 < length (S.objects store.now) }
    ensures { let o = object_at (S.objects store.now) id.0 in
        IfOk result (λ value. value ≡ element_at same_made_symbol o at) }
{
    let key = index_key(alloc, at)?;
    data_value(store.own(id, &key))
}

/// The first elements of an array, so many.
fn first_elements<S: Store>(
    alloc: Global,
    store: &S,
    id: ObjId,
    count: usize,
) -> Result<List<Value>, OutOfMemory>
    requires { id.0 < length (S.objects store.now) }
    ensures { let o = object_at (S.objects store.now) id.0 in
        IfOk result (λ values. values ≡ first_elements same_made_symbol o count) }
{
    let mut values = List::new(alloc);
    for at in 0..count {
        values.push(element_at(alloc, store, id, at)?)?;
    }
    Ok(values)
}

/// A value as a length.
fn length_of_value(value: &Value) -> Option<usize>
    ensures { result ≡ length_of_value value.now }
{
    match value {
        Value::Int(number) if *number >= 0 => Some(*number as usize),
        _ => None,
    }
}

/// The items of an array.
fn items_of_array<S: Store>(
    alloc: Global,
    store: &S,
    id: ObjId,
) -> Result<Option<List<Value>>, OutOfMemory>
    requires { id.0 < length (S.objects store.now) }
    ensures { let o = object_at (S.objects store.now) id.0 in
        IfOk result (λ items. items ≡ items_of_array same_made_symbol o) }
{
    let key = length_key(alloc)?;
    let length = data_value(store.own(id, &key))?;
    match length_of_value(&length) {
        None => Ok(None),
        Some(count) => Ok(Some(first_elements(alloc, store, id, count)?)),
    }
}

/// The items of an object of a class, which has some where it is an array.
fn items_by_class<S: Store>(
    alloc: Global,
    store: &S,
    id: ObjId,
    class: Class,
) -> Result<Option<List<Value>>, OutOfMemory>
    requires { id.0 < length (S.objects store.now) }
    ensures { let o = object_at (S.objects store.now) id.0 in
        IfOk result (λ items. items ≡ items_by_class same_made_symbol o class) }
{
    match class {
        Class::Array => items_of_array(alloc, store, id),
        _ => Ok(None),
    }
}

/// The items of a list that a native is given: an array of the store's party. None comes exactly where it is none.
pub fn list_items<S: Store>(
    alloc: Global,
    store: &S,
    common: &FrozenStore,
    value: &Value,
) -> Result<Option<List<Value>>, OutOfMemory>
    ensures { let names = naming_of (S.owner store.now).0 in
        let items = list_items names (S.objects store.now) common.now value.now in
        IfOk result (λ i. i ≡ items) }
{
    let Value::Ref(list) = value else {
        return Ok(None);
    };
    match find_target(store, common, *list) {
        Some(Target::Own(id)) => items_by_class(alloc, store, id, store.marks(id).class),
        _ => Ok(None),
    }
}

// The objects that are made for traps and natives: the description of a property, and an array of values.

ghost use Rattle.std.specs.Prelude.{◌≡◌, ◌<◌, ◌^◌, ◌++◌, ◌∷◌, [], codes, length, slice_get, take, IfOk, OnOk, OnErr, Some, option_map};
ghost use Rattle.lava_base.specs.Ids.{same_made_symbol};
ghost use Rattle.js_text.specs.CommonPaths.{common_paths};
ghost use Rattle.js_text.specs.declared.value.Value.TheVariants as value;
ghost use Rattle.js_store.specs.Frozen.{common_ref};
ghost use Rattle.js_store.specs.Objects.{at_place};
ghost use Rattle.js_operations.specs.MadeObjects.{StandFirst, array_of, description_object, function_value, with_accessor_fields, with_data, with_data_fields, with_elements, with_fields, with_given, with_length, with_other_fields, with_shared_fields, with_values};

use crate::names::name_key;
use js_desc::descriptor::{Change, Descriptor, PartialDescriptor};
use js_store::slot::Slot;
use js_store::store::{PLAIN_MARKS, Store};
use js_text::copy::copy_value;
use js_text::value::{Key, Value};
use lava_base::ids::{CommonId, ObjId, Ref};
use lava_base::list::List;
use lava_base::marks::{Class, Marks};
use lava_base::memory::OutOfMemory;
use std::alloc::Global;

/// The place of `Object.prototype` in the common part.
pub const OBJECT_PROTOTYPE: u32 = 87;

/// The place of `Array.prototype` in the common part.
pub const ARRAY_PROTOTYPE: u32 = 4;

/// The marks of an array.
const ARRAY_MARKS: Marks = Marks {
    class: Class::Array,
    callable: false,
    constructor: false,
};

/// These are the places of their paths.
#[tactic(auto, unfolding(js_text::specs::CommonPaths::common_paths))]
pub fn prototypes_have_their_places()
    ensures object { slice_get common_paths OBJECT_PROTOTYPE ≡ Some (codes "Object.prototype") }
    ensures array { slice_get common_paths ARRAY_PROTOTYPE ≡ Some (codes "Array.prototype") }
{}

/// Gives an object one more property, which is data with all attributes true.
fn put_data<S: Store>(store: &mut S, id: ObjId, key: Key, value: Value) -> Result<(), OutOfMemory>
    requires { id.0 < length (S.objects store.old) }
    ensures ok { let after = with_data same_made_symbol key value in
        OnOk result (S.objects store.new ≡ at_place (S.objects store.old) id.0 after) }
    ensures err { OnErr result (S.objects store.new ≡ S.objects store.old) }
    ensures party { S.owner store.new ≡ S.owner store.old }
{
    let property = Descriptor::Data {
        value,
        writable: true,
        enumerable: true,
        configurable: true,
    };
    store.apply(id, key, Change::Write(property))
}

/// Gives an object a property for a field that is given.
fn put_given<S: Store>(
    alloc: Global,
    store: &mut S,
    id: ObjId,
    name: &str,
    value: Option<Value>,
) -> Result<(), OutOfMemory>
    requires { id.0 < length (S.objects store.old) }
    ensures ok { let after = with_given same_made_symbol name.now value in
        OnOk result (S.objects store.new ≡ at_place (S.objects store.old) id.0 after) }
    ensures err { OnErr result (S.objects store.new ≡ S.objects store.old) }
    ensures party { S.owner store.new ≡ S.owner store.old }
{
    match value {
        None => Ok(()),
        Some(value) => {
            let key = name_key(alloc, name)?;
            put_data(store, id, key, value)
        }
    }
}

/// Gives an object the properties for the fields of data.
#[tactic(auto, using(crate::proofs::Made_laws::at_twice, crate::proofs::Made_laws::within_after, crate::proofs::Made_laws::before_after))]
fn put_data_fields<S: Store>(
    alloc: Global,
    store: &mut S,
    id: ObjId,
    value: Option<Value>,
    writable: Option<bool>,
) -> Result<(), OutOfMemory>
    requires { id.0 < length (S.objects store.old) }
    ensures ok { let after = with_data_fields same_made_symbol value writable in
        OnOk result (S.objects store.new ≡ at_place (S.objects store.old) id.0 after) }
    ensures err { let first = take id.0 (S.objects store.old) in
        OnErr result (take id.0 (S.objects store.new) ≡ first) }
    ensures party { S.owner store.new ≡ S.owner store.old }
{
    put_given(alloc, store, id, "value", value)?;
    put_given(alloc, store, id, "writable", truth_value(writable))
}

/// A truth value that may be given, as a value.
fn truth_value(field: Option<bool>) -> Option<Value>
    ensures { result ≡ option_map value.Bool field }
{
    match field {
        None => None,
        Some(truth) => Some(Value::Bool(truth)),
    }
}

/// A function that may be given, as a value.
fn function_field(field: Option<Option<Ref>>) -> Option<Value>
    ensures { result ≡ option_map function_value field }
{
    match field {
        None => None,
        Some(None) => Some(Value::Undefined),
        Some(Some(function)) => Some(Value::Ref(function)),
    }
}

/// Gives an object the properties for the fields of an accessor.
#[tactic(auto, using(crate::proofs::Made_laws::at_twice, crate::proofs::Made_laws::within_after, crate::proofs::Made_laws::before_after))]
fn put_accessor_fields<S: Store>(
    alloc: Global,
    store: &mut S,
    id: ObjId,
    get: Option<Option<Ref>>,
    set: Option<Option<Ref>>,
) -> Result<(), OutOfMemory>
    requires { id.0 < length (S.objects store.old) }
    ensures ok { let after = with_accessor_fields same_made_symbol get set in
        OnOk result (S.objects store.new ≡ at_place (S.objects store.old) id.0 after) }
    ensures err { let first = take id.0 (S.objects store.old) in
        OnErr result (take id.0 (S.objects store.new) ≡ first) }
    ensures party { S.owner store.new ≡ S.owner store.old }
{
    put_given(alloc, store, id, "get", function_field(get))?;
    put_given(alloc, store, id, "set", function_field(set))
}

/// Gives an object the properties for the fields of both kinds of property.
#[tactic(auto, using(crate::proofs::Made_laws::at_twice, crate::proofs::Made_laws::within_after, crate::proofs::Made_laws::before_after))]
fn put_shared_fields<S: Store>(
    alloc: Global,
    store: &mut S,
    id: ObjId,
    enumerable: Option<bool>,
    configurable: Option<bool>,
) -> Result<(), OutOfMemory>
    requires { id.0 < length (S.objects store.old) }
    ensures ok { let after = with_shared_fields same_made_symbol enumerable configurable in
        OnOk result (S.objects store.new ≡ at_place (S.objects store.old) id.0 after) }
    ensures err { let first = take id.0 (S.objects store.old) in
        OnErr result (take id.0 (S.objects store.new) ≡ first) }
    ensures party { S.owner store.new ≡ S.owner store.old }
{
    put_given(alloc, store, id, "enumerable", truth_value(enumerable))?;
    put_given(alloc, store, id, "configurable", truth_value(configurable))
}

/// The value that may be given, once more.
fn copy_given(value: &Option<Value>) -> Result<Option<Value>, OutOfMemory>
    ensures { IfOk result (λ copy. copy ≡ value.now) }
{
    match value {
        None => Ok(None),
        Some(value) => Ok(Some(copy_value(value)?)),
    }
}

/// Gives an object the properties that describe a property.
#[tactic(auto, using(crate::proofs::Made_laws::at_twice, crate::proofs::Made_laws::within_after, crate::proofs::Made_laws::before_after))]
fn put_fields<S: Store>(
    alloc: Global,
    store: &mut S,
    id: ObjId,
    fields: &PartialDescriptor,
) -> Result<(), OutOfMemory>
    requires { id.0 < length (S.objects store.old) }
    ensures ok { let after = with_fields same_made_symbol fields.now in
        OnOk result (S.objects store.new ≡ at_place (S.objects store.old) id.0 after) }
    ensures err { let first = take id.0 (S.objects store.old) in
        OnErr result (take id.0 (S.objects store.new) ≡ first) }
    ensures party { S.owner store.new ≡ S.owner store.old }
{
    let value = copy_given(&fields.value)?;
    put_data_fields(alloc, store, id, value, fields.writable)?;
    put_other_fields(alloc, store, id, fields)
}

/// Gives an object the properties for the fields behind those of data.
#[tactic(auto, using(crate::proofs::Made_laws::at_twice, crate::proofs::Made_laws::within_after, crate::proofs::Made_laws::before_after))]
fn put_other_fields<S: Store>(
    alloc: Global,
    store: &mut S,
    id: ObjId,
    fields: &PartialDescriptor,
) -> Result<(), OutOfMemory>
    requires { id.0 < length (S.objects store.old) }
    ensures ok { let after = with_other_fields same_made_symbol fields.now in
        OnOk result (S.objects store.new ≡ at_place (S.objects store.old) id.0 after) }
    ensures err { let first = take id.0 (S.objects store.old) in
        OnErr result (take id.0 (S.objects store.new) ≡ first) }
    ensures party { S.owner store.new ≡ S.owner store.old }
{
    put_accessor_fields(alloc, store, id, fields.get, fields.set)?;
    put_shared_fields(alloc, store, id, fields.enumerable, fields.configurable)
}

/// Makes an object that describes a property (ECMA-262, FromPropertyDescriptor). After want of memory the objects that there were are as before.
#[tactic(auto, using(crate::proofs::Made_laws::at_end, crate::proofs::Made_laws::first_of_more))]
pub fn make_description<S: Store>(
    alloc: Global,
    store: &mut S,
    fields: &PartialDescriptor,
) -> Result<ObjId, OutOfMemory>
    ensures id { IfOk result (λ id. id.0 ≡ length (S.objects store.old)) }
    ensures ok { let made = description_object same_made_symbol common_ref fields.now in
        OnOk result (S.objects store.new ≡ S.objects store.old ++ made ∷ []) }
    ensures err { OnErr result (StandFirst (S.objects store.old) (S.objects store.new)) }
    ensures party { S.owner store.new ≡ S.owner store.old }
{
    let proto = Ref::Common(CommonId(OBJECT_PROTOTYPE));
    let id = store.make(Some(proto), PLAIN_MARKS, Slot::Plain)?;
    put_fields(alloc, store, id, fields)?;
    Ok(id)
}

/// Gives an array the length of its values.
fn put_length<S: Store>(
    alloc: Global,
    store: &mut S,
    id: ObjId,
    values: &List<Value>,
) -> Result<(), OutOfMemory>
    requires within { id.0 < length (S.objects store.old) }
    requires few { length values.now < 2 ^ 32 }
    ensures ok { let after = with_length same_made_symbol (length values.now) in
        OnOk result (S.objects store.new ≡ at_place (S.objects store.old) id.0 after) }
    ensures err { OnErr result (S.objects store.new ≡ S.objects store.old) }
    ensures party { S.owner store.new ≡ S.owner store.old }
{
    let key = name_key(alloc, "length")?;
    let property = Descriptor::Data {
        value: Value::Int(values.len() as i64),
        writable: true,
        enumerable: false,
        configurable: false,
    };
    store.apply(id, key, Change::Write(property))
}

/// Gives an array its elements.
#[tactic(auto, using(crate::proofs::Made_laws::at_twice, crate::proofs::Made_laws::within_after, crate::proofs::Made_laws::before_after, crate::proofs::Made_laws::at_unchanged, crate::proofs::Made_laws::element_put, crate::proofs::Made_laws::elements_all))]
fn put_elements<S: Store>(store: &mut S, id: ObjId, values: &List<Value>) -> Result<(), OutOfMemory>
    requires within { id.0 < length (S.objects store.old) }
    requires few { length values.now < 2 ^ 32 }
    ensures ok { let after = with_elements same_made_symbol 0 values.now in
        OnOk result (S.objects store.new ≡ at_place (S.objects store.old) id.0 after) }
    ensures err { let first = take id.0 (S.objects store.old) in
        OnErr result (take id.0 (S.objects store.new) ≡ first) }
    ensures party { S.owner store.new ≡ S.owner store.old }
{
    for at in 0..values.len() {
        let value = copy_value(values.item(at))?;
        put_data(store, id, Key::Index(at as u32), value)?;
    }
    Ok(())
}

/// Gives an array its length and its elements.
#[tactic(auto, using(crate::proofs::Made_laws::at_twice, crate::proofs::Made_laws::within_after, crate::proofs::Made_laws::before_after))]
fn put_values<S: Store>(
    alloc: Global,
    store: &mut S,
    id: ObjId,
    values: &List<Value>,
) -> Result<(), OutOfMemory>
    requires within { id.0 < length (S.objects store.old) }
    requires few { length values.now < 2 ^ 32 }
    ensures ok { let after = with_values same_made_symbol values.now in
        OnOk result (S.objects store.new ≡ at_place (S.objects store.old) id.0 after) }
    ensures err { let first = take id.0 (S.objects store.old) in
        OnErr result (take id.0 (S.objects store.new) ≡ first) }
    ensures party { S.owner store.new ≡ S.owner store.old }
{
    put_length(alloc, store, id, values)?;
    put_elements(store, id, values)
}

/// Makes an array of values (ECMA-262, CreateArrayFromList). Want of memory is answered too where there are 4,294,967,295 values or more. After it the objects that there were are as before.
#[tactic(auto, using(crate::proofs::Made_laws::at_end, crate::proofs::Made_laws::first_of_more))]
pub fn make_array<S: Store>(
    alloc: Global,
    store: &mut S,
    values: &List<Value>,
) -> Result<ObjId, OutOfMemory>
    ensures id { IfOk result (λ id. id.0 ≡ length (S.objects store.old)) }
    ensures ok { let made = array_of same_made_symbol common_ref values.now in
        OnOk result (S.objects store.new ≡ S.objects store.old ++ made ∷ []) }
    ensures err { OnErr result (StandFirst (S.objects store.old) (S.objects store.new)) }
    ensures party { S.owner store.new ≡ S.owner store.old }
{
    if values.len() >= u32::MAX as usize {
        return Err(OutOfMemory);
    }
    let proto = Ref::Common(CommonId(ARRAY_PROTOTYPE));
    let id = store.make(Some(proto), ARRAY_MARKS, Slot::Plain)?;
    put_values(alloc, store, id, values)?;
    Ok(id)
}

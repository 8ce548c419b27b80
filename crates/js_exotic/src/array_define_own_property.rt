// How a property of an array is defined.

ghost use Rattle.std.specs.Prelude.{◌≡◌, ◌<◌, length, IfOk, OnOk, OnErr};
ghost use Rattle.js_text.specs.Length.{is_length};
ghost use Rattle.js_text.specs.Naming.{naming_of};
ghost use Rattle.js_store.specs.Objects.{at_place};
ghost use Rattle.js_ordinary.specs.Targets.{IsSeen, object_seen};
ghost use Rattle.js_exotic.specs.ArrayDefineOwnProperty.{array_define_own_property, define_element_by, define_named, define_own_property, element_appended, element_written, is_array, ordinary_verdict};
ghost use Rattle.js_exotic.specs.Targets.{IsWithin, changed_at, verdict_at};

use crate::array_length::{ArrayLength, array_length, length_property};
use crate::array_set_length::array_set_length;
use crate::next::{Next, as_exotic};
use js_desc::decision::Decision;
use js_desc::descriptor::{Change, PartialDescriptor};
use js_desc::reply::Reply;
use js_desc::validate::validate_apply;
use js_ordinary::ordinary_define_own_property::ordinary_define_own_property;
use js_ordinary::target::{Target, extensible, marks, own_property};
use js_store::frozen::FrozenStore;
use js_store::store::Store;
use js_text::copy::copy_key;
use js_text::length::is_length;
use js_text::value::Key;
use lava_base::ids::{ObjId, Ref};
use lava_base::marks::Class;
use lava_base::memory::OutOfMemory;

/// Defines a property, of an array in its own way (ECMA-262, "Array Exotic Objects", [[DefineOwnProperty]]).
pub(crate) fn define_own_property<S: Store>(
    store: &mut S,
    common: &FrozenStore,
    me: Ref,
    target: Target,
    key: &Key,
    descriptor: &PartialDescriptor,
) -> Result<Decision<Next>, OutOfMemory>
    requires { IsSeen (S.objects store.old) common.now target }
    ensures ok { let names = naming_of (S.owner store.old).0 in
        let o = object_seen (S.objects store.old) common.now target in
        let verdict = define_own_property names me o key.now descriptor.now in
        let decision = verdict_at (S.objects store.old) target verdict in
        IfOk result (λ d. (d, S.objects store.new) ≡ decision) }
    ensures err { OnErr result (S.objects store.new ≡ S.objects store.old) }
    ensures party { S.owner store.new ≡ S.owner store.old }
{
    if is_array(marks(store, common, target).class) {
        array_define_own_property(store, common, me, target, key, descriptor)
    } else {
        define_as_ordinary(store, common, target, key, descriptor)
    }
}

/// Whether an object of this class is an array.
fn is_array(class: Class) -> bool
    ensures { result ≡ is_array class }
{
    match class {
        Class::Array => true,
        _ => false,
    }
}

/// Defines a property of an array: an element, the length, or another one.
fn array_define_own_property<S: Store>(
    store: &mut S,
    common: &FrozenStore,
    me: Ref,
    target: Target,
    key: &Key,
    descriptor: &PartialDescriptor,
) -> Result<Decision<Next>, OutOfMemory>
    requires { IsSeen (S.objects store.old) common.now target }
    ensures ok { let names = naming_of (S.owner store.old).0 in
        let o = object_seen (S.objects store.old) common.now target in
        let verdict = array_define_own_property names me o key.now descriptor.now in
        let decision = verdict_at (S.objects store.old) target verdict in
        IfOk result (λ d. (d, S.objects store.new) ≡ decision) }
    ensures err { OnErr result (S.objects store.new ≡ S.objects store.old) }
    ensures party { S.owner store.new ≡ S.owner store.old }
{
    match key {
        Key::Index(index) => {
            let current = array_length(store, common, target);
            define_element(store, common, target, *index, descriptor, current)
        }
        Key::Text(_) | Key::Symbol(_) => {
            define_named(store, common, me, target, key, descriptor)
        }
    }
}

/// Defines a property that is no element: the length, or another one.
fn define_named<S: Store>(
    store: &mut S,
    common: &FrozenStore,
    me: Ref,
    target: Target,
    key: &Key,
    descriptor: &PartialDescriptor,
) -> Result<Decision<Next>, OutOfMemory>
    requires { IsSeen (S.objects store.old) common.now target }
    ensures ok { let names = naming_of (S.owner store.old).0 in
        let o = object_seen (S.objects store.old) common.now target in
        let verdict = define_named names me o key.now descriptor.now (is_length key.now) in
        let decision = verdict_at (S.objects store.old) target verdict in
        IfOk result (λ d. (d, S.objects store.new) ≡ decision) }
    ensures err { OnErr result (S.objects store.new ≡ S.objects store.old) }
    ensures party { S.owner store.new ≡ S.owner store.old }
{
    if is_length(key) {
        array_set_length(store, common, me, target, descriptor)
    } else {
        define_as_ordinary(store, common, target, key, descriptor)
    }
}

/// Defines a property as of an ordinary object.
pub(crate) fn define_as_ordinary<S: Store>(
    store: &mut S,
    common: &FrozenStore,
    target: Target,
    key: &Key,
    descriptor: &PartialDescriptor,
) -> Result<Decision<Next>, OutOfMemory>
    requires { IsSeen (S.objects store.old) common.now target }
    ensures ok { let names = naming_of (S.owner store.old).0 in
        let o = object_seen (S.objects store.old) common.now target in
        let verdict = ordinary_verdict names o key.now descriptor.now in
        let decision = verdict_at (S.objects store.old) target verdict in
        IfOk result (λ d. (d, S.objects store.new) ≡ decision) }
    ensures err { OnErr result (S.objects store.new ≡ S.objects store.old) }
    ensures party { S.owner store.new ≡ S.owner store.old }
{
    let decision = ordinary_define_own_property(store, common, target, key, descriptor)?;
    Ok(as_exotic(decision))
}

/// Defines an element; a new one at or past the length raises it, if it is writable, and is refused if not.
fn define_element<S: Store>(
    store: &mut S,
    common: &FrozenStore,
    target: Target,
    index: u32,
    descriptor: &PartialDescriptor,
    current: Option<ArrayLength>,
) -> Result<Decision<Next>, OutOfMemory>
    requires { IsSeen (S.objects store.old) common.now target }
    ensures ok { let names = naming_of (S.owner store.old).0 in
        let o = object_seen (S.objects store.old) common.now target in
        let verdict = define_element_by names o index descriptor.now current in
        let decision = verdict_at (S.objects store.old) target verdict in
        IfOk result (λ d. (d, S.objects store.new) ≡ decision) }
    ensures err { OnErr result (S.objects store.new ≡ S.objects store.old) }
    ensures party { S.owner store.new ≡ S.owner store.old }
{
    let key = Key::Index(index);
    let Some(current) = current else {
        return define_as_ordinary(store, common, target, &key, descriptor);
    };
    if index >= current.count && !current.writable {
        return Ok(Decision::Done(Reply::Flag(false)));
    }
    let extensible = extensible(store, common, target);
    match validate_apply(
        own_property(store, common, target, &key),
        extensible,
        descriptor,
    )? {
        None => Ok(Decision::Done(Reply::Flag(false))),
        Some(change) => {
            write_element(store, target, index, change, current)?;
            Ok(Decision::Done(Reply::Flag(true)))
        }
    }
}

/// Writes an element as a change says, and raises the length where it is at or past it.
fn write_element<S: Store>(
    store: &mut S,
    target: Target,
    index: u32,
    change: Change,
    current: ArrayLength,
) -> Result<(), OutOfMemory>
    requires { IsWithin (S.objects store.old) target }
    ensures ok { let names = naming_of (S.owner store.old).0 in
        let after = element_written names index change current in
        OnOk result (S.objects store.new ≡ changed_at (S.objects store.old) target after) }
    ensures err { OnErr result (S.objects store.new ≡ S.objects store.old) }
    ensures party { S.owner store.new ≡ S.owner store.old }
{
    match target {
        Target::Own(id) => {
            if index < current.count {
                store.apply(id, Key::Index(index), change)
            } else {
                append_element(store, id, index, change, current)
            }
        }
        Target::Common(_) => Ok(()),
    }
}

/// Writes an element and raises the length.
fn append_element<S: Store>(
    store: &mut S,
    id: ObjId,
    index: u32,
    change: Change,
    current: ArrayLength,
) -> Result<(), OutOfMemory>
    requires { id.0 < length (S.objects store.old) }
    ensures ok { let names = naming_of (S.owner store.old).0 in
        let after = element_appended names index change current in
        OnOk result (S.objects store.new ≡ at_place (S.objects store.old) id.0 after) }
    ensures err { OnErr result (S.objects store.new ≡ S.objects store.old) }
    ensures party { S.owner store.new ≡ S.owner store.old }
{
    let key = copy_key(store.length_key())?;
    store.apply(id, Key::Index(index), change)?;
    store.replace(id, key, length_property(current, index as u64 + 1));
    Ok(())
}

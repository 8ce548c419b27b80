// How the `length` of an array is set.

ghost use Rattle.std.specs.Prelude.{◌≡◌, ◌<◌, ◌≤◌, false, length, IfOk, OnErr};
ghost use Rattle.js_text.specs.Length.{length_key};
ghost use Rattle.js_text.specs.Naming.{Own, naming_of};
ghost use Rattle.js_desc.specs.declared.decision.Decision.TheVariants.{Number};
ghost use Rattle.js_store.specs.Objects.{object_at};
ghost use Rattle.js_ordinary.specs.Targets.{IsSeen, object_seen};
ghost use Rattle.js_exotic.specs.ArrayLengths.{array_length};
ghost use Rattle.js_exotic.specs.ArrayDefineOwnProperty.{array_set_length, array_set_length_to, change_at, changed_length, cut_down, final_length, lower_by, lower_length, lower_open, open_length, ordinary_verdict, set_length_by, stays_writable, with_number};
ghost use Rattle.js_exotic.specs.Targets.{IsOfCommonPart, verdict_at};
ghost use Rattle.js_exotic.specs.Verdicts.{exotic_carried_out};
ghost use Rattle.js_exotic.specs.declared.next.Next.TheVariants.{Length};

use crate::array_define_own_property::define_as_ordinary;
use crate::array_length::{
    ArrayLength, LENGTH_LIMIT, array_length, delete_elements, length_in_range, length_property,
};
use crate::next::Next;
use js_desc::copy::copy_partial;
use js_desc::decision::Decision;
use js_desc::descriptor::{Change, Descriptor, PartialDescriptor};
use js_desc::fault::FaultText;
use js_desc::reply::Reply;
use js_desc::validate::validate_apply;
use js_ordinary::target::Target;
use js_store::frozen::FrozenStore;
use js_store::store::Store;
use js_text::copy::{copy_key, copy_value};
use js_text::value::{Key, Value};
use lava_base::ids::{ObjId, Ref};
use lava_base::memory::OutOfMemory;

/// Defines the length of an array (ECMA-262, ArraySetLength). A value that is no number is made one first.
pub(crate) fn array_set_length<S: Store>(
    store: &mut S,
    common: &FrozenStore,
    me: Ref,
    target: Target,
    descriptor: &PartialDescriptor,
) -> Result<Decision<Next>, OutOfMemory>
    requires { IsSeen (S.objects store.old) common.now target }
    ensures ok { let names = naming_of (S.owner store.old).0 in
        let o = object_seen (S.objects store.old) common.now target in
        let verdict = array_set_length names me o descriptor.now in
        let decision = verdict_at (S.objects store.old) target verdict in
        IfOk result (λ d. (d, S.objects store.new) ≡ decision) }
    ensures err { OnErr result (S.objects store.new ≡ S.objects store.old) }
    ensures party { S.owner store.new ≡ S.owner store.old }
{
    match &descriptor.value {
        None => define_length(store, common, target, descriptor),
        Some(Value::Int(number)) => {
            array_set_length_to(store, common, target, descriptor, *number)
        }
        Some(value) => ask_for_number(me, value, descriptor),
    }
}

/// Has a value made the number that the length is to be.
fn ask_for_number(
    me: Ref,
    value: &Value,
    descriptor: &PartialDescriptor,
) -> Result<Decision<Next>, OutOfMemory>
    ensures { IfOk result (λ d. d ≡ Number value.now (Length me descriptor.now)) }
{
    let value = copy_value(value)?;
    let descriptor = copy_partial(descriptor)?;
    Ok(Decision::Number {
        value,
        next: Next::Length { me, descriptor },
    })
}

/// Sets the length to a number, if it is one of a length (ECMA-262, ArraySetLength, steps 5 to 19).
pub(crate) fn array_set_length_to<S: Store>(
    store: &mut S,
    common: &FrozenStore,
    target: Target,
    descriptor: &PartialDescriptor,
    number: i64,
) -> Result<Decision<Next>, OutOfMemory>
    requires { IsSeen (S.objects store.old) common.now target }
    ensures ok { let names = naming_of (S.owner store.old).0 in
        let o = object_seen (S.objects store.old) common.now target in
        let verdict = array_set_length_to names o descriptor.now number in
        let decision = verdict_at (S.objects store.old) target verdict in
        IfOk result (λ d. (d, S.objects store.new) ≡ decision) }
    ensures err { OnErr result (S.objects store.new ≡ S.objects store.old) }
    ensures party { S.owner store.new ≡ S.owner store.old }
{
    match length_in_range(number) {
        None => Ok(Decision::Fault(FaultText::InvalidLength)),
        Some(count) => set_counted(store, common, target, descriptor, number, count),
    }
}

/// Sets the length to a number that is this length, by the definition with that number.
fn set_counted<S: Store>(
    store: &mut S,
    common: &FrozenStore,
    target: Target,
    descriptor: &PartialDescriptor,
    number: i64,
    count: u32,
) -> Result<Decision<Next>, OutOfMemory>
    requires { IsSeen (S.objects store.old) common.now target }
    ensures ok { let names = naming_of (S.owner store.old).0 in
        let o = object_seen (S.objects store.old) common.now target in
        let d = with_number descriptor.now number in
        let verdict = set_length_by names o d count (array_length names o) in
        let decision = verdict_at (S.objects store.old) target verdict in
        IfOk result (λ d. (d, S.objects store.new) ≡ decision) }
    ensures err { OnErr result (S.objects store.new ≡ S.objects store.old) }
    ensures party { S.owner store.new ≡ S.owner store.old }
{
    let descriptor = with_number(descriptor, number)?;
    set_length(store, common, target, &descriptor, count)
}

/// A definition with this number as its value.
fn with_number(
    descriptor: &PartialDescriptor,
    number: i64,
) -> Result<PartialDescriptor, OutOfMemory>
    ensures { IfOk result (λ d. d ≡ with_number descriptor.now number) }
{
    let PartialDescriptor {
        writable,
        get,
        set,
        enumerable,
        configurable,
        ..
    } = copy_partial(descriptor)?;
    Ok(PartialDescriptor {
        value: Some(Value::Int(number)),
        writable,
        get,
        set,
        enumerable,
        configurable,
    })
}

/// Sets the length by a definition that gives this number: elements go where it is lowered.
fn set_length<S: Store>(
    store: &mut S,
    common: &FrozenStore,
    target: Target,
    descriptor: &PartialDescriptor,
    count: u32,
) -> Result<Decision<Next>, OutOfMemory>
    requires { IsSeen (S.objects store.old) common.now target }
    ensures ok { let names = naming_of (S.owner store.old).0 in
        let o = object_seen (S.objects store.old) common.now target in
        let verdict = set_length_by names o descriptor.now count (array_length names o) in
        let decision = verdict_at (S.objects store.old) target verdict in
        IfOk result (λ d. (d, S.objects store.new) ≡ decision) }
    ensures err { OnErr result (S.objects store.new ≡ S.objects store.old) }
    ensures party { S.owner store.new ≡ S.owner store.old }
{
    match array_length(store, common, target) {
        None => define_length(store, common, target, descriptor),
        Some(current) => {
            if current.count <= count {
                define_length(store, common, target, descriptor)
            } else {
                lower_length(store, common, target, descriptor, count, current)
            }
        }
    }
}

/// Defines the property `length` as of an ordinary object.
fn define_length<S: Store>(
    store: &mut S,
    common: &FrozenStore,
    target: Target,
    descriptor: &PartialDescriptor,
) -> Result<Decision<Next>, OutOfMemory>
    requires { IsSeen (S.objects store.old) common.now target }
    ensures ok { let names = naming_of (S.owner store.old).0 in
        let o = object_seen (S.objects store.old) common.now target in
        let verdict = ordinary_verdict names o length_key descriptor.now in
        let decision = verdict_at (S.objects store.old) target verdict in
        IfOk result (λ d. (d, S.objects store.new) ≡ decision) }
    ensures err { OnErr result (S.objects store.new ≡ S.objects store.old) }
    ensures party { S.owner store.new ≡ S.owner store.old }
{
    let key = ready_key(store, common, target)?;
    define_as_ordinary(store, common, target, &key, descriptor)
}

/// The key `length`.
fn ready_key<S: Store>(store: &S, common: &FrozenStore, target: Target) -> Result<Key, OutOfMemory>
    requires { IsSeen (S.objects store.now) common.now target }
    ensures { IfOk result (λ key. key ≡ length_key) }
{
    match target {
        Target::Own(_) => copy_key(store.length_key()),
        Target::Common(_) => copy_key(common.length_key()),
    }
}

/// Lowers the length, if it is writable. In the common part none is.
fn lower_length<S: Store>(
    store: &mut S,
    _common: &FrozenStore,
    target: Target,
    descriptor: &PartialDescriptor,
    least: u32,
    current: ArrayLength,
) -> Result<Decision<Next>, OutOfMemory>
    requires seen { IsSeen (S.objects store.old) _common.now target }
    requires fixed { IsOfCommonPart target → current.writable ≡ false }
    ensures ok { let names = naming_of (S.owner store.old).0 in
        let o = object_seen (S.objects store.old) _common.now target in
        let verdict = lower_length names o descriptor.now least current in
        let decision = verdict_at (S.objects store.old) target verdict in
        IfOk result (λ d. (d, S.objects store.new) ≡ decision) }
    ensures err { OnErr result (S.objects store.new ≡ S.objects store.old) }
    ensures party { S.owner store.new ≡ S.owner store.old }
{
    match target {
        Target::Own(id) if current.writable => lower(store, id, descriptor, least, current),
        _ => Ok(Decision::Done(Reply::Flag(false))),
    }
}

/// Lowers a length that is writable (ECMA-262, ArraySetLength, steps 13 to 19).
fn lower<S: Store>(
    store: &mut S,
    id: ObjId,
    descriptor: &PartialDescriptor,
    least: u32,
    current: ArrayLength,
) -> Result<Decision<Next>, OutOfMemory>
    requires { id.0 < length (S.objects store.old) }
    ensures ok { let names = naming_of (S.owner store.old).0 in
        let o = object_at (S.objects store.old) id.0 in
        let verdict = lower_open names o descriptor.now least current in
        let decision = exotic_carried_out (S.objects store.old) (Own id.0) verdict in
        IfOk result (λ d. (d, S.objects store.new) ≡ decision) }
    ensures err { OnErr result (S.objects store.new ≡ S.objects store.old) }
    ensures party { S.owner store.new ≡ S.owner store.old }
{
    let key = copy_key(store.length_key())?;
    let open = open_length(descriptor)?;
    let change = change_at(store, id, &key, &open)?;
    Ok(lower_by(store, id, key, descriptor, least, current, change))
}

/// What a definition makes of an own property, or None where it is refused.
fn change_at<S: Store>(
    store: &S,
    id: ObjId,
    key: &Key,
    descriptor: &PartialDescriptor,
) -> Result<Option<Change>, OutOfMemory>
    requires { id.0 < length (S.objects store.now) }
    ensures { let names = naming_of (S.owner store.now).0 in
        let o = object_at (S.objects store.now) id.0 in
        IfOk result (λ change. change ≡ change_at names o key.now descriptor.now) }
{
    let extensible = store.extensible(id);
    validate_apply(store.own(id, key), extensible, descriptor)
}

/// Lowers a length as a definition of it says, which may be refused.
fn lower_by<S: Store>(
    store: &mut S,
    id: ObjId,
    key: Key,
    descriptor: &PartialDescriptor,
    least: u32,
    current: ArrayLength,
    change: Option<Change>,
) -> Decision<Next>
    requires within { id.0 < length (S.objects store.old) }
    requires key { key ≡ length_key }
    ensures decision { let names = naming_of (S.owner store.old).0 in
        let o = object_at (S.objects store.old) id.0 in
        let verdict = lower_by names o descriptor.now least current change in
        let decision = exotic_carried_out (S.objects store.old) (Own id.0) verdict in
        (result, S.objects store.new) ≡ decision }
    ensures party { S.owner store.new ≡ S.owner store.old }
{
    match change {
        None => Decision::Done(Reply::Flag(false)),
        Some(change) => {
            let writable = stays_writable(descriptor.writable);
            let property = changed_length(current, change);
            cut_down(store, id, key, least, writable, property)
        }
    }
}

/// Takes elements out from the highest down, and writes the length that stands. It takes no memory.
fn cut_down<S: Store>(
    store: &mut S,
    id: ObjId,
    key: Key,
    least: u32,
    writable: bool,
    property: Descriptor,
) -> Decision<Next>
    requires within { id.0 < length (S.objects store.old) }
    requires key { key ≡ length_key }
    ensures decision { let names = naming_of (S.owner store.old).0 in
        let o = object_at (S.objects store.old) id.0 in
        let verdict = cut_down names o least writable property in
        let decision = exotic_carried_out (S.objects store.old) (Own id.0) verdict in
        (result, S.objects store.new) ≡ decision }
    ensures party { S.owner store.new ≡ S.owner store.old }
{
    let count = delete_elements(store, id, least);
    store.replace(id, key, final_length(count, writable, property));
    Decision::Done(Reply::Flag(count == least as u64))
}

/// Whether the length may change after a definition with this field.
fn stays_writable(field: Option<bool>) -> bool
    ensures { result ≡ stays_writable field }
{
    field.unwrap_or(true)
}

/// A definition that leaves the length writable until all elements are gone.
fn open_length(descriptor: &PartialDescriptor) -> Result<PartialDescriptor, OutOfMemory>
    ensures { IfOk result (λ d. d ≡ open_length descriptor.now) }
{
    let PartialDescriptor {
        value,
        writable,
        get,
        set,
        enumerable,
        configurable,
    } = copy_partial(descriptor)?;
    let writable = if stays_writable(writable) {
        writable
    } else {
        Some(true)
    };
    Ok(PartialDescriptor {
        value,
        writable,
        get,
        set,
        enumerable,
        configurable,
    })
}

/// The property `length` after the change that a definition makes.
fn changed_length(current: ArrayLength, change: Change) -> Descriptor
    ensures { result ≡ changed_length current change }
{
    match change {
        Change::Nothing => length_property(current, current.count as u64),
        Change::Write(property) => property,
    }
}

/// The property `length` with the length that stands, and perhaps no longer writable.
fn final_length(count: u64, writable: bool, property: Descriptor) -> Descriptor
    requires { count ≤ LENGTH_LIMIT }
    ensures { result ≡ final_length count writable property }
{
    match property {
        Descriptor::Data {
            enumerable,
            configurable,
            ..
        } => Descriptor::Data {
            value: Value::Int(count as i64),
            writable,
            enumerable,
            configurable,
        },
        Descriptor::Accessor {
            get,
            set,
            enumerable,
            configurable,
        } => Descriptor::Accessor {
            get,
            set,
            enumerable,
            configurable,
        },
    }
}

// Properties and items that are defined on objects that were just made.

ghost use Rattle.std.specs.Prelude.{◌≡◌, ◌<◌, IfOk, IfSome, OnOk, length, true, false, is_some, option_map};
ghost use Rattle.js_text.specs.Length.{length_key};
ghost use Rattle.js_text.specs.Naming.{naming_of, Own};
ghost use Rattle.js_text.specs.declared.value.Value.TheVariants as value_kind;
ghost use Rattle.js_desc.specs.declared.descriptor.Descriptor.TheVariants.{Data};
ghost use Rattle.js_machine.specs.Definitions.{definition, items_in, property_says, value_says, with_changed, with_hole, with_item, with_length};

use js_desc::descriptor::{Change, Descriptor, PartialDescriptor};
use js_desc::validate::validate_apply;
use js_machine::machine::Machine;
use js_store::store::Store;
use js_text::value::{Key, Value};
use lava_base::ids::{ObjId, Ref};
use lava_base::memory::OutOfMemory;

/// A number of items; more than a `u32` holds is want of memory.
fn count_said(count: i64) -> Result<u32, OutOfMemory>
    ensures { IfOk result (λ n. n ≡ value_says (value_kind.Int count)) }
{
    if count < 0 {
        return Ok(0);
    }
    if count > u32::MAX as i64 {
        return Err(OutOfMemory);
    }
    Ok(count as u32)
}

/// The number of items that a property `length` says.
fn length_said(property: Option<&Descriptor>) -> Result<u32, OutOfMemory>
    ensures { let there = option_map (λ d. d.now) property.entry in
        IfOk result (λ n. n ≡ property_says there) }
{
    match property {
        Some(
            Descriptor::Data {
                value: Value::Int(count),
                ..
            },
        ) => count_said(*count),
        _ => Ok(0),
    }
}

/// The id of an own object.
pub fn own_id<S: Store>(machine: &Machine<S>, object: Ref) -> Option<ObjId>
    ensures own { IfSome result (λ id. (naming_of machine.now.me).origin object ≡ Own id.0) }
    ensures within { IfSome result (λ id. id.0 < length machine.now.objects) }
{
    match object {
        Ref::Own { party, id } if party.0 == machine.store.party().0 => {
            if id.0 < machine.store.count() {
                return Some(id);
            }
            None
        }
        _ => None,
    }
}

/// What a definition makes of a property of an own object.
fn definition<S: Store>(
    machine: &Machine<S>,
    id: ObjId,
    key: &Key,
    fields: &PartialDescriptor,
) -> Result<Option<Change>, OutOfMemory>
    requires { id.0 < length machine.now.objects }
    ensures { IfOk result (λ c. c ≡ definition machine.now id.0 key.now fields.now) }
{
    let extensible = machine.store.extensible(id);
    validate_apply(machine.store.own(id, key), extensible, fields)
}

/// A property of an own object changes.
fn change_property<S: Store>(
    machine: &mut Machine<S>,
    id: ObjId,
    key: Key,
    change: Change,
) -> Result<(), OutOfMemory>
    requires { id.0 < length machine.old.objects }
    ensures { OnOk result (machine.new ≡ with_changed id.0 key (Some change) machine.old) }
{
    machine.store.apply(id, key, change)?;
    Ok(())
}

/// A property of an own object is defined; whether nothing forbids it (ECMA-262, DefinePropertyOrThrow).
pub fn define_own<S: Store>(
    machine: &mut Machine<S>,
    id: ObjId,
    key: Key,
    fields: &PartialDescriptor,
) -> Result<bool, OutOfMemory>
    requires { id.0 < length machine.old.objects }
    ensures done { IfOk result (λ b. b ≡ is_some (definition machine.old id.0 key fields.now)) }
    ensures made { let change = definition machine.old id.0 key fields.now in
        OnOk result (machine.new ≡ with_changed id.0 key change machine.old) }
{
    match definition(machine, id, &key, fields)? {
        None => Ok(false),
        Some(change) => {
            change_property(machine, id, key, change)?;
            Ok(true)
        }
    }
}

/// How many items an own array has.
fn items<S: Store>(machine: &Machine<S>, id: ObjId) -> Result<u32, OutOfMemory>
    requires { id.0 < length machine.now.objects }
    ensures { IfOk result (λ n. n ≡ items_in machine.now id.0) }
{
    length_said(machine.store.own(id, machine.store.length_key()))
}

/// An own array has another number of items.
fn set_length<S: Store>(machine: &mut Machine<S>, id: ObjId, count: u32) -> Result<(), OutOfMemory>
    requires { id.0 < length machine.old.objects }
    ensures { OnOk result (machine.new ≡ with_length id.0 count machine.old) }
{
    let key = machine.keys.length()?;
    let property = Descriptor::Data {
        value: Value::Int(i64::from(count)),
        writable: true,
        enumerable: false,
        configurable: false,
    };
    change_property(machine, id, key, Change::Write(property))
}

/// An own array has one place more, which is empty (ECMA-262, ArrayAccumulation, of an Elision).
pub fn add_hole<S: Store>(machine: &mut Machine<S>, id: ObjId) -> Result<(), OutOfMemory>
    requires { id.0 < length machine.old.objects }
    ensures { OnOk result (machine.new ≡ with_hole id.0 machine.old) }
{
    let count = items(machine, id)?;
    if count == u32::MAX {
        return Err(OutOfMemory);
    }
    set_length(machine, id, count + 1)
}

/// An own array has one item more (ECMA-262, ArrayAccumulation, of an AssignmentExpression).
pub fn add_item<S: Store>(
    machine: &mut Machine<S>,
    id: ObjId,
    value: Value,
) -> Result<(), OutOfMemory>
    requires { id.0 < length machine.old.objects }
    ensures { OnOk result (machine.new ≡ with_item id.0 value machine.old) }
{
    let count = items(machine, id)?;
    if count == u32::MAX {
        return Err(OutOfMemory);
    }
    let property = Descriptor::Data {
        value,
        writable: true,
        enumerable: true,
        configurable: true,
    };
    change_property(machine, id, Key::Index(count), Change::Write(property))?;
    set_length(machine, id, count + 1)
}

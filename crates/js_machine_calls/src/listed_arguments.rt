// The arguments of an array: its items, which are read directly.

ghost use Rattle.std.specs.Prelude.{◌≡◌, ◌++◌, IfOk, IfSome, OnOk, length, option_map, reverse};
ghost use Rattle.js_text.specs.Naming.{naming_of};
ghost use Rattle.js_ordinary.specs.Origins.{there};
ghost use Rattle.js_ordinary.specs.Targets.{IsSeen, object_seen, origin_of_target};
ghost use Rattle.js_machine.specs.js_run.Functions.{data_or_undefined, items_from, items_of, length_read, own_data};
ghost use Rattle.js_machine.specs.Spreads.{items_in};
ghost use Rattle.js_machine.specs.Ways.{object_in};

use js_desc::descriptor::Descriptor;
use js_machine::decisions::object_of_value;
use js_machine::machine::Machine;
use js_ordinary::target::{Target, find_target, own_property};
use js_store::store::Store;
use js_text::copy::copy_value;
use js_text::value::{Key, Value};
use lava_base::ids::Ref;
use lava_base::memory::OutOfMemory;

/// What a property gives where it is one of data, and undefined where it is none.
fn data_or_undefined(property: Option<&Descriptor>) -> Result<Value, OutOfMemory>
    ensures { let there = option_map (λ d. d.now) property.entry in
        IfOk result (λ value. value ≡ data_or_undefined there) }
{
    match property {
        Some(Descriptor::Data { value, .. }) => copy_value(value),
        _ => Ok(Value::Undefined),
    }
}

/// A value as a length.
fn length_read(value: &Value) -> u64
    ensures { result ≡ length_read value.now }
{
    match value {
        Value::Int(number) if *number >= 0 => *number as u64,
        _ => 0,
    }
}

/// What an own property of an object gives.
fn own_data<S: Store>(machine: &Machine<S>, target: Target, key: &Key) -> Result<Value, OutOfMemory>
    requires { IsSeen machine.now.objects machine.now.common target }
    ensures { let object = object_seen machine.now.objects machine.now.common target in
        let there = own_data (naming_of machine.now.me) object key.now in
        IfOk result (λ value. value ≡ there) }
{
    data_or_undefined(own_property(&machine.store, &machine.common, target, key))
}

/// How many items an object says that it has.
fn item_count<S: Store>(machine: &Machine<S>, target: Target) -> Result<u32, OutOfMemory>
    requires { IsSeen machine.now.objects machine.now.common target }
    ensures { let object = object_seen machine.now.objects machine.now.common target in
        let items = items_of (naming_of machine.now.me) object in
        IfOk result (λ n. items ≡ items_from (naming_of machine.now.me) object 0 n) }
{
    let key = machine.keys.length()?;
    let length = own_data(machine, target, &key)?;
    let count = length_read(&length);
    if count > u64::from(u32::MAX) {
        return Err(OutOfMemory);
    }
    Ok(count as u32)
}

/// So many items of an object come on the stack of values.
fn push_items<S: Store>(
    machine: &mut Machine<S>,
    target: Target,
    count: u32,
) -> Result<(), OutOfMemory>
    requires { IsSeen machine.old.objects machine.old.common target }
    ensures { let object = object_seen machine.old.objects machine.old.common target in
        let items = items_from (naming_of machine.old.me) object 0 count in
        let values = reverse items ++ machine.old.values in
        OnOk result (machine.new ≡ record machine.old { values = values }) }
{
    for at in 0..count {
        let value = own_data(machine, target, &Key::Index(at))?;
        machine.push(value)?;
    }
    Ok(())
}

/// The items of an object come on the stack of values; how many there are.
fn push_all_items<S: Store>(machine: &mut Machine<S>, target: Target) -> Result<u32, OutOfMemory>
    requires { IsSeen machine.old.objects machine.old.common target }
    ensures count { let object = object_seen machine.old.objects machine.old.common target in
        let items = items_of (naming_of machine.old.me) object in
        IfOk result (λ n. n ≡ length items) }
    ensures pushed { let object = object_seen machine.old.objects machine.old.common target in
        let items = items_of (naming_of machine.old.me) object in
        let values = reverse items ++ machine.old.values in
        OnOk result (machine.new ≡ record machine.old { values = values }) }
{
    let count = item_count(machine, target)?;
    push_items(machine, target, count)?;
    Ok(count)
}

/// The object of a reference, if the party can look at it.
fn item_target<S: Store>(machine: &Machine<S>, object: Ref) -> Option<Target>
    ensures found { let origin = (naming_of machine.now.me).origin object in
        option_map origin_of_target result ≡ there machine.now.objects machine.now.common origin }
    ensures seen { IfSome result (λ t. IsSeen machine.now.objects machine.now.common t) }
{
    find_target(&machine.store, &machine.common, object)
}

/// The items of an object come on the stack of values, where the party can look at it.
fn push_items_of<S: Store>(machine: &mut Machine<S>, object: Ref) -> Result<u32, OutOfMemory>
    ensures count { let items = items_of (naming_of machine.old.me) (object_in machine.old object)
        in
        IfOk result (λ n. n ≡ length items) }
    ensures pushed { let items = items_of (naming_of machine.old.me) (object_in machine.old object)
        in
        let values = reverse items ++ machine.old.values in
        OnOk result (machine.new ≡ record machine.old { values = values }) }
{
    match item_target(machine, object) {
        None => Ok(0),
        Some(target) => push_all_items(machine, target),
    }
}

/// The items of an array come on the stack of values; how many there are (ECMA-262, CreateListFromArrayLike).
pub fn push_listed<S: Store>(machine: &mut Machine<S>, list: &Value) -> Result<u32, OutOfMemory>
    ensures count { IfOk result (λ n. n ≡ length (items_in machine.old list.now)) }
    ensures pushed { let values = reverse (items_in machine.old list.now) ++ machine.old.values in
        OnOk result (machine.new ≡ record machine.old { values = values }) }
{
    match object_of_value(list) {
        None => Ok(0),
        Some(object) => push_items_of(machine, object),
    }
}

// What a run throws that nothing catches.

ghost use Rattle.std.specs.Prelude.{◌≡◌, option_map, IfOk};
ghost use Rattle.lava_host.specs.Printed.{printed_reference, printed_value};
ghost use Rattle.lava_packages.specs.Uncaught.{IsUncaughtIn, shown_in, thrown_in};

use js_desc::reply::Reply;
use js_text::value::Value;
use lava_base::list::List;
use lava_base::marks::Marks;
use lava_base::memory::OutOfMemory;
use lava_host::printed::{NO_MARKS, push_value};
use lava_start::js_world::world::FlatWorld;
use std::alloc::Global;

/// The marks of a value that is an object, as the party in the machine sees it.
fn marks_of(world: &FlatWorld, value: &Value) -> Marks
    ensures { printed_value (λ r. printed_reference result) value.now
        ≡ shown_in world.now.machine value.now }
{
    match value {
        Value::Ref(object) => world.marks_of(*object),
        _ => NO_MARKS,
    }
}

/// A value as `console` prints it.
fn printed(alloc: Global, world: &FlatWorld, value: &Value) -> Result<List<u8>, OutOfMemory>
    ensures { IfOk result (λ text. text ≡ shown_in world.now.machine value.now) }
{
    let mut text = List::new(alloc);
    push_value(&mut text, value, marks_of(world, value))?;
    Ok(text)
}

/// The value that is thrown, where the host's import is answered by a throw.
fn thrown(world: &FlatWorld) -> Option<&Value>
    ensures { option_map (λ v. v.now) result ≡ thrown_in world.now.last }
{
    match world.last() {
        Some(Reply::Throw(value)) => Some(value),
        _ => None,
    }
}

/// What the host's import is answered with, as the host prints it; nothing where nothing is thrown. The host's things come into the machine.
pub fn uncaught(alloc: Global, world: &mut FlatWorld) -> Result<Option<List<u8>>, OutOfMemory>
    ensures { IfOk result (IsUncaughtIn world.old) }
{
    world.turn_to(0)?;
    match thrown(world) {
        Some(value) => Ok(Some(printed(alloc, world, value)?)),
        None => Ok(None),
    }
}

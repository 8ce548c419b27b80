// The objects of the host.

ghost use Rattle.std.specs.Prelude.{◌≡◌, ◌<◌, ◌++◌, ◌∷◌, [], length, false, IfOk, OnOk};
ghost use Rattle.js_store.specs.Objects.{at_place};
ghost use Rattle.js_text.specs.Naming.{naming_of};
ghost use Rattle.js_text.specs.declared.value.Value.TheVariants as value;
ghost use Rattle.js_desc.specs.declared.descriptor.Descriptor.TheVariants as descriptor;
ghost use Rattle.js_world.specs.js_run.Hosts.{host_function, host_objects};
ghost use Rattle.lava_start.specs.Making.{console_object, fs_object, holder_object, with_host_member};

use crate::objects::{host, put_object, put_property};
use crate::words::word_text;
use js_desc::descriptor::Descriptor;
use js_store::flat::FlatStore;
use js_store::store::{PLAIN_MARKS, Store};
use js_text::value::Value;
use js_world::js_run::intrinsics::{FUNCTION_PROTOTYPE, OBJECT_PROTOTYPE};
use lava_base::ids::{ObjId, PartyId};
use lava_base::marks::{Class, Marks};
use lava_base::memory::OutOfMemory;
use std::alloc::Global;

/// The marks of a function that is no constructor.
pub(crate) const FUNCTION_MARKS: Marks = Marks {
    class: Class::Function,
    callable: true,
    constructor: false,
};

/// A property that never changes, and isn't listed.
fn fixed(value: Value) -> Descriptor
    ensures { result ≡ descriptor.Data value false false false }
{
    Descriptor::Data {
        value,
        writable: false,
        enumerable: false,
        configurable: false,
    }
}

/// Gives an object of the host a member: the function of a number.
fn put_member(
    alloc: Global,
    objects: &mut FlatStore,
    at: ObjId,
    name: &str,
    number: u32,
) -> Result<(), OutOfMemory>
    requires { at.0 < length objects.old.objects }
    ensures objects { let step = with_host_member name.now number in
        OnOk result (objects.new.objects ≡ at_place objects.old.objects at.0 step) }
    ensures party { objects.new.party ≡ objects.old.party }
{
    let property = Descriptor::Data {
        value: Value::Ref(host(number)),
        writable: false,
        enumerable: true,
        configurable: false,
    };
    put_property(alloc, objects, at, name, property)
}

/// Makes a function of the host.
fn put_function(alloc: Global, objects: &mut FlatStore, name: &str) -> Result<(), OutOfMemory>
    ensures objects { let made = host_function (naming_of 0) name.now in
        OnOk result (objects.new.objects ≡ objects.old.objects ++ made ∷ []) }
    ensures party { objects.new.party ≡ objects.old.party }
{
    let at = put_object(objects, FUNCTION_PROTOTYPE, FUNCTION_MARKS)?;
    put_property(alloc, objects, at, "length", fixed(Value::Int(0)))?;
    let name = Value::Text(word_text(alloc, name)?);
    put_property(alloc, objects, at, "name", fixed(name))?;
    objects.prevent(at);
    Ok(())
}

/// Makes an object of the host that has one member.
fn put_holder(
    alloc: Global,
    objects: &mut FlatStore,
    name: &str,
    number: u32,
) -> Result<(), OutOfMemory>
    ensures objects { let made = holder_object name.now number in
        OnOk result (objects.new.objects ≡ objects.old.objects ++ made ∷ []) }
    ensures party { objects.new.party ≡ objects.old.party }
{
    let at = put_object(objects, OBJECT_PROTOTYPE, PLAIN_MARKS)?;
    put_member(alloc, objects, at, name, number)?;
    objects.prevent(at);
    Ok(())
}

/// Makes `console`.
fn put_console(alloc: Global, objects: &mut FlatStore) -> Result<(), OutOfMemory>
    ensures objects { OnOk result
        (objects.new.objects ≡ objects.old.objects ++ console_object ∷ []) }
    ensures party { objects.new.party ≡ objects.old.party }
{
    let at = put_object(objects, OBJECT_PROTOTYPE, PLAIN_MARKS)?;
    put_member(alloc, objects, at, "log", 1)?;
    put_member(alloc, objects, at, "info", 2)?;
    put_member(alloc, objects, at, "warn", 3)?;
    put_member(alloc, objects, at, "error", 4)?;
    objects.prevent(at);
    Ok(())
}

/// Makes `fs`.
fn put_fs(alloc: Global, objects: &mut FlatStore) -> Result<(), OutOfMemory>
    ensures objects { OnOk result (objects.new.objects ≡ objects.old.objects ++ fs_object ∷ []) }
    ensures party { objects.new.party ≡ objects.old.party }
{
    let at = put_object(objects, OBJECT_PROTOTYPE, PLAIN_MARKS)?;
    put_member(alloc, objects, at, "readFileSync", 10)?;
    put_member(alloc, objects, at, "existsSync", 11)?;
    objects.prevent(at);
    Ok(())
}

/// The objects of the host, each at its number.
pub fn host_store(alloc: Global) -> Result<FlatStore, OutOfMemory>
    ensures objects { IfOk result (λ s. s.objects ≡ host_objects (naming_of 0)) }
    ensures party { IfOk result (λ s. s.party.0 ≡ 0) }
{
    let mut objects = FlatStore::empty(alloc, PartyId(0));
    put_console(alloc, &mut objects)?;
    put_function(alloc, &mut objects, "log")?;
    put_function(alloc, &mut objects, "info")?;
    put_function(alloc, &mut objects, "warn")?;
    put_function(alloc, &mut objects, "error")?;
    put_holder(alloc, &mut objects, "line", 6)?;
    put_function(alloc, &mut objects, "line")?;
    put_holder(alloc, &mut objects, "now", 8)?;
    put_function(alloc, &mut objects, "now")?;
    put_fs(alloc, &mut objects)?;
    put_function(alloc, &mut objects, "readFileSync")?;
    put_function(alloc, &mut objects, "existsSync")?;
    Ok(objects)
}

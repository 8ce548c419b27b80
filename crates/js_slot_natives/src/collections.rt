// The classes of keyed collections.

ghost use Rattle.std.specs.Prelude.{◌≡◌, IfOk};
ghost use Rattle.js_slot_natives.specs.Collections.{collection_class, is_of_class};

use js_operations::names::ascii_text;
use js_text::text::Text;
use lava_base::marks::Class;
use lava_base::memory::OutOfMemory;
use std::alloc::Global;

/// The class that a text names, if it is one of the three of keyed collections.
pub fn collection_class(alloc: Global, text: &Text) -> Result<Option<Class>, OutOfMemory>
    ensures { IfOk result (λ class. class ≡ collection_class text.now) }
{
    if text.is_same(&ascii_text(alloc, "Map")?) {
        return Ok(Some(Class::Map));
    }
    if text.is_same(&ascii_text(alloc, "Set")?) {
        return Ok(Some(Class::Set));
    }
    if text.is_same(&ascii_text(alloc, "WeakMap")?) {
        return Ok(Some(Class::WeakMap));
    }
    Ok(None)
}

/// Whether an object's class is the one that is named.
pub fn is_of_class(named: Option<Class>, class: Class) -> bool
    ensures { result ≡ is_of_class named class }
{
    match (named, class) {
        (Some(Class::Map), Class::Map) => true,
        (Some(Class::Set), Class::Set) => true,
        (Some(Class::WeakMap), Class::WeakMap) => true,
        _ => false,
    }
}

// Property keys of values that are no objects.

ghost use Rattle.std.specs.Prelude.{◌≡◌, IfOk, Some};
ghost use Rattle.std.specs.Fmt.{signed_decimal};
ghost use Rattle.js_text.specs.Indices.{key_of_text};
ghost use Rattle.js_text.specs.declared.value.Value.TheVariants as truth_value;
ghost use Rattle.js_machine.specs.Keys.{plain_key};

use js_operation::array_index_keys::array_index_key;
use js_operation::js_operations::names::{name_key, number_text};
use js_text::copy::copy_symbol;
use js_text::index::key_of_text;
use js_text::value::{Key, Value};
use lava_base::memory::OutOfMemory;
use std::alloc::Global;

/// The name of a truth value.
fn truth_key(alloc: Global, truth: bool) -> Result<Key, OutOfMemory>
    ensures { IfOk result (λ k. plain_key (truth_value.Bool truth) ≡ Some k) }
{
    if truth {
        return name_key(alloc, "true");
    }
    name_key(alloc, "false")
}

/// The property key of a number: an array index is one as it is (ECMA-262, ToPropertyKey).
fn number_key(alloc: Global, number: i64) -> Result<Key, OutOfMemory>
    ensures { IfOk result (λ k. k ≡ key_of_text (signed_decimal number)) }
{
    match array_index_key(number) {
        Some(key) => Ok(key),
        None => Ok(key_of_text(number_text(alloc, number)?)),
    }
}

/// The property key of a value that is no object (ECMA-262, ToPropertyKey). That of an object needs a conversion, which is not there yet: want of memory is answered.
pub fn plain_key(alloc: Global, value: &Value) -> Result<Key, OutOfMemory>
    ensures { IfOk result (λ k. plain_key value.now ≡ Some k) }
{
    match value {
        Value::Undefined => name_key(alloc, "undefined"),
        Value::Null => name_key(alloc, "null"),
        Value::Bool(truth) => truth_key(alloc, *truth),
        Value::Int(number) => number_key(alloc, *number),
        Value::Text(text) => Ok(key_of_text(text.copy()?)),
        Value::Symbol(symbol) => Ok(Key::Symbol(copy_symbol(symbol)?)),
        Value::Ref(_) => Err(OutOfMemory),
    }
}

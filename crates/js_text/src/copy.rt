// The same value once more.

ghost use Rattle.std.specs.Prelude.{◌≡◌, IfOk};

use crate::value::{Key, Symbol, Value};
use lava_base::memory::OutOfMemory;

/// The same symbol once more.
pub fn copy_symbol(symbol: &Symbol) -> Result<Symbol, OutOfMemory>
    ensures { IfOk result (λ copy. copy ≡ symbol.now) }
{
    match symbol {
        Symbol::Iterator => Ok(Symbol::Iterator),
        Symbol::Registered(text) => Ok(Symbol::Registered(text.copy()?)),
        Symbol::Made(made) => Ok(Symbol::Made(*made)),
    }
}

/// The same key once more.
pub fn copy_key(key: &Key) -> Result<Key, OutOfMemory>
    ensures { IfOk result (λ copy. copy ≡ key.now) }
{
    match key {
        Key::Index(index) => Ok(Key::Index(*index)),
        Key::Text(text) => Ok(Key::Text(text.copy()?)),
        Key::Symbol(symbol) => Ok(Key::Symbol(copy_symbol(symbol)?)),
    }
}

/// The same value once more.
#[inline]
pub fn copy_value(value: &Value) -> Result<Value, OutOfMemory>
    ensures { IfOk result (λ copy. copy ≡ value.now) }
{
    match value {
        Value::Undefined => Ok(Value::Undefined),
        Value::Null => Ok(Value::Null),
        Value::Bool(truth) => Ok(Value::Bool(*truth)),
        Value::Int(integer) => Ok(Value::Int(*integer)),
        Value::Text(text) => Ok(Value::Text(text.copy()?)),
        Value::Symbol(symbol) => Ok(Value::Symbol(copy_symbol(symbol)?)),
        Value::Ref(object) => Ok(Value::Ref(*object)),
    }
}

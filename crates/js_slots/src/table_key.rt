// The keys of tables.

ghost use Rattle.std.specs.Prelude.{◌≡◌, IfOk};
ghost use Rattle.std.specs.Cmp.{partial_equiv_from_equiv};
ghost use Rattle.js_text.specs.Values.{same_symbol};
ghost use Rattle.js_slots.specs.TableKeys.{same_table_key, table_key_writes};
ghost use Rattle.js_slots.specs.SameTableKeys.{same_table_key_equiv, same_table_keys_write_alike};

use js_text::copy::copy_value;
use js_text::value::{Symbol, Value};
use lava_base::ids::{MadeSymbol, Ref};
use lava_base::memory::OutOfMemory;
use std::hash::{Hash, Hasher};

/// A value as a key of a keyed collection (ECMA-262, SameValueZero).
#[derive(Drop)]
pub struct TableKey<R = Ref, S = MadeSymbol>(pub Value<R, S>);

/// The key that a value is.
pub fn table_key(value: &Value) -> Result<TableKey, OutOfMemory>
    ensures { IfOk result (λ key. key.0 ≡ value.now) }
{
    Ok(TableKey(copy_value(value)?))
}

/// Whether two symbols are the same.
fn is_equal_symbol<S: Eq>(a: &Symbol<S>, b: &Symbol<S>) -> bool
    ensures { result ≡ same_symbol S.eq a.now b.now }
{
    match (a, b) {
        (Symbol::Iterator, Symbol::Iterator) => true,
        (Symbol::Registered(a), Symbol::Registered(b)) => a.is_same(b),
        (Symbol::Made(a), Symbol::Made(b)) => a == b,
        _ => false,
    }
}

impl<R: Eq, S: Eq> PartialEq for TableKey<R, S> {
    ghost eq = { same_table_key R.eq S.eq };

    ghost laws = { partial_equiv_from_equiv (same_table_key_equiv R.Eq.laws S.Eq.laws) };

    fn eq(&self, other: &TableKey<R, S>) -> bool {
        match (&self.0, &other.0) {
            (Value::Undefined, Value::Undefined) => true,
            (Value::Null, Value::Null) => true,
            (Value::Bool(a), Value::Bool(b)) => *a == *b,
            (Value::Int(a), Value::Int(b)) => *a == *b,
            (Value::Text(a), Value::Text(b)) => a.is_same(b),
            (Value::Symbol(a), Value::Symbol(b)) => is_equal_symbol(a, b),
            (Value::Ref(a), Value::Ref(b)) => a == b,
            _ => false,
        }
    }
}

impl<R: Eq, S: Eq> Eq for TableKey<R, S> {
    ghost laws = { same_table_key_equiv R.Eq.laws S.Eq.laws };
}

impl<R: Eq + Hash, S: Eq + Hash> Hash for TableKey<R, S> {
    ghost hash_input = { table_key_writes R.hash_input S.hash_input };

    ghost respects_eq = { same_table_keys_write_alike R.respects_eq S.respects_eq };

    fn hash<H: Hasher>(&self, state: &mut H) {
        match &self.0 {
            Value::Undefined => state.write_u8(0),
            Value::Null => state.write_u8(1),
            Value::Bool(truth) => {
                state.write_u8(2);
                truth.hash(state);
            }
            Value::Int(integer) => {
                state.write_u8(3);
                state.write_i64(*integer);
            }
            Value::Text(text) => {
                state.write_u8(4);
                text.hash(state);
            }
            Value::Symbol(Symbol::Iterator) => state.write_u8(5),
            Value::Symbol(Symbol::Registered(text)) => {
                state.write_u8(6);
                text.hash(state);
            }
            Value::Symbol(Symbol::Made(made)) => {
                state.write_u8(7);
                made.hash(state);
            }
            Value::Ref(object) => {
                state.write_u8(8);
                object.hash(state);
            }
        }
    }
}

// Whether two values are the same.

ghost use Rattle.std.specs.Prelude.{◌≡◌, ◌↔◌, IsTrue};
ghost use Rattle.std.specs.Cmp.{partial_equiv_from_equiv};
ghost use Rattle.lava_base.specs.Ids.{same_ref, same_made_symbol};
ghost use Rattle.lava_base.specs.SameSymbols.{same_made_symbol_decides};
ghost use Rattle.js_text.specs.SameKeys.{same_units_equiv, same_symbol_equiv, same_key_equiv};
ghost use Rattle.js_text.specs.Texts.{same_units};
ghost use Rattle.js_text.specs.Values.{same_symbol, same_key, same_value};

use crate::text::Text;
use crate::value::{Key, Symbol, Value};

/// Whether two symbols are the same.
pub fn is_same_symbol(a: &Symbol, b: &Symbol) -> bool
    ensures test { result ≡ same_symbol same_made_symbol a.now b.now }
    ensures equal { IsTrue result ↔ (a.now ≡ b.now) }
{
    match (a, b) {
        (Symbol::Iterator, Symbol::Iterator) => true,
        (Symbol::Registered(a), Symbol::Registered(b)) => a.is_same(b),
        (Symbol::Made(a), Symbol::Made(b)) => a.is_same(*b),
        _ => false,
    }
}

/// Whether two keys are the same.
pub fn is_same_key(a: &Key, b: &Key) -> bool
    ensures test { result ≡ same_key same_made_symbol a.now b.now }
    ensures equal { IsTrue result ↔ (a.now ≡ b.now) }
{
    match (a, b) {
        (Key::Index(a), Key::Index(b)) => *a == *b,
        (Key::Text(a), Key::Text(b)) => a.is_same(b),
        (Key::Symbol(a), Key::Symbol(b)) => is_same_symbol(a, b),
        _ => false,
    }
}

/// Whether two values are the same (ECMA-262, SameValue).
pub fn is_same_value(a: &Value, b: &Value) -> bool
    ensures test { result ≡ same_value same_ref same_made_symbol a.now b.now }
    ensures equal { IsTrue result ↔ (a.now ≡ b.now) }
{
    match (a, b) {
        (Value::Undefined, Value::Undefined) => true,
        (Value::Null, Value::Null) => true,
        (Value::Bool(a), Value::Bool(b)) => *a == *b,
        (Value::Int(a), Value::Int(b)) => *a == *b,
        (Value::Text(a), Value::Text(b)) => a.is_same(b),
        (Value::Symbol(a), Value::Symbol(b)) => is_same_symbol(a, b),
        (Value::Ref(a), Value::Ref(b)) => a.is_same(*b),
        _ => false,
    }
}

impl PartialEq for Text {
    ghost eq = { same_units };

    ghost laws = { partial_equiv_from_equiv same_units_equiv };

    fn eq(&self, other: &Text) -> bool {
        self.is_same(other)
    }
}

impl Eq for Text {
    ghost laws = { same_units_equiv };
}

impl PartialEq for Symbol {
    ghost eq = { same_symbol same_made_symbol };

    ghost laws = { partial_equiv_from_equiv (same_symbol_equiv same_made_symbol_decides) };

    fn eq(&self, other: &Symbol) -> bool {
        is_same_symbol(self, other)
    }
}

impl Eq for Symbol {
    ghost laws = { same_symbol_equiv same_made_symbol_decides };
}

impl PartialEq for Key {
    ghost eq = { same_key same_made_symbol };

    ghost laws = { partial_equiv_from_equiv (same_key_equiv same_made_symbol_decides) };

    fn eq(&self, other: &Key) -> bool {
        is_same_key(self, other)
    }
}

impl Eq for Key {
    ghost laws = { same_key_equiv same_made_symbol_decides };
}

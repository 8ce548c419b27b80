// Values and keys.

ghost use Rattle.std.specs.Prelude.{◌≡◌, IfOk, OnOk};
ghost use Rattle.lava_trace.specs.Items as spec;

use crate::left::LineReader;
use js_text::index::key_of_text;
use js_text::value::{Key, Value};
use lava_base::limits::MAX_SAFE_INTEGER;
use lava_base::memory::OutOfMemory;

/// A safe integer by its sign and its number, and 0 where the number is too great.
fn signed(is_negative: bool, number: u64) -> i64
    ensures { result ≡ spec.signed is_negative number }
{
    if number > MAX_SAFE_INTEGER {
        return 0;
    }
    if is_negative {
        -(number as i64)
    } else {
        number as i64
    }
}

impl<'a> LineReader<'a> {
    /// Reads a safe integer.
    #[tactic(auto, unfolding(crate::specs::Items::integer_at))]
    fn integer(&mut self) -> i64
        ensures value { result ≡ (spec.integer_at self.old).0 }
        ensures left { self.new ≡ (spec.integer_at self.old).1 }
    {
        if self.byte(0) == b'-' {
            self.skip(1);
            return signed(true, self.number());
        }
        signed(false, self.number())
    }

    /// Reads a key.
    #[tactic(auto, unfolding(crate::specs::Items::key_at))]
    pub(crate) fn key(&mut self) -> Result<Key, OutOfMemory>
        ensures value { IfOk result (λ k. k ≡ (spec.key_at self.old).0) }
        ensures left { OnOk result (self.new ≡ (spec.key_at self.old).1) }
    {
        if self.byte(0) == b'@' {
            return Ok(Key::Symbol(self.symbol()?));
        }
        Ok(key_of_text(self.text()?))
    }

    /// Reads a value.
    #[tactic(auto, unfolding(crate::specs::Items::value_at))]
    pub(crate) fn value(&mut self) -> Result<Value, OutOfMemory>
        ensures value { IfOk result (λ v. v ≡ (spec.value_at self.old).0) }
        ensures left { OnOk result (self.new ≡ (spec.value_at self.old).1) }
    {
        let first = self.byte(0);
        if first == b'"' {
            return Ok(Value::Text(self.text()?));
        }
        if first == b'@' {
            return Ok(Value::Symbol(self.symbol()?));
        }
        if self.is_at_object() {
            return Ok(Value::Ref(self.object()?));
        }
        self.plain_value(first)
    }

    /// Reads a value that is no text, no symbol and no object.
    #[tactic(auto, unfolding(crate::specs::Items::plain_value_at))]
    fn plain_value(&mut self, first: u8) -> Result<Value, OutOfMemory>
        ensures value { IfOk result (λ v. v ≡ (spec.plain_value_at first self.old).0) }
        ensures left { OnOk result (self.new ≡ (spec.plain_value_at first self.old).1) }
    {
        if first == b'u' {
            self.skip(9);
            return Ok(Value::Undefined);
        }
        if first == b'n' {
            self.skip(4);
            return Ok(Value::Null);
        }
        if first == b't' {
            self.skip(4);
            return Ok(Value::Bool(true));
        }
        if first == b'f' {
            self.skip(5);
            return Ok(Value::Bool(false));
        }
        Ok(Value::Int(self.integer()))
    }

    /// Reads a truth value.
    #[tactic(auto, unfolding(crate::specs::Items::truth_at))]
    pub(crate) fn truth(&mut self) -> bool
        ensures value { result ≡ (spec.truth_at self.old).0 }
        ensures left { self.new ≡ (spec.truth_at self.old).1 }
    {
        if self.byte(0) == b't' {
            self.skip(4);
            return true;
        }
        self.skip(5);
        false
    }
}

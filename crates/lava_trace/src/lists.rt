// Lists of keys, values, globals and modules.

ghost use Rattle.std.specs.Prelude.{◌≡◌, ◌<◌, ◌&&◌, nat_lt, IfOk, OnOk};
ghost use Rattle.lava_trace.specs.Items as spec;

use crate::left::LineReader;
use js_text::text::Text;
use js_text::value::{Key, Value};
use lava_base::list::List;
use lava_base::memory::OutOfMemory;

impl<'a> LineReader<'a> {
    /// Whether one more key may be read, and no `]` closes the keys here.
    fn key_begins(&self, most: usize) -> bool
        ensures { result ≡ (nat_lt 0 most && spec.key_begins self.now) }
    {
        0 < most && !self.is_at_end() && self.byte(0) != 93
    }

    /// Whether one more thing may be read, and something is left of the line.
    fn is_left(&self, most: u64) -> bool
        ensures { result ≡ (nat_lt 0 most && spec.is_left self.now) }
    {
        0 < most && !self.is_at_end()
    }

    /// Reads a key, behind a space if one stands there.
    #[tactic(auto, unfolding(crate::specs::Items::parted_key_at))]
    fn parted_key(&mut self) -> Result<Key, OutOfMemory>
        ensures value { IfOk result (λ k. k ≡ (spec.parted_key_at self.old).0) }
        ensures left { OnOk result (self.new ≡ (spec.parted_key_at self.old).1) }
    {
        self.space();
        self.key()
    }

    /// Reads keys between `[` and `]`.
    #[tactic(auto, unfolding(crate::specs::Items::keys_at))]
    pub(crate) fn keys(&mut self) -> Result<List<Key>, OutOfMemory>
        ensures value { IfOk result (λ ks. ks ≡ (spec.keys_at self.old).0) }
        ensures left { OnOk result (self.new ≡ (spec.keys_at self.old).1) }
    {
        let most = self.len();
        self.skip(1);
        let keys = self.parted_keys(most)?;
        self.skip(1);
        Ok(keys)
    }

    /// Reads at most so many keys, up to a `]`.
    #[tactic(auto, using(crate::proofs::Many_laws::one_more, crate::proofs::Many_laws::all_made, crate::proofs::Many_laws::all_left), unfolding(crate::specs::Items::parted_keys_at))]
    fn parted_keys(&mut self, most: usize) -> Result<List<Key>, OutOfMemory>
        ensures value { IfOk result (λ ks. ks ≡ (spec.parted_keys_at most self.old).0) }
        ensures left { OnOk result (self.new ≡ (spec.parted_keys_at most self.old).1) }
    {
        let mut keys = List::new(self.alloc);
        let mut most = most;
        while self.key_begins(most) {
            let key = self.parted_key()?;
            keys.push(key)?;
            most -= 1;
        }
        Ok(keys)
    }

    /// Reads a value behind a space.
    #[tactic(auto, unfolding(crate::specs::Items::spaced_value_at))]
    pub(crate) fn spaced_value(&mut self) -> Result<Value, OutOfMemory>
        ensures value { IfOk result (λ v. v ≡ (spec.spaced_value_at self.old).0) }
        ensures left { OnOk result (self.new ≡ (spec.spaced_value_at self.old).1) }
    {
        self.skip(1);
        self.value()
    }

    /// Reads values, each behind a space, up to the end of the line.
    #[tactic(auto, using(crate::proofs::Many_laws::one_more, crate::proofs::Many_laws::all_made, crate::proofs::Many_laws::all_left), unfolding(crate::specs::Items::values_at))]
    pub(crate) fn values(&mut self) -> Result<List<Value>, OutOfMemory>
        ensures value { IfOk result (λ vs. vs ≡ (spec.values_at self.old).0) }
        ensures left { OnOk result (self.new ≡ (spec.values_at self.old).1) }
    {
        let mut values = List::new(self.alloc);
        let mut most = self.len() as u64;
        while self.is_left(most) {
            let value = self.spaced_value()?;
            values.push(value)?;
            most -= 1;
        }
        Ok(values)
    }

    /// Reads a key behind a space.
    #[tactic(auto, unfolding(crate::specs::Items::spaced_key_at))]
    pub(crate) fn spaced_key(&mut self) -> Result<Key, OutOfMemory>
        ensures value { IfOk result (λ k. k ≡ (spec.spaced_key_at self.old).0) }
        ensures left { OnOk result (self.new ≡ (spec.spaced_key_at self.old).1) }
    {
        self.skip(1);
        self.key()
    }

    /// Reads a text behind a space.
    #[tactic(auto, unfolding(crate::specs::Items::spaced_text_at))]
    pub(crate) fn spaced_text(&mut self) -> Result<Text, OutOfMemory>
        ensures value { IfOk result (λ t. t ≡ (spec.spaced_text_at self.old).0) }
        ensures left { OnOk result (self.new ≡ (spec.spaced_text_at self.old).1) }
    {
        self.skip(1);
        self.text()
    }

    /// Reads a global of a new party.
    #[tactic(auto, unfolding(crate::specs::Items::global_at))]
    fn global(&mut self) -> Result<(Key, Value), OutOfMemory>
        ensures value { IfOk result (λ g. g ≡ (spec.global_at self.old).0) }
        ensures left { OnOk result (self.new ≡ (spec.global_at self.old).1) }
    {
        let key = self.spaced_key()?;
        let value = self.spaced_value()?;
        Ok((key, value))
    }

    /// Reads a module of a new party.
    #[tactic(auto, unfolding(crate::specs::Items::module_at))]
    fn module(&mut self) -> Result<(Text, Value), OutOfMemory>
        ensures value { IfOk result (λ m. m ≡ (spec.module_at self.old).0) }
        ensures left { OnOk result (self.new ≡ (spec.module_at self.old).1) }
    {
        let name = self.spaced_text()?;
        let value = self.spaced_value()?;
        Ok((name, value))
    }

    /// Reads the globals of a new party, as many as a number says.
    #[tactic(auto, using(crate::proofs::Many_laws::one_more, crate::proofs::Many_laws::all_made, crate::proofs::Many_laws::all_left), unfolding(crate::specs::Items::globals_at))]
    pub(crate) fn globals(&mut self) -> Result<List<(Key, Value)>, OutOfMemory>
        ensures value { IfOk result (λ gs. gs ≡ (spec.globals_at self.old).0) }
        ensures left { OnOk result (self.new ≡ (spec.globals_at self.old).1) }
    {
        self.skip(1);
        let mut most = self.number();
        let mut globals = List::new(self.alloc);
        while self.is_left(most) {
            let global = self.global()?;
            globals.push(global)?;
            most -= 1;
        }
        Ok(globals)
    }

    /// Reads the modules of a new party, as many as a number says.
    #[tactic(auto, using(crate::proofs::Many_laws::one_more, crate::proofs::Many_laws::all_made, crate::proofs::Many_laws::all_left), unfolding(crate::specs::Items::modules_at))]
    pub(crate) fn modules(&mut self) -> Result<List<(Text, Value)>, OutOfMemory>
        ensures value { IfOk result (λ ms. ms ≡ (spec.modules_at self.old).0) }
        ensures left { OnOk result (self.new ≡ (spec.modules_at self.old).1) }
    {
        self.skip(1);
        let mut most = self.number();
        let mut modules = List::new(self.alloc);
        while self.is_left(most) {
            let module = self.module()?;
            modules.push(module)?;
            most -= 1;
        }
        Ok(modules)
    }
}

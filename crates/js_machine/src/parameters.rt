// The slots of a body's scope: its parameters, which are on the stack of values, and its own names.

ghost use Rattle.std.specs.Prelude.{◌≡◌, ◌<◌, ◌≤◌, ◌+◌, ◌-◌, ◌&&◌, ◌++◌, ◌∷◌, [], IfOk, OnOk, None, drop, length, nat_le, nat_lt, replicate, if◌then◌else◌};
ghost use Rattle.js_text.specs.declared.value.Value.TheVariants as undefined_value;
ghost use Rattle.js_code.specs.Tables.{part_of};
ghost use Rattle.js_operation.specs.js_run.Functions.{other_slots};
ghost use Rattle.js_state.specs.Scopes.{with_slot};
ghost use Rattle.js_machine.specs.Filling.{started_in, with_arguments, with_open_scope};
ghost use Rattle.js_machine.specs.Views.{args_on, below, top};

use crate::machine::Machine;
use js_code::node::TemplateRow;
use js_store::store::Store;
use js_text::value::Value;
use lava_base::memory::OutOfMemory;

impl<S: Store> Machine<S> {
    /// Opens a scope in which no body stands yet.
    #[inline]
    fn open_bare(&mut self, outer: u32, count: u32) -> Result<u32, OutOfMemory>
        ensures number { IfOk result (λ s. s ≡ length self.old.scopes) }
        ensures opened { let slots = replicate count None in
            OnOk result (self.new ≡ with_open_scope outer slots self.old) }
    {
        self.scopes.open_empty(outer, count)
    }

    /// A slot of a scope that starts as undefined has its value, if it is none of the parameters.
    #[inline]
    fn start_slot(&mut self, row: TemplateRow, first: u32, scope: u32, slot: u32)
        requires { first + (row.slots - row.params) ≤ 4294967295 }
        ensures { let others = nat_le row.params slot && nat_lt slot row.slots in
            let scopes = started_in others (first + (slot - row.params)) scope self.old.scopes in
            self.new ≡ record self.old { scopes = scopes } }
    {
        if row.params <= slot && slot < row.slots {
            self.write_slot(scope, first + (slot - row.params), Value::Undefined);
        }
    }

    /// Opens the scope of a body, where so many slots are left for the parameters, and the others that start as undefined have their value.
    #[inline]
    pub fn open_slots(
        &mut self,
        row: TemplateRow,
        first: u32,
        outer: u32,
    ) -> Result<u32, OutOfMemory>
        ensures number { IfOk result (λ s. s ≡ length self.old.scopes) }
        ensures opened { let names = self.old.code.numbers in
            let undefined = part_of row.undefined_start row.undefined_count names in
            let others = other_slots undefined row.params (row.slots - row.params) in
            let slots = replicate first None ++ others in
            OnOk result (self.new ≡ with_open_scope outer slots self.old) }
    {
        let there = self.listed(row.undefined_start, row.undefined_count)?;
        let others = row.slots.saturating_sub(row.params);
        if others > u32::MAX - first {
            return Err(OutOfMemory);
        }
        let scope = self.open_bare(outer, first + others)?;
        for i in 0..there {
            let slot = self.number(row.undefined_start + i);
            self.start_slot(row, first, scope, slot);
        }
        Ok(scope)
    }

    /// Gives a slot a value; nothing happens where there is no such slot.
    #[inline]
    pub fn write_slot(&mut self, scope: u32, slot: u32, value: Value)
        ensures { let scopes = with_slot self.old.scopes scope slot value in
            self.new ≡ record self.old { scopes = scopes } }
    {
        self.scopes.write(scope, slot, value);
    }

    /// So many arguments are taken off the stack.
    #[inline]
    pub fn drop_arguments(&mut self, count: u32)
        ensures { self.new ≡ record self.old { values = drop count self.old.values } }
    {
        self.discard(u64::from(count));
    }

    /// How many arguments there are of so many on the stack of values.
    #[inline]
    #[tactic(auto, using(crate::proofs::Filled::all_taken, crate::proofs::Filled::all_dropped))]
    pub fn given(&self, count: u32) -> u32
        ensures there { result ≤ length self.now.values }
        ensures same { args_on result self.now.values ≡ args_on count self.now.values }
        ensures rest { drop result self.now.values ≡ drop count self.now.values }
    {
        let there = self.values.len();
        if there < count as usize {
            there as u32
        } else {
            count
        }
    }

    /// Takes an argument off the stack where there are more than so many, and else is undefined.
    #[inline]
    fn take_argument(&mut self, at: u32, given: u32) -> Value
        ensures value { let there = top self.old.values in
            result ≡ (if nat_lt at given then there else undefined_value.Undefined) }
        ensures rest { let values = self.old.values in
            let rest = if nat_lt at given then below values else values in
            self.new ≡ record self.old { values = rest } }
    {
        if at < given {
            return self.take();
        }
        Value::Undefined
    }

    /// Takes so many arguments off the stack, and gives the first slots of a scope those of their places; undefined where there are too few.
    #[inline]
    pub fn bind_arguments(&mut self, first: u32, count: u32, scope: u32)
        ensures { self.new ≡ with_arguments first count scope self.old }
    {
        let given = self.given(count);
        self.drop_arguments(given.saturating_sub(first));
        let mut left = first;
        while left > 0 {
            left -= 1;
            let value = self.take_argument(left, given);
            self.write_slot(scope, left, value);
        }
    }
}

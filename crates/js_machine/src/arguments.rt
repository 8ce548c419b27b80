// Arguments on the stack of values.

ghost use Rattle.std.specs.Prelude.{◌≡◌, IfOk, OnOk, drop};
ghost use Rattle.js_machine.specs.Views.{args_on};

use crate::machine::Machine;
use js_store::store::Store;
use js_text::value::Value;
use lava_base::list::List;
use lava_base::memory::OutOfMemory;

impl<S: Store> Machine<S> {
    /// So many arguments are taken off the stack of values, as a list.
    pub fn take_arguments(&mut self, count: u32) -> Result<List<Value>, OutOfMemory>
        ensures list { IfOk result (λ args. args ≡ args_on count self.old.values) }
        ensures rest { let rest = drop count self.old.values in
            OnOk result (self.new ≡ record self.old { values = rest }) }
    {
        let given = self.given(count);
        let mut args = Vec::new(self.alloc);
        for _i in 0..given {
            let value = self.take();
            args.push(value)?;
        }
        args.reverse();
        Ok(List::from_vec(args))
    }
}

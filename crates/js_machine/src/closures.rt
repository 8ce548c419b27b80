// Closures, as the code has them.

ghost use Rattle.std.specs.Prelude.{◌≡◌, ◌++◌, OnOk, length, reverse};

use crate::machine::Machine;
use js_store::slot::Lexical;
use js_store::store::Store;
use js_text::copy::copy_value;
use js_text::value::Value;
use lava_base::ids::Ref;
use lava_base::list::List;
use lava_base::memory::OutOfMemory;

/// What a function of a source keeps.
#[derive(Drop)]
pub struct Closure {
    pub home: Option<Ref>,
    pub lexical: Option<Lexical>,
}

impl<S: Store> Machine<S> {
    /// Arguments come on the stack of values.
    pub fn push_arguments(&mut self, args: &List<Value>) -> Result<(), OutOfMemory>
        ensures { let values = reverse args.now ++ self.old.values in
            OnOk result (self.new ≡ record self.old { values = values }) }
    {
        for i in 0..args.len() {
            let value = copy_value(args.item(i))?;
            self.push(value)?;
        }
        Ok(())
    }
}

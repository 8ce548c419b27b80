// Methods that are called on values, where the key is a form.

ghost use Rattle.std.specs.Prelude.{IfOk};
ghost use Rattle.js_machine.specs.Conversions.{KeyReaches, ReadsMethod};
ghost use Rattle.js_machine.specs.declared.frame.KeyGoal.TheVariants as key_goal;

use crate::frame::{Frame, Mode};
use crate::machine::Machine;
use js_desc::ask::Ask;
use js_store::store::Store;
use js_text::copy::copy_value;
use js_text::value::{Key, Value};
use lava_base::memory::OutOfMemory;

impl<S: Store> Machine<S> {
    /// A method of a value is read, and a frame that has the value waits for it.
    pub fn ask_method_of(
        &mut self,
        object: Value,
        key: Key,
        arguments: u32,
    ) -> Result<Mode, OutOfMemory>
        ensures { IfOk result (ReadsMethod arguments object key self.old self.new) }
    {
        let target = copy_value(&object)?;
        let receiver = copy_value(&object)?;
        self.push(object)?;
        self.ask_value(
            target,
            Ask::Get { key, receiver },
            Frame::CallMethod { arguments },
        )
    }

    /// The key of a method is known; its object is on the stack.
    pub fn key_to_method(&mut self, arguments: u32, key: Key) -> Result<Mode, OutOfMemory>
        ensures { let goal = key_goal.Method arguments in
            IfOk result (KeyReaches goal key self.old self.new) }
    {
        let object = self.take();
        self.ask_method_of(object, key, arguments)
    }
}

// Properties, methods and calls of `super`.

ghost use Rattle.std.specs.Prelude.{◌≡◌, IfOk, Some};
ghost use Rattle.js_machine.specs.Conversions.{KeyReaches, ReadsSuper, super_frame};
ghost use Rattle.js_machine.specs.declared.frame.KeyGoal.TheVariants as key_goal;

use crate::frame::{Frame, Mode};
use crate::machine::Machine;
use js_desc::ask::Ask;
use js_desc::fault::FaultText;
use js_store::store::Store;
use js_text::value::Key;
use lava_base::ids::Ref;
use lava_base::memory::OutOfMemory;

/// The frame that waits for a property of `super`.
fn super_frame(call: Option<u32>) -> Frame
    ensures { result ≡ super_frame call }
{
    match call {
        None => Frame::Given,
        Some(arguments) => Frame::CallSuperMethod { arguments },
    }
}

impl<S: Store> Machine<S> {
    /// A property that has this key is read with `this` as the receiver, and a frame waits for it.
    pub fn ask_super(
        &mut self,
        key: Key,
        above: Ref,
        call: Option<u32>,
    ) -> Result<Mode, OutOfMemory>
        ensures { IfOk result (ReadsSuper call above key self.old self.new) }
    {
        match self.this_value()? {
            None => self.fault(FaultText::NoThis),
            Some(receiver) => self.ask(above, Ask::Get { key, receiver }, super_frame(call)),
        }
    }

    /// The key of a property of `super` is known; the object where `super` looks is on the stack.
    pub fn key_to_super(&mut self, call: Option<u32>, key: Key) -> Result<Mode, OutOfMemory>
        ensures { let goal = key_goal.Super call in
            IfOk result (KeyReaches goal key self.old self.new) }
    {
        let above = self.take_object();
        self.ask_super(key, above, call)
    }
}

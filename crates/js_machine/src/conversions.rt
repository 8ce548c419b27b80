// Objects become primitive values and property keys: the frames that wait have the object, and what the value is for below it.

ghost use Rattle.std.specs.Prelude.{◌≡◌, IfOk};
ghost use Rattle.js_text.specs.declared.value.Key.TheVariants as key_kind;
ghost use Rattle.js_machine.specs.Conversions.{BecomesBy, Converts};
ghost use Rattle.js_machine.specs.Views.{as_text, method_at, methods_from};

use crate::frame::{Frame, Goal, Mode};
use crate::machine::Machine;
use js_desc::ask::Ask;
use js_operation::js_operations::names::name_key;
use js_store::store::Store;
use js_text::value::{Key, Value};
use lava_base::ids::Ref;
use lava_base::memory::OutOfMemory;
use std::alloc::Global;

/// The name of the first or of the last of the methods that are tried (ECMA-262, OrdinaryToPrimitive, steps 1 and 2).
fn method_key(alloc: Global, last: bool, as_text: bool) -> Result<Key, OutOfMemory>
    ensures { IfOk result (λ k. k ≡ key_kind.Text (method_at last as_text)) }
{
    match (last, as_text) {
        (false, true) | (true, false) => name_key(alloc, "toString"),
        (false, false) | (true, true) => name_key(alloc, "valueOf"),
    }
}

impl<S: Store> Machine<S> {
    /// An object is asked for a method that makes it a primitive value.
    #[tactic(auto, using(crate::proofs::Converted::method_asked))]
    pub fn ask_method(&mut self, object: Ref, goal: Goal, last: bool) -> Result<Mode, OutOfMemory>
        ensures { let methods = methods_from last (as_text goal) in
            IfOk result (BecomesBy methods object goal self.old self.new) }
    {
        let key = method_key(self.alloc, last, goal.as_text())?;
        self.push(Value::Ref(object))?;
        let ask = Ask::Get {
            key,
            receiver: Value::Ref(object),
        };
        self.ask(object, ask, Frame::MethodGot { last, goal })
    }

    /// An object becomes a primitive value (ECMA-262, ToPrimitive).
    #[tactic(auto, using(crate::proofs::Converted::converts))]
    pub fn convert_object(&mut self, object: Ref, goal: Goal) -> Result<Mode, OutOfMemory>
        ensures { IfOk result (Converts object goal self.old self.new) }
    {
        self.ask_method(object, goal, false)
    }
}

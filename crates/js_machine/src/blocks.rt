// The run ends.

ghost use Rattle.std.specs.Prelude.{◌++◌, ◌∷◌, [], IfOk, length};
ghost use Rattle.js_operation.specs.js_run.Acts.{End};
ghost use Rattle.js_state.specs.Scopes.{scope_at};
ghost use Rattle.js_machine.specs.Bodies.{scope_of, stood_in};
ghost use Rattle.js_machine.specs.Steps.{LeadsTo};
ghost use Rattle.js_machine.specs.Views.{halt_of};

use crate::frame::{Halt, Mode, halt_number};
use crate::machine::Machine;
use js_store::store::Store;
use lava_base::memory::OutOfMemory;

impl<S: Store> Machine<S> {
    /// The run ends.
    #[tactic(auto, using(crate::proofs::Exits::halts))]
    pub fn end_run(&mut self, halt: Halt) -> Result<Mode, OutOfMemory>
        ensures { IfOk result (LeadsTo (λ a. End (halt_of halt)) self.old self.new) }
    {
        Ok(Mode::End(halt_number(halt)))
    }
}

// Where the newest body stands.

ghost use Rattle.std.specs.Prelude.{◌≡◌, ◌++◌, ◌∷◌, [], OnOk, replicate, length};
ghost use Rattle.js_state.specs.Scopes.{scope_at};
ghost use Rattle.js_machine.specs.Bodies.{scope_of};
ghost use Rattle.js_machine.specs.Steps.{GoesOn};

use crate::machine::Machine;
use js_store::store::Store;

impl<S: Store> Machine<S> {
    /// The scope where the body that runs stands.
    #[tactic(auto, using(crate::proofs::Standing::standing))]
    pub fn standing(&self) -> u32
        ensures { result ≡ scope_of self.now.bodies }
    {
        self.scope
    }
}

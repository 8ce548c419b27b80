// The body that runs.

ghost use Rattle.std.specs.Prelude.{◌≡◌};
ghost use Rattle.std.specs.Option.{option_map};
ghost use Rattle.js_operation.specs.js_run.Parties.{first_body};
ghost use Rattle.js_machine.specs.Bodies.{running_of, scope_of};

use crate::body::Body;
use crate::machine::Machine;
use js_store::store::Store;
use lava_base::ids::Ref;

impl<S: Store> Machine<S> {
    /// The body that runs, if there is one.
    pub(crate) fn running(&self) -> Option<&Body>
        ensures { let body = option_map (λ b. b.now) result in
            first_body self.now.bodies ≡ running_of (scope_of self.now.bodies) body }
    {
        let count = self.bodies.len();
        if count == 0 {
            return None;
        }
        Some(&self.bodies[count - 1])
    }

    /// The new target of the body that runs, if it constructs.
    pub fn target_of_body(&self) -> Option<Ref>
        ensures { result ≡ (first_body self.now.bodies).new_target }
    {
        match self.running() {
            None => None,
            Some(body) => body.new_target,
        }
    }

    /// The function whose body runs, if there is one.
    pub fn function(&self) -> Option<Ref>
        ensures { result ≡ (first_body self.now.bodies).function }
    {
        match self.running() {
            None => None,
            Some(body) => body.function,
        }
    }

    /// The home object of the body that runs, if there is one.
    pub fn home(&self) -> Option<Ref>
        ensures { result ≡ (first_body self.now.bodies).home }
    {
        match self.running() {
            None => None,
            Some(body) => body.home,
        }
    }
}

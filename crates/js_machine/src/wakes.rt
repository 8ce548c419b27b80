// A jump comes to what waits.

ghost use Rattle.std.specs.Prelude.{◌≡◌};
ghost use Rattle.js_machine.specs.Waking.{passes_jumps};

use crate::asked::Wait;

impl Wait {
    /// Whether it goes on with values alone, so that a jump passes it; a decision takes a jump as a throw.
    pub fn passes_jumps(&self) -> bool
        ensures { result ≡ passes_jumps self.now }
    {
        matches!(
            self,
            Wait::MethodGot { .. }
                | Wait::MethodCalled { .. }
                | Wait::Construct { .. }
                | Wait::Exports
        )
    }
}

// What a body runs with.

ghost use Rattle.std.specs.Prelude.{◌≡◌, IfOk};
ghost use Rattle.js_operation.specs.js_run.Parties.{first_body};

use crate::machine::Machine;
use js_store::store::Store;
use js_text::copy::copy_value;
use js_text::value::Value;
use lava_base::memory::OutOfMemory;

impl<S: Store> Machine<S> {
    /// The `this` of the body that runs (ECMA-262, GetThisBinding).
    pub fn this_value(&self) -> Result<Option<Value>, OutOfMemory>
        ensures { IfOk result (λ this. this ≡ (first_body self.now.bodies).this) }
    {
        match self.bodies.last() {
            Some(body) => match &body.this {
                Some(value) => Ok(Some(copy_value(value)?)),
                None => Ok(None),
            },
            None => Ok(None),
        }
    }
}

// The array of a rest parameter.

ghost use Rattle.std.specs.Prelude.{◌≡◌, IfOk, OnOk, drop};
ghost use Rattle.js_text.specs.Naming.{naming_of};
ghost use Rattle.js_operation.specs.js_run.Functions.{array_of};
ghost use Rattle.js_machine.specs.Made.{next_own, with_object};
ghost use Rattle.js_machine.specs.Opened.{with_rest};

use crate::machine::Machine;
use js_native_steps::arrays::add_array;
use js_store::store::Store;
use js_text::value::Value;
use lava_base::ids::Ref;
use lava_base::list::List;
use lava_base::memory::OutOfMemory;

/// The values behind so many.
#[tactic(auto, using(crate::proofs::Rested::none_behind))]
fn behind(values: List<Value>, count: usize) -> List<Value>
    ensures { result ≡ drop count values }
{
    let mut values = values;
    if count < values.len() {
        values.drop_first(count);
    } else {
        values.truncate(0);
    }
    values
}

impl<S: Store> Machine<S> {
    /// Makes an array of values.
    pub fn make_array(&mut self, values: &List<Value>) -> Result<Ref, OutOfMemory>
        ensures name { IfOk result (λ r. r ≡ next_own self.old) }
        ensures made { let array = array_of (naming_of self.old.me) values.now in
            OnOk result (self.new ≡ with_object array self.old) }
    {
        let array = self.next_own();
        add_array(self.alloc, &mut self.store, values)?;
        Ok(array)
    }

    /// Makes the array of a rest parameter, while the arguments stay on the stack.
    pub(crate) fn make_rest(&mut self, at: u32, count: u32) -> Result<Ref, OutOfMemory>
        ensures name { IfOk result (λ r. r ≡ next_own self.old) }
        ensures made { OnOk result (self.new ≡ with_rest at count self.old) }
    {
        let row = self.template(at);
        let fixed = row.params.saturating_sub(1);
        let args = self.take_arguments(count)?;
        self.push_arguments(&args)?;
        let rest = behind(args, fixed as usize);
        self.make_array(&rest)
    }
}

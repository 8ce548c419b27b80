// The arguments of an array: its items, which are read directly.

ghost use Rattle.std.specs.Prelude.{IfOk, drop};
ghost use Rattle.js_text.specs.Naming.{naming_of};
ghost use Rattle.js_machine.specs.js_run.Control.{listed};
ghost use Rattle.js_machine.specs.Steps.{LeadsTo};
ghost use Rattle.js_machine.specs.Views.{applied, held, party_of};

use crate::arguments::apply;
use js_in_place::js_machine_calls::listed_arguments::push_listed;
use js_machine::frame::{Mode, Purpose};
use js_machine::machine::Machine;
use js_store::store::Store;
use js_text::value::Value;
use lava_base::memory::OutOfMemory;

/// The array of all arguments has come, and what they are for goes on with them (ECMA-262, ArgumentListEvaluation).
pub fn arguments_listed<S: Store>(
    machine: &mut Machine<S>,
    purpose: Purpose,
    list: Value,
) -> Result<Mode, OutOfMemory>
    ensures { let rest = record machine.old { values = drop (held purpose) machine.old.values } in
        IfOk result (LeadsTo (λ a. let p = party_of a machine.old in
        applied (naming_of machine.old.me) a.shared purpose machine.old.values
        (listed (naming_of machine.old.me) a.shared list p) p) rest machine.new) }
{
    let count = push_listed(machine, &list)?;
    apply(machine, purpose, count)
}

// The arguments of calls, which come on the stack of values one after the other.

ghost use Rattle.std.specs.Prelude.{◌≡◌, ◌+◌, IfOk, drop, get_or};
ghost use Rattle.js_text.specs.Naming.{naming_of};
ghost use Rattle.js_code.specs.Decoded.{no_argument_row};
ghost use Rattle.js_machine.specs.Steps.{LeadsTo};
ghost use Rattle.js_machine.specs.Views.{applied, args_on, below, party_of};
ghost use Rattle.js_machine.specs.declared.frame.Purpose.TheVariants as purpose_kind;

use crate::callees::{call_value, construct_value};
use js_code::node::ArgumentRow;
use js_machine::frame::Mode;
use js_machine::machine::Machine;
use js_store::store::Store;
use lava_base::memory::OutOfMemory;

/// The function below so many arguments is called with them.
pub fn apply_call<S: Store>(machine: &mut Machine<S>, done: u32) -> Result<Mode, OutOfMemory>
    ensures { let args = args_on done machine.old.values in
        let below = drop done machine.old.values in
        let rest = record machine.old { values = drop (done + 2) machine.old.values } in
        IfOk result (LeadsTo (λ a. applied (naming_of machine.old.me) a.shared purpose_kind.Call
        below args (party_of a machine.old)) rest machine.new) }
{
    let args = machine.take_arguments(done)?;
    let callee = machine.take();
    let this = machine.take();
    call_value(machine, callee, this, args)
}

/// The function below so many arguments constructs with them.
pub fn apply_new<S: Store>(machine: &mut Machine<S>, done: u32) -> Result<Mode, OutOfMemory>
    ensures { let args = args_on done machine.old.values in
        let below = drop done machine.old.values in
        let rest = record machine.old { values = drop (done + 1) machine.old.values } in
        IfOk result (LeadsTo (λ a. applied (naming_of machine.old.me) a.shared purpose_kind.New
        below args (party_of a machine.old)) rest machine.new) }
{
    let args = machine.take_arguments(done)?;
    let callee = machine.take();
    construct_value(machine, callee, args)
}

/// The row of a call's arguments.
pub fn argument_row<S: Store>(machine: &Machine<S>, at: u32) -> ArgumentRow
    ensures { result ≡ get_or machine.now.code.arguments at no_argument_row }
{
    machine.code.arguments(at)
}

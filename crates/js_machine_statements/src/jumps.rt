// Jumps.

ghost use Rattle.std.specs.Prelude.{IfOk, None, Some};
ghost use Rattle.js_code.specs.Decoded.{term_at, text_at};
ghost use Rattle.js_machine.specs.js_run.Control.{jump};
ghost use Rattle.js_term.specs.declared.term.Jump.TheVariants as jump_kind;
ghost use Rattle.js_machine.specs.Steps.{LeadsTo};
ghost use Rattle.js_machine.specs.Views.{party_of};

use js_machine::frame::{Frame, Mode};
use js_machine::machine::Machine;
use js_store::store::Store;
use js_text::value::Value;
use lava_base::memory::OutOfMemory;

/// `break` (ECMA-262, "The break Statement").
pub fn begin_break<S: Store>(machine: &mut Machine<S>, label: u32) -> Result<Mode, OutOfMemory>
    ensures { let to = jump_kind.Break (text_at machine.old.code label) in
        IfOk result (LeadsTo (λ a. jump to (party_of a machine.old)) machine.old machine.new) }
{
    Ok(Mode::Break(label))
}

/// `continue` (ECMA-262, "The continue Statement").
pub fn begin_continue<S: Store>(machine: &mut Machine<S>, label: u32) -> Result<Mode, OutOfMemory>
    ensures { let to = jump_kind.Continue (text_at machine.old.code label) in
        IfOk result (LeadsTo (λ a. jump to (party_of a machine.old)) machine.old machine.new) }
{
    Ok(Mode::Continue(label))
}

/// `return` without a value (ECMA-262, "The return Statement").
pub fn begin_return<S: Store>(machine: &mut Machine<S>) -> Result<Mode, OutOfMemory>
    ensures { IfOk result (LeadsTo (λ a. jump (jump_kind.Return None) (party_of a machine.old))
        machine.old machine.new) }
{
    machine.end_with(Value::Undefined, Mode::Return)
}

/// `return` with a value (ECMA-262, "The return Statement").
pub fn begin_return_value<S: Store>(
    machine: &mut Machine<S>,
    value: u32,
) -> Result<Mode, OutOfMemory>
    ensures { let to = jump_kind.Return (Some (term_at machine.old.code value)) in
        IfOk result (LeadsTo (λ a. jump to (party_of a machine.old)) machine.old machine.new) }
{
    machine.wait(Frame::Return, value)
}

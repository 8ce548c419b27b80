// Scopes of blocks, and what leaves them.

ghost use Rattle.std.specs.Prelude.{◌≡◌, IfOk, OnOk, None, true, replicate};
ghost use Rattle.js_code.specs.Decoded.{term_at, text_at};
ghost use Rattle.js_machine.specs.js_run.Acts.{Give, give};
ghost use Rattle.js_machine.specs.js_run.Completions.{Breaks, Continues};
ghost use Rattle.js_machine.specs.js_run.Control.{inside};
ghost use Rattle.js_machine.specs.js_run.Parties.{refreshed};
ghost use Rattle.js_text.specs.declared.value.Value.TheVariants as undefined_value;
ghost use Rattle.js_machine.specs.Steps.{IsDelivered, LeadsTo};
ghost use Rattle.js_machine.specs.Views.{is_completion, party_of, with_copy, with_scope};
ghost use Rattle.js_machine.specs.declared.frame.Frame.TheVariants as frame;
ghost use Rattle.js_machine.specs.declared.frame.Mode.TheVariants as mode_kind;

use crate::slots::stand_in;
use js_machine::frame::{Frame, Mode};
use js_machine::machine::Machine;
use js_store::store::Store;
use js_text::value::Value;
use lava_base::memory::OutOfMemory;

/// The body that runs enters a new scope with so many slots, none of which is initialised.
pub fn enter<S: Store>(machine: &mut Machine<S>, count: u32) -> Result<(), OutOfMemory>
    ensures { OnOk result (machine.new ≡ with_scope (replicate count None) machine.old) }
{
    let outer = machine.standing();
    let scope = machine.scopes.open_empty(outer, count)?;
    stand_in(machine, scope);
    Ok(())
}

/// A form in a new scope.
pub fn begin_scope<S: Store>(
    machine: &mut Machine<S>,
    count: u32,
    body: u32,
) -> Result<Mode, OutOfMemory>
    ensures { let term = term_at machine.old.code body in
        IfOk result (LeadsTo (λ a. inside (replicate count None) term (party_of a machine.old) Give)
        machine.old machine.new) }
{
    let scope = machine.standing();
    enter(machine, count)?;
    machine.wait(Frame::ScopeExit { scope }, body)
}

/// The body that runs enters a copy of the scope where it stands.
fn enter_copy<S: Store>(machine: &mut Machine<S>) -> Result<(), OutOfMemory>
    ensures { OnOk result (machine.new ≡ with_copy machine.old) }
{
    let here = machine.standing();
    let scope = machine.scopes.open_copy(here)?;
    stand_in(machine, scope);
    Ok(())
}

/// A copy of the innermost scope takes its place (ECMA-262, CreatePerIterationEnvironment).
pub fn refresh<S: Store>(machine: &mut Machine<S>) -> Result<Mode, OutOfMemory>
    ensures { IfOk result (LeadsTo (λ a. give undefined_value.Undefined (refreshed (party_of a
        machine.old))) machine.old machine.new) }
{
    enter_copy(machine)?;
    machine.give(Value::Undefined)
}

/// What comes out of a scope leaves the body where it stood.
pub fn exit_scope<S: Store>(machine: &mut Machine<S>, scope: u32, mode: Mode) -> Mode
    requires { is_completion mode ≡ true }
    ensures { IsDelivered (frame.ScopeExit scope) mode machine.old machine.new result }
{
    stand_in(machine, scope);
    mode
}

/// A `break` to a label ends there; every other completion passes it (ECMA-262, "Labelled Statements").
#[tactic(auto, using(js_machine::proofs::Exits::passes_label))]
pub fn deliver_label<S: Store>(
    machine: &mut Machine<S>,
    label: u32,
    mode: Mode,
) -> Result<Mode, OutOfMemory>
    requires { is_completion mode ≡ true }
    ensures { IfOk result (IsDelivered (frame.Label label) mode machine.old machine.new) }
{
    match mode {
        Mode::Break(to) => break_to(machine, label, to),
        _ => Ok(mode),
    }
}

/// A `break` comes to a label.
#[tactic(auto, using(js_machine::proofs::Exits::ends_there, js_machine::proofs::Exits::goes_past))]
fn break_to<S: Store>(machine: &mut Machine<S>, label: u32, to: u32) -> Result<Mode, OutOfMemory>
    ensures { IfOk result (IsDelivered (frame.Label label) (mode_kind.Break to) machine.old
        machine.new) }
{
    let code = &machine.code;
    let same = code.text(to).is_same(code.text(label));
    if same {
        return machine.give(Value::Undefined);
    }
    Ok(Mode::Break(to))
}

/// A `break` to a label begins.
#[tactic(auto, using(js_machine::proofs::Exits::breaks_out))]
pub fn break_out<S: Store>(machine: &mut Machine<S>, label: u32) -> Result<Mode, OutOfMemory>
    ensures { let text = text_at machine.old.code label in
        IfOk result (LeadsTo (λ a. Give (Breaks text) (party_of a machine.old)) machine.old
        machine.new) }
{
    Ok(Mode::Break(label))
}

/// A `continue` to a label begins.
#[tactic(auto, using(js_machine::proofs::Exits::continues_out))]
pub fn continue_out<S: Store>(machine: &mut Machine<S>, label: u32) -> Result<Mode, OutOfMemory>
    ensures { let text = text_at machine.old.code label in
        IfOk result (LeadsTo (λ a. Give (Continues text) (party_of a machine.old)) machine.old
        machine.new) }
{
    Ok(Mode::Continue(label))
}

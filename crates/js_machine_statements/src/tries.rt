// `try`, with what follows it.

ghost use Rattle.std.specs.Prelude.{◌≡◌, ◌∷◌, [], IfOk, OnOk, Some, true};
ghost use Rattle.js_code.specs.Decoded.{term_at};
ghost use Rattle.js_machine.specs.js_run.Acts.{Evaluate, Then};
ghost use Rattle.js_machine.specs.js_run.Control.{finishes, inside, try_ends};
ghost use Rattle.js_machine.specs.Steps.{Follows, GoesOn, IsDelivered, LeadsTo, deed_with, under};
ghost use Rattle.js_machine.specs.Views.{finalizer_of, guarded_at, handler_of, is_completion, party_of, with_scope};
ghost use Rattle.js_machine.specs.declared.frame.Frame.TheVariants as frame;
ghost use Rattle.js_machine.specs.declared.frame.Mode.TheVariants as mode_kind;

use crate::slots::stand_in;
use js_code::node::GuardedRow;
use js_machine::frame::{Frame, Mode};
use js_machine::machine::Machine;
use js_store::store::Store;
use js_text::value::Value;
use lava_base::memory::OutOfMemory;

/// A `try` with what follows it.
pub fn guarded_row<S: Store>(machine: &Machine<S>, at: u32) -> GuardedRow
    ensures { result ≡ guarded_at machine.now.code at }
{
    machine.code.guarded(at)
}

/// `try` (ECMA-262, "The try Statement").
pub fn begin_try<S: Store>(machine: &mut Machine<S>, guarded: u32) -> Result<Mode, OutOfMemory>
    ensures { let term = term_at machine.old.code (guarded_at machine.old.code guarded).body in
        let handler = handler_of machine.old.code guarded in
        let ends = try_ends handler (finalizer_of machine.old.code guarded) in
        IfOk result (LeadsTo (λ a. Evaluate term (party_of a machine.old) (Then ends))
        machine.old machine.new) }
{
    let row = guarded_row(machine, guarded);
    machine.wait(Frame::Guarded { guarded }, row.body)
}

/// What stands last begins, if there is one, and what came is kept meanwhile.
fn finish<S: Store>(machine: &mut Machine<S>, guarded: u32, mode: Mode) -> Result<Mode, OutOfMemory>
    requires { is_completion mode ≡ true }
    ensures { let last = finalizer_of machine.old.code guarded in
        IfOk result (Follows (λ a. finishes last) mode machine.old machine.new) }
{
    match guarded_row(machine, guarded).finalizer {
        Some(last) => machine.wait(Frame::Finally { earlier: mode }, last),
        None => Ok(mode),
    }
}

/// The body that runs enters a new scope with one slot.
fn enter_with<S: Store>(machine: &mut Machine<S>, value: Value) -> Result<(), OutOfMemory>
    ensures { OnOk result (machine.new ≡ with_scope (Some value ∷ []) machine.old) }
{
    let outer = machine.standing();
    let scope = machine.scopes.open_empty(outer, 1)?;
    machine.scopes.write(scope, 0, value);
    stand_in(machine, scope);
    Ok(())
}

/// A handler begins, with what was thrown (ECMA-262, CatchClauseEvaluation).
fn handle<S: Store>(
    machine: &mut Machine<S>,
    guarded: u32,
    handler: u32,
) -> Result<Mode, OutOfMemory>
    ensures { let term = term_at machine.old.code handler in
        let last = finalizer_of machine.old.code guarded in
        IfOk result (GoesOn (λ a v p. inside (Some v ∷ []) term p (finishes last))
        machine.old machine.new) }
{
    let thrown = machine.take();
    let scope = machine.standing();
    enter_with(machine, thrown)?;
    machine.wait(Frame::Handled { guarded, scope }, handler)
}

/// A throw comes out of the body of a `try`.
fn catch_throw<S: Store>(machine: &mut Machine<S>, guarded: u32) -> Result<Mode, OutOfMemory>
    ensures { IfOk result (IsDelivered (frame.Guarded guarded) mode_kind.Throw
        machine.old machine.new) }
{
    match guarded_row(machine, guarded).handler {
        Some(handler) => handle(machine, guarded, handler),
        None => finish(machine, guarded, Mode::Throw),
    }
}

/// What comes out of the body of a `try`.
pub fn deliver_guarded<S: Store>(
    machine: &mut Machine<S>,
    guarded: u32,
    mode: Mode,
) -> Result<Mode, OutOfMemory>
    requires { is_completion mode ≡ true }
    ensures { IfOk result (IsDelivered (frame.Guarded guarded) mode machine.old machine.new) }
{
    match mode {
        Mode::Throw => catch_throw(machine, guarded),
        _ => finish(machine, guarded, mode),
    }
}

/// What comes out of the handler of a `try`.
pub fn deliver_handled<S: Store>(
    machine: &mut Machine<S>,
    guarded: u32,
    scope: u32,
    mode: Mode,
) -> Result<Mode, OutOfMemory>
    requires { is_completion mode ≡ true }
    ensures { let handled = frame.Handled guarded scope in
        IfOk result (IsDelivered handled mode machine.old machine.new) }
{
    stand_in(machine, scope);
    finish(machine, guarded, mode)
}

/// What stands last gave a value, so that the earlier completion stays.
#[tactic(auto, using(crate::proofs::Tried::stays))]
pub fn end_finally<S: Store>(
    machine: &mut Machine<S>,
    earlier: Mode,
    value: Value,
) -> Result<Mode, OutOfMemory>
    ensures { let last = frame.Finally earlier in
        IfOk result (LeadsTo (deed_with last value machine.old) (under last machine.old)
        machine.new) }
{
    if !earlier.is_completion() {
        return Err(OutOfMemory);
    }
    Ok(earlier)
}

// Functions that a form makes, and values that a step of the machine's own gives.

ghost use Rattle.std.specs.Prelude.{◌≡◌, ◌<◌, ℕ, IfSome};
ghost use Rattle.js_code.specs.Decoded.{layer_of, term_at};
ghost use Rattle.js_code.specs.declared.node.Node.TheVariants as node_kind;
ghost use Rattle.js_direct.specs.Direct.{value_of};
ghost use Rattle.js_in_place.specs.Places.{IsWent, at_form, at_mode};
ghost use Rattle.js_machine.specs.Views.{top};
ghost use Rattle.js_machine.specs.declared.frame.Mode.TheVariants as mode_kind;
ghost use Rattle.js_term.specs.declared.term.Term.{out-Term};

use crate::seat::{How, Seat, Went, came, given, led};
use js_direct::plain::{Plain, plain_of};
use js_machine::frame::Mode;
use js_machine::machine::Machine;
use js_store::store::Store;

/// The newest value of the machine, if it is a plain one.
#[inline(always)]
fn newest_plain<S: Store>(machine: &Machine<S>) -> Option<Plain>
    ensures { IfSome result (λ p. top machine.now.values ≡ value_of p) }
{
    let count = machine.values.len();
    if count == 0 {
        return None;
    }
    plain_of(&machine.values[count - 1])
}

/// A value that is given by the machine's own step comes off its stack, where it is a plain one.
#[inline(always)]
fn take_value<S: Store>(machine: &mut Machine<S>, seat: &mut Seat, left: u64) -> Went
    ensures { IsWent (at_mode mode_kind.Value machine.old) left machine.old machine.new seat.new result }
{
    let Some(value) = newest_plain(machine) else {
        return led(seat, Mode::Value, left);
    };
    let _value = machine.take();
    given(seat, value, left)
}

/// What a step of the machine's own led to goes on in place, where that is a plain value or a form.
#[inline(always)]
pub fn go_on_from<S: Store>(
    machine: &mut Machine<S>,
    seat: &mut Seat,
    mode: Mode,
    left: u64,
) -> Went
    ensures { IsWent (at_mode mode machine.old) left machine.old machine.new seat.new result }
{
    match mode {
        Mode::Value => take_value(machine, seat, left),
        _ => led(seat, mode, left),
    }
}

/// A function of the party is made (ECMA-262, "Function Definitions", Evaluation).
#[inline(never)]
pub fn do_function<S: Store>(
    machine: &mut Machine<S>,
    seat: &mut Seat,
    template: u32,
    left: u64,
) -> Went
    requires { 0 < left }
    ensures { (at : ℕ) → let term = term_at machine.old.code in
        out-Term (term at) ≡ layer_of machine.old.code term (node_kind.Func template)
        → IsWent (at_form at machine.old) left machine.old machine.new seat.new result }
{
    let Ok(mode) = machine.begin_function(template) else {
        return came(How::Failed, left);
    };
    go_on_from(machine, seat, mode, left - 1)
}

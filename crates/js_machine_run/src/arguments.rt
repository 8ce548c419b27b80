// The arguments of calls, which come on the stack of values one after the other.

ghost use Rattle.std.specs.Prelude.{◌+◌, ◌++◌, ◌∷◌, [], IfOk, drop};
ghost use Rattle.js_text.specs.Naming.{naming_of};
ghost use Rattle.js_code.specs.Decoded.{arguments_at, term_at, terms_of};
ghost use Rattle.js_machine.specs.js_run.Calls.{calls_with};
ghost use Rattle.js_machine.specs.js_run.Control.{all_values, argument_values};
ghost use Rattle.js_machine.specs.js_run.Rows.{new_callee};
ghost use Rattle.js_machine.specs.Steps.{LeadsTo};
ghost use Rattle.js_machine.specs.Views.{applied, args_on, below, held, party_of, top};

use js_code::node::ArgumentRow;
use js_in_place::js_machine_calls::arguments::{apply_call, apply_new, argument_row};
use js_in_place::js_machine_calls::supers::{apply_super_call, apply_super_new};
use js_machine::frame::{Frame, Mode, Purpose};
use js_machine::machine::Machine;
use js_machine_natives::natives::run_native;
use js_store::store::Store;
use js_text::value::Value;
use lava_base::memory::OutOfMemory;

/// What so many arguments are for goes on with them.
pub fn apply<S: Store>(
    machine: &mut Machine<S>,
    purpose: Purpose,
    done: u32,
) -> Result<Mode, OutOfMemory>
    ensures { let args = args_on done machine.old.values in
        let below = drop done machine.old.values in
        let rest = record machine.old { values = drop (done + held purpose) machine.old.values } in
        IfOk result (LeadsTo (λ a. applied (naming_of machine.old.me) a.shared purpose below args
        (party_of a machine.old)) rest machine.new) }
{
    match purpose {
        Purpose::Call => apply_call(machine, done),
        Purpose::New => apply_new(machine, done),
        Purpose::SuperCall => apply_super_call(machine, done),
        Purpose::SuperNew => apply_super_new(machine, done),
        Purpose::Native { which } => run_native(machine, which, done),
    }
}

/// The next argument is evaluated, where so many are there; what they are for goes on where there is no other (ECMA-262, ArgumentListEvaluation).
pub fn next_argument<S: Store>(
    machine: &mut Machine<S>,
    purpose: Purpose,
    done: u32,
    start: u32,
    left: u32,
) -> Result<Mode, OutOfMemory>
    ensures { let terms = terms_of machine.old.code (term_at machine.old.code) start left in
        let args = args_on done machine.old.values in
        let below = drop done machine.old.values in
        let rest = record machine.old { values = drop (done + held purpose) machine.old.values } in
        IfOk result (LeadsTo (λ a. all_values terms args (party_of a machine.old)
        (applied (naming_of machine.old.me) a.shared purpose below)) rest machine.new) }
{
    let there = machine.listed(start, left)?;
    if there == 0 {
        return apply(machine, purpose, done);
    }
    if start == u32::MAX {
        return Err(OutOfMemory);
    }
    let first = machine.number(start);
    let others = Frame::Arguments {
        purpose,
        done,
        start: start + 1,
        left: left - 1,
    };
    machine.wait(others, first)
}

/// An argument has its value.
pub fn argument_comes<S: Store>(
    machine: &mut Machine<S>,
    purpose: Purpose,
    done: u32,
    start: u32,
    left: u32,
    value: Value,
) -> Result<Mode, OutOfMemory>
    ensures { let terms = terms_of machine.old.code (term_at machine.old.code) start left in
        let args = args_on done machine.old.values ++ value ∷ [] in
        let below = drop done machine.old.values in
        let rest = record machine.old { values = drop (done + held purpose) machine.old.values } in
        IfOk result (LeadsTo (λ a. all_values terms args (party_of a machine.old)
        (applied (naming_of machine.old.me) a.shared purpose below)) rest machine.new) }
{
    if done == u32::MAX {
        return Err(OutOfMemory);
    }
    machine.push(value)?;
    next_argument(machine, purpose, done + 1, start, left)
}

/// The arguments of a call begin.
pub fn begin_arguments<S: Store>(
    machine: &mut Machine<S>,
    purpose: Purpose,
    arguments: u32,
) -> Result<Mode, OutOfMemory>
    ensures { let names = naming_of machine.old.me in
        let arguments = arguments_at machine.old.code (term_at machine.old.code) arguments in
        let rest = record machine.old { values = drop (held purpose) machine.old.values } in
        IfOk result (LeadsTo (λ a. argument_values names a.shared arguments (party_of a machine.old)
        (applied names a.shared purpose machine.old.values)) rest machine.new) }
{
    match argument_row(machine, arguments) {
        ArgumentRow::Listed { start, count } => next_argument(machine, purpose, 0, start, count),
        ArgumentRow::Of(at) => machine.wait(Frame::ArgumentsOf { purpose }, at),
    }
}

/// What is called has its value, and its arguments begin (ECMA-262, EvaluateCall).
pub fn callee_comes<S: Store>(
    machine: &mut Machine<S>,
    this: Value,
    arguments: u32,
    callee: Value,
) -> Result<Mode, OutOfMemory>
    ensures { let names = naming_of machine.old.me in
        let arguments = arguments_at machine.old.code (term_at machine.old.code) arguments in
        IfOk result (LeadsTo (λ a. calls_with names a.shared this arguments callee
        (party_of a machine.old)) machine.old machine.new) }
{
    machine.push(this)?;
    machine.push(callee)?;
    begin_arguments(machine, Purpose::Call, arguments)
}

/// A method has its value, which is called on the newest value (ECMA-262, EvaluateCall, of a property reference).
pub fn method_comes<S: Store>(
    machine: &mut Machine<S>,
    arguments: u32,
    callee: Value,
) -> Result<Mode, OutOfMemory>
    ensures { let names = naming_of machine.old.me in
        let arguments = arguments_at machine.old.code (term_at machine.old.code) arguments in
        let rest = record machine.old { values = below machine.old.values } in
        IfOk result (LeadsTo (λ a. calls_with names a.shared (top machine.old.values) arguments
        callee (party_of a machine.old)) rest machine.new) }
{
    let this = machine.take();
    callee_comes(machine, this, arguments, callee)
}

/// What constructs has its value, and its arguments begin (ECMA-262, EvaluateNew).
pub fn new_callee_comes<S: Store>(
    machine: &mut Machine<S>,
    arguments: u32,
    callee: Value,
) -> Result<Mode, OutOfMemory>
    ensures { let names = naming_of machine.old.me in
        let arguments = arguments_at machine.old.code (term_at machine.old.code) arguments in
        IfOk result (LeadsTo (λ a. new_callee names a.shared arguments callee
        (party_of a machine.old)) machine.old machine.new) }
{
    machine.push(callee)?;
    begin_arguments(machine, Purpose::New, arguments)
}

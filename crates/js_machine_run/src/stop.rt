// How a run stops, and what is charged for.

ghost use Rattle.std.specs.Prelude.{◌≡◌, ◌+◌, ◌≤◌, nat_lt};
ghost use Rattle.js_machine.specs.js_run.Runs.{charge, is_past};
ghost use Rattle.js_machine.specs.declared.stop.Charge.TheVariants as charge_kind;
ghost use Rattle.js_machine.specs.declared.frame.Mode.TheVariants as mode_kind;
ghost use Rattle.js_text.specs.Naming.{naming_of};
ghost use Rattle.js_machine.specs.Looks.{foreign_in};
ghost use Rattle.js_machine.specs.Stops.{ask_stop, charge_of, cost_of, stop_at};

use js_machine::frame::{Mode, halt_coded};
use js_machine::machine::Machine;
use js_machine::stop::{Charge, Pause, Stop};
use js_store::store::Store;

/// Whether a cost would pass a bound.
fn passes(bound: u64, steps: u64, cost: u64) -> bool
    ensures { result ≡ nat_lt bound (steps + cost) }
{
    steps > bound || cost > bound - steps
}

/// Whether a cost would pass a meter, if there is one.
fn passes_meter(meter: Option<u64>, steps: u64, cost: u64) -> bool
    ensures { result ≡ is_past meter (steps + cost) }
{
    match meter {
        None => false,
        Some(bound) => passes(bound, steps, cost),
    }
}

/// A charge of so much: the meter ends the run, and else the limit refuses it.
pub fn charge_steps(meter: Option<u64>, steps: u64, limit: u64, cost: u64) -> Charge
    ensures charge { charge_of result ≡ charge meter steps limit cost }
    ensures fits { result ≡ charge_kind.Charged → steps + cost ≤ limit }
{
    if passes_meter(meter, steps, cost) {
        return Charge::Stops;
    }
    if passes(limit, steps, cost) {
        return Charge::Lacks;
    }
    Charge::Charged
}

/// What is to be paid for an ask that is decided here.
fn ask_cost<S: Store>(machine: &Machine<S>) -> Option<u32>
    ensures { result ≡ cost_of machine.now mode_kind.Ask }
{
    match machine.sent_to() {
        None => Some(0),
        Some(_) => None,
    }
}

/// What is to be paid for what is next, without the one of each charge; none where nothing is
/// due.
pub fn cost<S: Store>(machine: &Machine<S>, mode: Mode) -> Option<u32>
    ensures { result ≡ cost_of machine.now mode }
{
    match mode {
        Mode::Eval(_) => Some(0),
        Mode::Ask => ask_cost(machine),
        Mode::Pay(cost) | Mode::Serve(cost) => Some(cost),
        _ => None,
    }
}

/// How a run stops at an ask.
fn stop_ask<S: Store>(machine: &Machine<S>, steps: u64) -> Stop
    ensures { let there = foreign_in (naming_of machine.now.me) machine.now.asked.target in
        result ≡ ask_stop there steps }
{
    match machine.sent_to() {
        None => Stop::Short { steps },
        Some(target) => Stop::Sent { target, steps },
    }
}

/// How a run stops where nothing is charged for.
pub fn stop_at<S: Store>(machine: &Machine<S>, mode: Mode, pause: Pause) -> Stop
    ensures { result ≡ stop_at machine.now mode pause }
{
    let steps = pause.steps;
    match mode {
        Mode::Eval(_) | Mode::Pay(_) | Mode::Serve(_) => Stop::Short { steps },
        Mode::Ask => stop_ask(machine, steps),
        Mode::End(number) => Stop::Stopped {
            halt: halt_coded(number),
            steps,
        },
        Mode::Import => Stop::Imports { steps },
        Mode::Outside => Stop::Outside(pause),
        _ => Stop::Gave { mode, steps },
    }
}

// Runs: charges, and what each leads to.

ghost use Rattle.std.specs.Prelude.{◌≡◌, ◌+◌, ◌<◌, ◌≤◌, [], IfOk, None, true};
ghost use Rattle.js_machine.specs.js_run.Runs.{Charged, charge};
ghost use Rattle.js_machine.specs.Stops.{IsRun, RunsFor, RunsOn};
ghost use Rattle.js_machine.specs.declared.frame.Mode.TheVariants as mode_kind;
ghost use Rattle.js_machine.specs.Views.{is_handed};
ghost use Rattle.js_machine_run.specs.Going.{GoesOnTo, IsNext};

use crate::steps::{settle, work};
use crate::stop::{charge_steps, cost, stop_at};
use js_in_place::js_direct::plain::as_value;
use js_in_place::run::begin_in_place;
use js_in_place::spot::Spot;
use js_machine::frame::{Halt, Mode};
use js_machine::machine::Machine;
use js_machine::stop::{Charge, Pause, Stop};
use js_store::store::Store;
use lava_base::memory::OutOfMemory;

/// How many charges a run may make that is free of charge.
pub const FREE_CHARGES: u64 = 1000;

/// A mode, and how many steps it took to come there.
#[derive(Clone, Copy)]
struct Went {
    mode: Mode,
    used: u64,
}

/// How many steps can be paid.
#[inline]
fn affordable(meter: Option<u64>, spent: u64, limit: u64, left: u64) -> u64
    ensures within { result ≤ left }
    ensures fits { 0 < result → spent + result ≤ limit }
    ensures paid { 0 < result → charge meter spent limit result ≡ Charged }
{
    let within = limit.saturating_sub(spent).min(left);
    let most = match meter {
        Some(bound) => bound.saturating_sub(spent).min(within),
        None => within,
    };
    if most == 0 {
        return 0;
    }
    match charge_steps(meter, spent, limit, most) {
        Charge::Charged => most,
        _ => 0,
    }
}

/// What stands at a place is next.
#[inline]
fn resumed<S: Store>(machine: &mut Machine<S>, spot: Spot) -> Result<Mode, OutOfMemory>
    ensures { IfOk result (IsNext spot machine.old machine.new) }
{
    match spot {
        Spot::Form(at) => Ok(Mode::Eval(at)),
        Spot::Given(value) => machine.give(as_value(value)),
        Spot::Other(mode) => Ok(mode),
    }
}

/// A form begins, and the run goes on in place as far as its steps can be paid.
#[inline]
fn go_in_place<S: Store>(
    machine: &mut Machine<S>,
    at: u32,
    meter: Option<u64>,
    spent: u64,
    limit: u64,
    left: u64,
) -> Result<Went, OutOfMemory>
    ensures within { IfOk result (λ w. w.used ≤ left) }
    ensures fits { IfOk result (λ w. 0 < w.used → spent + w.used ≤ limit) }
    ensures goes { IfOk result (λ w. GoesOnTo meter spent limit w.used (mode_kind.Eval at)
        machine.old machine.new w.mode) }
{
    let mode = Mode::Eval(at);
    let most = affordable(meter, spent, limit, left);
    if most == 0 {
        return Ok(Went { mode, used: 0 });
    }
    let stand = begin_in_place(machine, at, most)?;
    let used = most - stand.left;
    let mode = resumed(machine, stand.spot)?;
    Ok(Went { mode, used })
}

/// Completions are handed on, and then the run goes on in place as far as its steps can be paid.
#[inline]
fn advance<S: Store>(
    machine: &mut Machine<S>,
    mode: Mode,
    meter: Option<u64>,
    spent: u64,
    limit: u64,
    left: u64,
) -> Result<Went, OutOfMemory>
    ensures within { IfOk result (λ w. w.used ≤ left) }
    ensures fits { IfOk result (λ w. 0 < w.used → spent + w.used ≤ limit) }
    ensures goes { IfOk result (λ w. GoesOnTo meter spent limit w.used mode
        machine.old machine.new w.mode) }
    ensures settled { IfOk result (λ w. is_handed w.mode ≡ true → machine.new.frames ≡ []) }
{
    let mode = settle(machine, mode)?;
    let Mode::Eval(at) = mode else {
        return Ok(Went { mode, used: 0 });
    };
    let went = go_in_place(machine, at, meter, spent, limit, left)?;
    let mode = settle(machine, went.mode)?;
    Ok(Went {
        mode,
        used: went.used,
    })
}

/// What is left of a run.
fn paused(charges: u64, limit: u64, steps: u64) -> Pause
    ensures { let told = None in
        result ≡ record { charges = charges; limit = limit; steps = steps; told = told } }
{
    Pause {
        charges,
        limit,
        steps,
        told: None,
    }
}

/// At most so many charges, and steps up to the limit. Forms that the run goes through in place are paid together.
fn run_for<S: Store>(
    machine: &mut Machine<S>,
    charges: u64,
    meter: Option<u64>,
    limit: u64,
    steps: u64,
    mode: Mode,
) -> Result<Stop, OutOfMemory>
    ensures { IfOk result (RunsFor meter charges limit steps mode machine.old machine.new) }
{
    let mut mode = mode;
    let mut spent = steps;
    let mut left = charges;
    while left > 0 {
        let went = advance(machine, mode, meter, spent, limit, left)?;
        mode = went.mode;
        if went.used > 0 {
            spent += went.used;
            left -= went.used;
            continue;
        }
        let Some(cost) = cost(machine, mode) else {
            return Ok(stop_at(machine, mode, paused(left, limit, spent)));
        };
        let price = u64::from(cost) + 1;
        match charge_steps(meter, spent, limit, price) {
            Charge::Charged => {
                spent += price;
                left -= 1;
                mode = work(machine, mode)?;
            }
            Charge::Lacks => return Ok(Stop::Short { steps: spent }),
            Charge::Stops => {
                let halt = Halt::Meter;
                return Ok(Stop::Stopped { halt, steps: spent });
            }
        }
    }
    mode = settle(machine, mode)?;
    Ok(stop_at(machine, mode, paused(0, limit, spent)))
}

/// Runs until the body is over, the run ends, or the limit lacks what is to be paid. A run that
/// is free of charge has a bound of its own, and leaves the steps as they are.
pub fn run<S: Store>(
    machine: &mut Machine<S>,
    free: bool,
    meter: Option<u64>,
    limit: u64,
    steps: u64,
    mode: Mode,
) -> Result<Stop, OutOfMemory>
    requires { limit < 18446744073709551615 }
    ensures { IfOk result (IsRun free meter limit steps mode machine.old machine.new) }
{
    if free {
        let stop = run_for(machine, FREE_CHARGES, meter, FREE_CHARGES, 0, mode)?;
        return Ok(stop.with_steps(steps));
    }
    run_for(
        machine,
        limit.saturating_sub(steps) + 1,
        meter,
        limit,
        steps,
        mode,
    )
}

/// Runs on after a pause, once the outside has answered.
pub fn run_on<S: Store>(
    machine: &mut Machine<S>,
    meter: Option<u64>,
    pause: Pause,
    mode: Mode,
) -> Result<Stop, OutOfMemory>
    ensures { IfOk result (RunsOn meter pause mode machine.old machine.new) }
{
    let stop = run_for(
        machine,
        pause.charges,
        meter,
        pause.limit,
        pause.steps,
        mode,
    )?;
    Ok(stop.told(pause.told))
}

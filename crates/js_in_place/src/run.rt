// Runs that go on in place.

ghost use Rattle.std.specs.Prelude.{◌<◌, IfOk};
ghost use Rattle.js_direct.specs.Direct.{GivesAtOnce, value_of};
ghost use Rattle.js_in_place.specs.InPlace.{RunsTo, sight_of};
ghost use Rattle.js_in_place.specs.declared.spot.Spot.TheVariants as spot_kind;

use crate::deliver::deliver;
use crate::form::{MOST_DEEP, do_form};
use crate::here::value_from;
use crate::spot::{Spot, Stand, at_form, at_value, stopped_at};
use crate::stands::{new_seat, stand_of};
use js_code::node::Node;
use js_direct::plain::Plain;
use js_machine::machine::Machine;
use js_store::store::Store;
use lava_base::memory::OutOfMemory;

/// How much a run does in place at most before it looks up.
pub const EVENTS: u32 = 1000000;

/// A form that gives a value at once, where its steps can be paid; else it is to begin still.
#[inline]
fn value_here<S: Store>(machine: &Machine<S>, at: u32, left: u64) -> Stand
    ensures { RunsTo (spot_kind.Form at) left machine.now machine.now result }
{
    let mut given = Plain::Undefined;
    let steps = value_from(machine, at, &mut given);
    let price = u64::from(steps);
    if price == 0 || price > left {
        return stopped_at(Spot::Form(at), left);
    }
    at_value(given, left - price)
}

/// A form goes as far as it gets.
fn begin<S: Store>(machine: &mut Machine<S>, at: u32, left: u64) -> Result<Stand, OutOfMemory>
    ensures { IfOk result (RunsTo (spot_kind.Form at) left machine.old machine.new) }
{
    let mut seat = new_seat(at);
    let step = do_form(machine, &mut seat, at, left, MOST_DEEP);
    stand_of(seat, step)
}

/// A form begins, or a value comes to the newest frame.
#[inline]
fn follow<S: Store>(machine: &mut Machine<S>, stand: Stand) -> Result<Stand, OutOfMemory>
    ensures { IfOk result (RunsTo stand.spot stand.left machine.old machine.new) }
{
    match stand.spot {
        Spot::Form(at) => begin(machine, at, stand.left),
        Spot::Given(value) => deliver(machine, value, stand.left),
        Spot::Other(_) => Ok(stopped_at(stand.spot, stand.left)),
    }
}

/// Goes on in place as far as that can be done and paid.
#[inline(never)]
#[tactic(auto, using(crate::proofs::Gone::still))]
pub fn run_in_place<S: Store>(machine: &mut Machine<S>, stand: Stand) -> Result<Stand, OutOfMemory>
    ensures { IfOk result (RunsTo stand.spot stand.left machine.old machine.new) }
{
    let mut stand = stand;
    for _i in 0..EVENTS {
        stand = follow(machine, stand)?;
        if !stand.further {
            return Ok(stand);
        }
    }
    Ok(stand)
}

/// A form begins in place, where it is one of those that are done so; else it is to begin still.
#[inline]
pub fn begin_in_place<S: Store>(
    machine: &mut Machine<S>,
    at: u32,
    left: u64,
) -> Result<Stand, OutOfMemory>
    ensures { IfOk result (RunsTo (spot_kind.Form at) left machine.old machine.new) }
{
    match machine.code.node(at) {
        Node::Seq { .. }
        | Node::Scope { .. }
        | Node::Fresh
        | Node::Loop { .. }
        | Node::If { .. }
        | Node::IfElse { .. }
        | Node::SetLocal { .. }
        | Node::Init { .. }
        | Node::Put { .. }
        | Node::Binary { .. }
        | Node::Call { .. }
        | Node::Return
        | Node::ReturnValue { .. } => run_in_place(machine, at_form(at, left)),
        Node::Undefined
        | Node::Null
        | Node::Bool(_)
        | Node::Int(_)
        | Node::Local { .. }
        | Node::Unary { .. }
        | Node::Get { .. } => Ok(value_here(machine, at, left)),
        _ => Ok(stopped_at(Spot::Form(at), left)),
    }
}

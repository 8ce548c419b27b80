// A run of all parties over the outside.

ghost use Rattle.std.specs.Prelude.{◌≡◌, [], ℕ, List, Option, IfOk};
ghost use Rattle.lava_host.specs.Hosts.{host_world, HostWorld};
ghost use Rattle.js_world.specs.Worlds.{WorldView};
ghost use Rattle.js_world.specs.js_crossing.declared.ending.Turn.TheVariants as turn;
ghost use Rattle.lava_driver.specs.Ran.{HasComeTo, HasRun, IsUnderway, counted};
ghost use Rattle.lava_driver.specs.Talks.{IsTalk, Talk, talk_of};
ghost use Rattle.lava_host.specs.declared.fault.Which.{Which};

use crate::answers::{Answered, ask_host};
use js_world::js_crossing::ending::{Ending, Turn};
use js_world::js_machine::frame::Mode;
use js_world::js_machine::outside::HostAnswer;
use js_world::js_machine::requests::text_of;
use js_world::js_machine::stop::Pause;
use js_world::js_machine_modules::outside::newest_call;
use js_world::world::FlatWorld;
use lava_base::memory::OutOfMemory;
use lava_host::fault::Which;
use lava_host::host::Host;
use lava_streams::clock::Clock;
use lava_streams::folder::Folder;
use lava_streams::sink::Sink;
use lava_streams::source::Source;
use std::alloc::Global;

/// How a run has ended, the object of the outside that failed, if one did, and how many crossings its journal has.
#[derive(Clone, Copy)]
pub struct Ran {
    pub ending: Ending,
    pub failed: Option<Which>,
    pub crossings: u64,
}

/// What is next, and the object of the outside that failed, if one did.
#[derive(Clone, Copy)]
pub(crate) struct Step {
    pub turn: Turn,
    pub failed: Option<Which>,
}

/// What is next, and how many crossings there were.
#[derive(Clone, Copy)]
struct Stage {
    step: Step,
    crossings: u64,
}

/// The count of crossings with the one by which a turn came, if there is one. Want of memory is
/// answered after 18,446,744,073,709,551,615 of them.
fn count_turn(crossings: u64, turn: Turn) -> Result<u64, OutOfMemory>
    ensures { IfOk result (λ n. n ≡ counted turn crossings) }
{
    match turn {
        Turn::Runs(_) | Turn::Over(Ending::Done) | Turn::Over(Ending::Uncaught) => {
            match crossings.checked_add(1) {
                Some(more) => Ok(more),
                None => Err(OutOfMemory),
            }
        }
        Turn::Over(Ending::Budget(_)) | Turn::Over(Ending::Fault(_, _)) | Turn::Asks(_) => {
            Ok(crossings)
        }
    }
}

/// The host's first import is sent, which is the first crossing.
fn begin(alloc: Global, world: &mut FlatWorld) -> Result<Mode, OutOfMemory>
    requires { world.now.machine.frames ≡ [] }
    ensures { IfOk result (λ m. IsUnderway world.old [] world.new (turn.Runs m) 1) }
{
    world.begin(alloc)
}

/// The machine runs on to its next crossing.
fn go_on(world: &mut FlatWorld, mode: Mode, stage: Stage) -> Result<Stage, OutOfMemory>
    ensures underway { (first : WorldView) → (talks : List Talk) →
        IsUnderway first talks world.old (turn.Runs mode) stage.crossings →
        IfOk result (λ s. IsUnderway first talks world.new s.step.turn s.crossings) }
    ensures failed { IfOk result (λ s. s.step.failed ≡ stage.step.failed) }
{
    let turn = world.cross(mode)?;
    let crossings = count_turn(stage.crossings, turn)?;
    Ok(Stage {
        step: Step {
            turn,
            failed: stage.step.failed,
        },
        crossings,
    })
}

/// What the party in the machine is answered that has called the outside. Only the host has an answer.
pub(crate) fn answer_of_call<F: Folder, I: Source, O: Sink, E: Sink, C: Clock>(
    world: &FlatWorld,
    host: &mut Host,
    alloc: Global,
    emit: bool,
    dir: &str,
    folder: &mut F,
    input: &mut I,
    out: &mut O,
    err: &mut E,
    clock: &mut C,
) -> Result<Answered, OutOfMemory>
    ensures { let talk = talk_of world.now in
        let before = host_world (F.Folder.stand folder.old) (I.Source.stand input.old)
        (O.Sink.stand out.old) (E.Sink.stand err.old) (C.Clock.stand clock.old) in
        let after = host_world (F.Folder.stand folder.new) (I.Source.stand input.new)
        (O.Sink.stand out.new) (E.Sink.stand err.new) (C.Clock.stand clock.new) in
        IfOk result (λ x. let t = talk x.answer x.failed in
        IsTalk emit dir.now t.party t before after) }
{
    if world.machine().party().0 != 0 {
        return Ok(Answered {
            answer: HostAnswer::Fails(text_of(alloc, &[])?),
            failed: None,
        });
    }
    match newest_call(world.machine()) {
        Some(call) => ask_host(host, alloc, call, emit, dir, folder, input, out, err, clock),
        None => Err(OutOfMemory),
    }
}

/// The machine goes on with the outside's answer, to its next crossing.
fn answer<F: Folder, I: Source, O: Sink, E: Sink, C: Clock>(
    world: &mut FlatWorld,
    pause: Pause,
    crossings: u64,
    host: &mut Host,
    alloc: Global,
    emit: bool,
    dir: &str,
    folder: &mut F,
    input: &mut I,
    out: &mut O,
    err: &mut E,
    clock: &mut C,
) -> Result<Stage, OutOfMemory>
    ensures { (first : WorldView) → (start : HostWorld) → (earlier : Option Which) →
        let before = host_world (F.Folder.stand folder.old) (I.Source.stand input.old)
        (O.Sink.stand out.old) (E.Sink.stand err.old) (C.Clock.stand clock.old) in
        let after = host_world (F.Folder.stand folder.new) (I.Source.stand input.new)
        (O.Sink.stand out.new) (E.Sink.stand err.new) (C.Clock.stand clock.new) in
        HasComeTo emit dir.now first start world.old (turn.Asks pause) earlier crossings before →
        IfOk result (λ s. HasComeTo emit dir.now first start world.new s.step.turn s.step.failed
        s.crossings after) }
{
    let answered = answer_of_call(
        world, host, alloc, emit, dir, folder, input, out, err, clock,
    )?;
    let failed = answered.failed;
    let turn = world.answer(pause, answered.answer)?;
    let crossings = count_turn(crossings, turn)?;
    Ok(Stage {
        step: Step { turn, failed },
        crossings,
    })
}

/// The machine goes on from where it stands, which is not the end.
fn go_further<F: Folder, I: Source, O: Sink, E: Sink, C: Clock>(
    world: &mut FlatWorld,
    stage: Stage,
    host: &mut Host,
    alloc: Global,
    emit: bool,
    dir: &str,
    folder: &mut F,
    input: &mut I,
    out: &mut O,
    err: &mut E,
    clock: &mut C,
) -> Result<Stage, OutOfMemory>
    ensures { (first : WorldView) → (start : HostWorld) →
        let before = host_world (F.Folder.stand folder.old) (I.Source.stand input.old)
        (O.Sink.stand out.old) (E.Sink.stand err.old) (C.Clock.stand clock.old) in
        let after = host_world (F.Folder.stand folder.new) (I.Source.stand input.new)
        (O.Sink.stand out.new) (E.Sink.stand err.new) (C.Clock.stand clock.new) in
        HasComeTo emit dir.now first start world.old stage.step.turn stage.step.failed
        stage.crossings before →
        IfOk result (λ s. HasComeTo emit dir.now first start world.new s.step.turn s.step.failed
        s.crossings after) }
{
    match stage.step.turn {
        Turn::Over(_) => Ok(stage),
        Turn::Runs(mode) => go_on(world, mode, stage),
        Turn::Asks(pause) => answer(
            world,
            pause,
            stage.crossings,
            host,
            alloc,
            emit,
            dir,
            folder,
            input,
            out,
            err,
            clock,
        ),
    }
}

/// Runs all parties from the host's first import to the end.
pub fn run<F: Folder, I: Source, O: Sink, E: Sink, C: Clock>(
    world: &mut FlatWorld,
    alloc: Global,
    emit: bool,
    dir: &str,
    folder: &mut F,
    input: &mut I,
    out: &mut O,
    err: &mut E,
    clock: &mut C,
) -> Result<Ran, OutOfMemory>
    requires { world.now.machine.frames ≡ [] }
    ensures { let before = host_world (F.Folder.stand folder.old) (I.Source.stand input.old)
        (O.Sink.stand out.old) (E.Sink.stand err.old) (C.Clock.stand clock.old) in
        let after = host_world (F.Folder.stand folder.new) (I.Source.stand input.new)
        (O.Sink.stand out.new) (E.Sink.stand err.new) (C.Clock.stand clock.new) in
        IfOk result (λ r. HasRun emit dir.now world.old before world.new r after) }
{
    let mut host = Host::new(alloc);
    let mut stage = Stage {
        step: Step {
            turn: Turn::Runs(begin(alloc, world)?),
            failed: None,
        },
        crossings: 1,
    };
    for _i in 0..u64::MAX {
        if let Turn::Over(ending) = stage.step.turn {
            return Ok(Ran {
                ending,
                failed: stage.step.failed,
                crossings: stage.crossings,
            });
        }
        stage = go_further(
            world, stage, &mut host, alloc, emit, dir, folder, input, out, err, clock,
        )?;
    }
    Err(OutOfMemory)
}

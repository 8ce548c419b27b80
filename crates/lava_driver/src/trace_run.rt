// A run that is traced: the line of each crossing is written as it happens, and the whole is put to the output at the end.

ghost use Rattle.std.specs.Prelude.{◌≡◌, ℕ, [], List, Option, length, IfOk, OnOk, Some};
ghost use Rattle.lava_host.specs.Hosts.{host_world, HostWorld};
ghost use Rattle.lava_host.specs.declared.fault.Which.{Which};
ghost use Rattle.lava_ranges.specs.Starts.{MayBeginTrace};
ghost use Rattle.js_world.specs.Worlds.{WorldView, ending_of};
ghost use Rattle.js_world.specs.js_crossing.declared.ending.Turn.TheVariants as turn;
ghost use Rattle.lava_driver.specs.Talks.{Talk};
ghost use Rattle.lava_driver.specs.Traces.{HasTraced, HasTracedTo, IsFinished, IsTracing, PutsText, ending_told, trace_start};

use crate::run::{Ran, Step, answer_of_call};
use crate::trace::Tracer;
use js_desc::ending::Ending as ToldEnding;
use js_world::js_crossing::ending::{Ending, Turn};
use js_world::js_machine::frame::{Halt, Mode};
use js_world::js_machine::stop::Pause;
use js_world::world::FlatWorld;
use lava_base::ids::PartyId;
use lava_base::list::List;
use lava_base::memory::OutOfMemory;
use lava_base::name::Name;
use lava_host::fault::Which;
use lava_host::host::Host;
use lava_ranges::start::may_begin;
use lava_streams::clock::Clock;
use lava_streams::folder::Folder;
use lava_streams::sink::Sink;
use lava_streams::source::Source;
use std::alloc::Global;

/// How a run that was traced has ended, the object of the outside that failed, if one did, and how many crossings it had.
#[derive(Clone, Copy)]
pub struct Traced {
    pub ending: Ending,
    pub failed: Option<Which>,
    pub crossings: u64,
}

/// The host's first import is sent, and its line is written.
fn begin(alloc: Global, world: &mut FlatWorld, tracer: &mut Tracer) -> Result<Mode, OutOfMemory>
    requires { world.now.machine.frames ≡ [] }
    ensures { (parties : List (List ℕ)) → tracer.old ≡ trace_start parties →
        IfOk result (λ m. IsTracing parties world.old [] world.new (turn.Runs m) tracer.new) }
{
    world.trace();
    let mode = world.begin(alloc)?;
    tracer.write(world)?;
    Ok(mode)
}

/// The machine runs on to its next crossing, whose line is written.
fn go_on(world: &mut FlatWorld, tracer: &mut Tracer, mode: Mode) -> Result<Turn, OutOfMemory>
    ensures { (parties : List (List ℕ)) → (first : WorldView) → (talks : List Talk) →
        IsTracing parties first talks world.old (turn.Runs mode) tracer.old →
        IfOk result (λ t. IsTracing parties first talks world.new t tracer.new) }
{
    let turn = world.cross(mode)?;
    tracer.note(world, turn)?;
    Ok(turn)
}

/// The machine goes on with the outside's answer, and the line of the crossing is written, where it comes to one. What `console` prints goes nowhere.
fn answer<F: Folder, I: Source, O: Sink, E: Sink, C: Clock>(
    world: &mut FlatWorld,
    tracer: &mut Tracer,
    pause: Pause,
    host: &mut Host,
    alloc: Global,
    dir: &str,
    folder: &mut F,
    input: &mut I,
    out: &mut O,
    err: &mut E,
    clock: &mut C,
) -> Result<Step, OutOfMemory>
    ensures { (parties : List (List ℕ)) → (first : WorldView) → (start : HostWorld) →
        (earlier : Option Which) →
        let before = host_world (F.Folder.stand folder.old) (I.Source.stand input.old)
        (O.Sink.stand out.old) (E.Sink.stand err.old) (C.Clock.stand clock.old) in
        let after = host_world (F.Folder.stand folder.new) (I.Source.stand input.new)
        (O.Sink.stand out.new) (E.Sink.stand err.new) (C.Clock.stand clock.new) in
        HasTracedTo parties dir.now first start world.old (turn.Asks pause) earlier tracer.old
        before →
        IfOk result (λ s. HasTracedTo parties dir.now first start world.new s.turn s.failed
        tracer.new after) }
{
    let answered = answer_of_call(
        world, host, alloc, false, dir, folder, input, out, err, clock,
    )?;
    let failed = answered.failed;
    let turn = world.answer(pause, answered.answer)?;
    tracer.note(world, turn)?;
    Ok(Step { turn, failed })
}

/// The machine goes on from where it stands, which is not the end.
fn go_further<F: Folder, I: Source, O: Sink, E: Sink, C: Clock>(
    world: &mut FlatWorld,
    tracer: &mut Tracer,
    step: Step,
    host: &mut Host,
    alloc: Global,
    dir: &str,
    folder: &mut F,
    input: &mut I,
    out: &mut O,
    err: &mut E,
    clock: &mut C,
) -> Result<Step, OutOfMemory>
    ensures { (parties : List (List ℕ)) → (first : WorldView) → (start : HostWorld) →
        let before = host_world (F.Folder.stand folder.old) (I.Source.stand input.old)
        (O.Sink.stand out.old) (E.Sink.stand err.old) (C.Clock.stand clock.old) in
        let after = host_world (F.Folder.stand folder.new) (I.Source.stand input.new)
        (O.Sink.stand out.new) (E.Sink.stand err.new) (C.Clock.stand clock.new) in
        HasTracedTo parties dir.now first start world.old step.turn step.failed tracer.old before →
        IfOk result (λ s. HasTracedTo parties dir.now first start world.new s.turn s.failed
        tracer.new after) }
{
    match step.turn {
        Turn::Over(_) => Ok(step),
        Turn::Runs(mode) => {
            let turn = go_on(world, tracer, mode)?;
            Ok(Step {
                turn,
                failed: step.failed,
            })
        }
        Turn::Asks(pause) => answer(
            world, tracer, pause, host, alloc, dir, folder, input, out, err, clock,
        ),
    }
}

/// Runs all parties from the host's first import to the end, and writes the line of each crossing as it happens.
fn run_traced<F: Folder, I: Source, O: Sink, E: Sink, C: Clock>(
    world: &mut FlatWorld,
    tracer: &mut Tracer,
    alloc: Global,
    dir: &str,
    folder: &mut F,
    input: &mut I,
    out: &mut O,
    err: &mut E,
    clock: &mut C,
) -> Result<Ran, OutOfMemory>
    requires { world.now.machine.frames ≡ [] }
    ensures traced { (parties : List (List ℕ)) → tracer.old ≡ trace_start parties →
        let before = host_world (F.Folder.stand folder.old) (I.Source.stand input.old)
        (O.Sink.stand out.old) (E.Sink.stand err.old) (C.Clock.stand clock.old) in
        let after = host_world (F.Folder.stand folder.new) (I.Source.stand input.new)
        (O.Sink.stand out.new) (E.Sink.stand err.new) (C.Clock.stand clock.new) in
        IfOk result (λ r. HasTracedTo parties dir.now world.old before world.new
        (turn.Over r.ending) r.failed tracer.new after) }
    ensures crossings { IfOk result (λ r. r.crossings ≡ tracer.new.count) }
{
    let mut host = Host::new(alloc);
    let mut step = Step {
        turn: Turn::Runs(begin(alloc, world, tracer)?),
        failed: None,
    };
    for _i in 0..u64::MAX {
        if let Turn::Over(ending) = step.turn {
            return Ok(Ran {
                ending,
                failed: step.failed,
                crossings: tracer.count(),
            });
        }
        step = go_further(
            world, tracer, step, &mut host, alloc, dir, folder, input, out, err, clock,
        )?;
    }
    Err(OutOfMemory)
}

/// How a run ended, as its trace tells it. Want of memory is answered where a meter ended it: no party has one.
fn ending_told(ending: Ending) -> Result<ToldEnding, OutOfMemory>
    ensures { IfOk result (λ told. ending_told (ending_of ending) ≡ Some told) }
{
    match ending {
        Ending::Done => Ok(ToldEnding::Done),
        Ending::Uncaught => Ok(ToldEnding::Uncaught),
        Ending::Budget(party) => Ok(ToldEnding::Budget(PartyId(party))),
        Ending::Fault(party, Halt::Number) => Ok(ToldEnding::Number(PartyId(party))),
        Ending::Fault(party, Halt::Text) => Ok(ToldEnding::Text(PartyId(party))),
        Ending::Fault(party, Halt::Depth) => Ok(ToldEnding::Depth(PartyId(party))),
        Ending::Fault(_, Halt::Meter) => Err(OutOfMemory),
        Ending::Fault(_, Halt::Outside) => Ok(ToldEnding::Outside),
    }
}

/// Puts a text to the output in one piece, and says which object of the outside has failed by then.
fn put_text<O: Sink>(out: &mut O, text: &[u8], failed: Option<Which>) -> Option<Which>
    ensures { let before = O.Sink.stand out.old in
        let after = O.Sink.stand out.new in
        PutsText text.now failed result before after }
{
    match out.put(text) {
        Ok(()) => failed,
        Err(_) => match failed {
            Some(which) => Some(which),
            None => Some(Which::Output),
        },
    }
}

/// The last lines of a trace are written, and the whole is put to the output.
fn finish<O: Sink>(
    world: &FlatWorld,
    tracer: &mut Tracer,
    alloc: Global,
    ran: Ran,
    out: &mut O,
) -> Result<Traced, OutOfMemory>
    ensures { let before = O.Sink.stand out.old in
        let after = O.Sink.stand out.new in
        IfOk result (IsFinished world.now ran tracer.old before after) }
{
    let told = ending_told(ran.ending)?;
    tracer.end(alloc, world.steps(), told)?;
    let failed = put_text(out, tracer.text(), ran.failed);
    Ok(Traced {
        ending: ran.ending,
        failed,
        crossings: tracer.count(),
    })
}

/// So many parties have steps. Want of memory is answered where there are others.
pub fn as_many(world: &FlatWorld, count: usize) -> Result<(), OutOfMemory>
    ensures { OnOk result (length world.now.steps ≡ count) }
{
    if world.steps().len() != count {
        return Err(OutOfMemory);
    }
    Ok(())
}

/// The names of the parties begin a trace. Want of memory is answered where they do not.
fn begin_a_trace(alloc: Global, parties: &List<Name>) -> Result<(), OutOfMemory>
    ensures { OnOk result (MayBeginTrace parties.now) }
{
    if may_begin(alloc, parties)? {
        return Ok(());
    }
    Err(OutOfMemory)
}

/// Runs all parties from the host's first import to the end, and puts the trace of that to the output, in one piece at the end. What `console` prints goes nowhere.
pub fn trace_run<F: Folder, I: Source, O: Sink, E: Sink, C: Clock>(
    world: &mut FlatWorld,
    alloc: Global,
    parties: &List<Name>,
    dir: &str,
    folder: &mut F,
    input: &mut I,
    out: &mut O,
    err: &mut E,
    clock: &mut C,
) -> Result<Traced, OutOfMemory>
    requires { world.now.machine.frames ≡ [] }
    ensures { let before = host_world (F.Folder.stand folder.old) (I.Source.stand input.old)
        (O.Sink.stand out.old) (E.Sink.stand err.old) (C.Clock.stand clock.old) in
        let after = host_world (F.Folder.stand folder.new) (I.Source.stand input.new)
        (O.Sink.stand out.new) (E.Sink.stand err.new) (C.Clock.stand clock.new) in
        IfOk result (λ r. HasTraced parties.now dir.now world.old before world.new r after) }
{
    begin_a_trace(alloc, parties)?;
    let mut tracer = Tracer::new(alloc, parties)?;
    let ran = run_traced(
        world,
        &mut tracer,
        alloc,
        dir,
        folder,
        input,
        out,
        err,
        clock,
    )?;
    as_many(world, parties.len())?;
    finish(world, &mut tracer, alloc, ran, out)
}

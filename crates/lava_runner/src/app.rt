// The run of an application.

ghost use Rattle.std.specs.Prelude.{◌≡◌, [], IfOk, MatchResult};
ghost use Rattle.lava_host.specs.Hosts.{host_world};
ghost use Rattle.lava_packages.specs.Commons.{HasRunCause, IsCommonPart};
ghost use Rattle.lava_runner.specs.Isolated.{IsIsolatedRun};
ghost use Rattle.lava_runner.specs.Reports.{HasReport, HasRunFrom, HasTraceReport, HasTracedFrom, IsEmittedRun, IsReportOf, IsRunOf, IsTracedRun, IsUncaughtText};
ghost use Rattle.pkg_graph.specs.declared.graph.Package.{Package};

use crate::laws::each_run_isolates;
use js_host_laws::{gone_at_the_newest, host_calls_are_crossings};
use js_world_end::discard;
use lava_base::list::List;
use lava_base::memory::OutOfMemory;
use lava_base::name::Name;
use lava_driver::js_crossing::ending::Ending;
use lava_driver::js_run_laws::journal_is_net;
use lava_driver::js_world::world::FlatWorld;
use lava_driver::run::{Ran, run};
use lava_driver::trace_run::{as_many, trace_run};
use lava_packages::common::{CommonPart, RunFault, common_part};
use lava_packages::first::first_of;
use lava_packages::lava_start::laws::runs_are_well_made;
use lava_packages::laws::common_part_calls_repairs;
use lava_packages::names::names_of;
use lava_packages::pkg_source::code::ModuleCode;
use lava_packages::uncaught::uncaught;
use lava_report::report::{Mode, Report};
use lava_streams::clock::Clock;
use lava_streams::folder::Folder;
use lava_streams::sink::Sink;
use lava_streams::source::Source;
use pkg_graph::graph::Package;
use pkg_load::load::Application;
use pkg_load::module::LoadedModule;
use policy_row::policy::Policy;
use std::alloc::Global;

/// The thrown value as `console` prints it, where a run ends by it.
fn uncaught_at(
    alloc: Global,
    world: &mut FlatWorld,
    ending: Ending,
) -> Result<Option<List<u8>>, OutOfMemory>
    ensures { IfOk result (IsUncaughtText world.old ending) }
{
    match ending {
        Ending::Uncaught => uncaught(alloc, world),
        _ => Ok(None),
    }
}

/// The steps that each party has taken.
fn steps_of(alloc: Global, world: &FlatWorld) -> Result<List<u64>, OutOfMemory>
    ensures { IfOk result (λ steps. steps ≡ world.now.steps) }
{
    let mut steps = List::new(alloc);
    steps.extend_from_slice(world.steps())?;
    Ok(steps)
}

/// The report on a run of these parties that is over. Want of memory is answered where there are others.
fn report_of(
    alloc: Global,
    world: &mut FlatWorld,
    names: List<Name>,
    ran: Ran,
) -> Result<Report, OutOfMemory>
    ensures { IfOk result (IsReportOf world.old names ran) }
{
    as_many(world, names.len())?;
    let steps = steps_of(alloc, world)?;
    let uncaught = uncaught_at(alloc, world, ran.ending)?;
    Ok(Report {
        ending: ran.ending,
        uncaught,
        which: ran.failed,
        names,
        steps,
        crossings: ran.crossings,
    })
}

/// Runs an application from a world in which nothing has happened, and reports on it.
fn run_world<F: Folder, I: Source, O: Sink, E: Sink, C: Clock>(
    alloc: Global,
    world: &mut FlatWorld,
    names: List<Name>,
    emit: bool,
    dir: &str,
    folder: &mut F,
    input: &mut I,
    out: &mut O,
    err: &mut E,
    clock: &mut C,
) -> Result<Report, OutOfMemory>
    requires { world.now.machine.frames ≡ [] }
    ensures { let before = host_world (F.Folder.stand folder.old) (I.Source.stand input.old)
        (O.Sink.stand out.old) (E.Sink.stand err.old) (C.Clock.stand clock.old) in
        let after = host_world (F.Folder.stand folder.new) (I.Source.stand input.new)
        (O.Sink.stand out.new) (E.Sink.stand err.new) (C.Clock.stand clock.new) in
        IfOk result (HasReport emit dir.now names world.old before after) }
{
    let ran = run(world, alloc, emit, dir, folder, input, out, err, clock)?;
    report_of(alloc, world, names, ran)
}

/// Runs the packages of an application over a common part, and reports on it.
fn run_packages<F: Folder, I: Source, O: Sink, E: Sink, C: Clock>(
    alloc: Global,
    packages: &[Package],
    modules: &[LoadedModule<ModuleCode>],
    policy: &Policy,
    common: CommonPart,
    budget: u64,
    emit: bool,
    dir: &str,
    folder: &mut F,
    input: &mut I,
    out: &mut O,
    err: &mut E,
    clock: &mut C,
) -> Result<Report, OutOfMemory>
    ensures { let before = host_world (F.Folder.stand folder.old) (I.Source.stand input.old)
        (O.Sink.stand out.old) (E.Sink.stand err.old) (C.Clock.stand clock.old) in
        let after = host_world (F.Folder.stand folder.new) (I.Source.stand input.new)
        (O.Sink.stand out.new) (E.Sink.stand err.new) (C.Clock.stand clock.new) in
        let run = HasRunFrom emit dir.now packages.now modules.now policy.now common budget in
        IfOk result (run before after) }
{
    let names = names_of(alloc, packages)?;
    let mut world = first_of(alloc, packages, modules, policy, common, budget)?;
    let report = run_world(
        alloc, &mut world, names, emit, dir, folder, input, out, err, clock,
    );
    discard(world);
    report
}

/// Runs an application from a world in which nothing has happened, with a trace, and reports on it.
fn trace_world<F: Folder, I: Source, O: Sink, E: Sink, C: Clock>(
    alloc: Global,
    world: &mut FlatWorld,
    parties: List<Name>,
    dir: &str,
    folder: &mut F,
    input: &mut I,
    out: &mut O,
    err: &mut E,
    clock: &mut C,
) -> Result<Report, OutOfMemory>
    requires { world.now.machine.frames ≡ [] }
    ensures { let before = host_world (F.Folder.stand folder.old) (I.Source.stand input.old)
        (O.Sink.stand out.old) (E.Sink.stand err.old) (C.Clock.stand clock.old) in
        let after = host_world (F.Folder.stand folder.new) (I.Source.stand input.new)
        (O.Sink.stand out.new) (E.Sink.stand err.new) (C.Clock.stand clock.new) in
        IfOk result (HasTraceReport parties dir.now world.old before after) }
{
    let traced = trace_run(world, alloc, &parties, dir, folder, input, out, err, clock)?;
    let ran = Ran {
        ending: traced.ending,
        failed: traced.failed,
        crossings: traced.crossings,
    };
    report_of(alloc, world, parties, ran)
}

/// Runs the packages of an application over a common part, with a trace, and reports on it.
fn trace_packages<F: Folder, I: Source, O: Sink, E: Sink, C: Clock>(
    alloc: Global,
    packages: &[Package],
    modules: &[LoadedModule<ModuleCode>],
    policy: &Policy,
    common: CommonPart,
    budget: u64,
    dir: &str,
    folder: &mut F,
    input: &mut I,
    out: &mut O,
    err: &mut E,
    clock: &mut C,
) -> Result<Report, OutOfMemory>
    ensures { let before = host_world (F.Folder.stand folder.old) (I.Source.stand input.old)
        (O.Sink.stand out.old) (E.Sink.stand err.old) (C.Clock.stand clock.old) in
        let after = host_world (F.Folder.stand folder.new) (I.Source.stand input.new)
        (O.Sink.stand out.new) (E.Sink.stand err.new) (C.Clock.stand clock.new) in
        let run = HasTracedFrom dir.now packages.now modules.now policy.now common budget in
        IfOk result (run before after) }
{
    let names = names_of(alloc, packages)?;
    let mut world = first_of(alloc, packages, modules, policy, common, budget)?;
    let report = trace_world(
        alloc, &mut world, names, dir, folder, input, out, err, clock,
    );
    discard(world);
    report
}

/// Runs an application over a common part, and prints what it prints.
fn run_emitted<F: Folder, I: Source, O: Sink, E: Sink, C: Clock>(
    alloc: Global,
    app: &Application<ModuleCode>,
    policy: &Policy,
    common: CommonPart,
    budget: u64,
    dir: &str,
    folder: &mut F,
    input: &mut I,
    out: &mut O,
    err: &mut E,
    clock: &mut C,
) -> Result<Report, OutOfMemory>
    requires { IsCommonPart common }
    ensures { let before = host_world (F.Folder.stand folder.old) (I.Source.stand input.old)
        (O.Sink.stand out.old) (E.Sink.stand err.old) (C.Clock.stand clock.old) in
        let after = host_world (F.Folder.stand folder.new) (I.Source.stand input.new)
        (O.Sink.stand out.new) (E.Sink.stand err.new) (C.Clock.stand clock.new) in
        IfOk result (IsEmittedRun dir.now app.now policy.now budget before after) }
{
    journal_is_net();
    host_calls_are_crossings();
    gone_at_the_newest();
    runs_are_well_made();
    common_part_calls_repairs();
    run_packages(
        alloc,
        app.packages(),
        app.modules(),
        policy,
        common,
        budget,
        true,
        dir,
        folder,
        input,
        out,
        err,
        clock,
    )
}

/// Runs an application over a common part, and puts its trace to the output.
fn run_with_trace<F: Folder, I: Source, O: Sink, E: Sink, C: Clock>(
    alloc: Global,
    app: &Application<ModuleCode>,
    policy: &Policy,
    common: CommonPart,
    budget: u64,
    dir: &str,
    folder: &mut F,
    input: &mut I,
    out: &mut O,
    err: &mut E,
    clock: &mut C,
) -> Result<Report, OutOfMemory>
    requires { IsCommonPart common }
    ensures { let before = host_world (F.Folder.stand folder.old) (I.Source.stand input.old)
        (O.Sink.stand out.old) (E.Sink.stand err.old) (C.Clock.stand clock.old) in
        let after = host_world (F.Folder.stand folder.new) (I.Source.stand input.new)
        (O.Sink.stand out.new) (E.Sink.stand err.new) (C.Clock.stand clock.new) in
        IfOk result (IsTracedRun dir.now app.now policy.now budget before after) }
{
    journal_is_net();
    host_calls_are_crossings();
    gone_at_the_newest();
    runs_are_well_made();
    common_part_calls_repairs();
    trace_packages(
        alloc,
        app.packages(),
        app.modules(),
        policy,
        common,
        budget,
        dir,
        folder,
        input,
        out,
        err,
        clock,
    )
}

/// Runs an application over a common part in a mode.
fn run_over<F: Folder, I: Source, O: Sink, E: Sink, C: Clock>(
    alloc: Global,
    app: &Application<ModuleCode>,
    policy: &Policy,
    common: CommonPart,
    budget: u64,
    mode: Mode,
    dir: &str,
    folder: &mut F,
    input: &mut I,
    out: &mut O,
    err: &mut E,
    clock: &mut C,
) -> Result<Report, OutOfMemory>
    requires { IsCommonPart common }
    ensures { let before = host_world (F.Folder.stand folder.old) (I.Source.stand input.old)
        (O.Sink.stand out.old) (E.Sink.stand err.old) (C.Clock.stand clock.old) in
        let after = host_world (F.Folder.stand folder.new) (I.Source.stand input.new)
        (O.Sink.stand out.new) (E.Sink.stand err.new) (C.Clock.stand clock.new) in
        IfOk result (IsRunOf mode dir.now app.now policy.now budget before after) }
{
    match mode {
        Mode::Emit => run_emitted(
            alloc, app, policy, common, budget, dir, folder, input, out, err, clock,
        ),
        Mode::Trace => run_with_trace(
            alloc, app, policy, common, budget, dir, folder, input, out, err, clock,
        ),
    }
}

/// Runs an application over a common part in a mode, and each party of that run is its own.
fn run_apart<F: Folder, I: Source, O: Sink, E: Sink, C: Clock>(
    alloc: Global,
    app: &Application<ModuleCode>,
    policy: &Policy,
    common: CommonPart,
    budget: u64,
    mode: Mode,
    dir: &str,
    folder: &mut F,
    input: &mut I,
    out: &mut O,
    err: &mut E,
    clock: &mut C,
) -> Result<Report, OutOfMemory>
    requires { IsCommonPart common }
    ensures runs { let before = host_world (F.Folder.stand folder.old) (I.Source.stand input.old)
        (O.Sink.stand out.old) (E.Sink.stand err.old) (C.Clock.stand clock.old) in
        let after = host_world (F.Folder.stand folder.new) (I.Source.stand input.new)
        (O.Sink.stand out.new) (E.Sink.stand err.new) (C.Clock.stand clock.new) in
        IfOk result (IsRunOf mode dir.now app.now policy.now budget before after) }
    ensures isolates { let before = host_world (F.Folder.stand folder.old)
        (I.Source.stand input.old) (O.Sink.stand out.old) (E.Sink.stand err.old)
        (C.Clock.stand clock.old) in
        let after = host_world (F.Folder.stand folder.new) (I.Source.stand input.new)
        (O.Sink.stand out.new) (E.Sink.stand err.new) (C.Clock.stand clock.new) in
        IfOk result (IsIsolatedRun mode dir.now app.now policy.now budget before after) }
{
    each_run_isolates();
    run_over(
        alloc, app, policy, common, budget, mode, dir, folder, input, out, err, clock,
    )
}

/// Runs an application: the common part is locked, each package stands with what the merged policy grants it, the main module of the application's own is imported, and what it asks of the host is done to the outside. By the mode the output gets what `console` prints, or the trace of the run at its end.
/// The budget is the number of steps that all parties may take together.
pub fn run_app<F: Folder, I: Source, O: Sink, E: Sink, C: Clock>(
    alloc: Global,
    app: &Application<ModuleCode>,
    policy: &Policy,
    budget: u64,
    mode: Mode,
    dir: &str,
    folder: &mut F,
    input: &mut I,
    out: &mut O,
    err: &mut E,
    clock: &mut C,
) -> Result<Report, RunFault>
    ensures runs { let before = host_world (F.Folder.stand folder.old) (I.Source.stand input.old)
        (O.Sink.stand out.old) (E.Sink.stand err.old) (C.Clock.stand clock.old) in
        let after = host_world (F.Folder.stand folder.new) (I.Source.stand input.new)
        (O.Sink.stand out.new) (E.Sink.stand err.new) (C.Clock.stand clock.new) in
        IfOk result (IsRunOf mode dir.now app.now policy.now budget before after) }
    // Each package of the run is its own.
    ensures isolates { let before = host_world (F.Folder.stand folder.old)
        (I.Source.stand input.old) (O.Sink.stand out.old) (E.Sink.stand err.old)
        (C.Clock.stand clock.old) in
        let after = host_world (F.Folder.stand folder.new) (I.Source.stand input.new)
        (O.Sink.stand out.new) (E.Sink.stand err.new) (C.Clock.stand clock.new) in
        IfOk result (IsIsolatedRun mode dir.now app.now policy.now budget before after) }
    ensures cause { MatchResult result (λ r. Unit {0}) HasRunCause }
{
    match common_part(alloc) {
        Ok(common) => {
            let report = run_apart(
                alloc, app, policy, common, budget, mode, dir, folder, input, out, err, clock,
            )?;
            Ok(report)
        }
        Err(fault) => Err(fault),
    }
}

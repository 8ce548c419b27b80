// The commands `lava run DIR` and `lava trace DIR`.

ghost use Rattle.lava_host.specs.Hosts.{host_world};
ghost use Rattle.lava_cli.specs.RunAnswers.{RunComes, RunsOf};

use lava_runner::app::run_app;
use lava_runner::lava_loading::loading::{LoadedApplication, LoadingFault, load_application};
use lava_runner::lava_packages::common::RunFault;
use lava_runner::lava_report::ended::ended;
use lava_runner::lava_report::outcome::RunOutcome;
use lava_runner::lava_report::report::Mode;
use lava_streams::clock::Clock;
use lava_streams::folder::Folder;
use lava_streams::sink::Sink;
use lava_streams::source::Source;
use std::alloc::Global;

/// Runs an application in a mode.
fn run_loaded<F: Folder, I: Source, O: Sink, E: Sink, C: Clock>(
    alloc: Global,
    loaded: &LoadedApplication,
    mode: Mode,
    directory: &str,
    budget: u64,
    folder: &mut F,
    input: &mut I,
    out: &mut O,
    err: &mut E,
    clock: &mut C,
) -> RunOutcome
    ensures { let before = host_world (F.Folder.stand folder.old) (I.Source.stand input.old)
        (O.Sink.stand out.old) (E.Sink.stand err.old) (C.Clock.stand clock.old) in
        let after = host_world (F.Folder.stand folder.new) (I.Source.stand input.new)
        (O.Sink.stand out.new) (E.Sink.stand err.new) (C.Clock.stand clock.new) in
        RunsOf mode directory.now loaded.now budget before after result }
{
    let LoadedApplication { app, policy } = loaded;
    match run_app(
        alloc, app, policy, budget, mode, directory, folder, input, out, err, clock,
    ) {
        Ok(report) => ended(alloc, app.packages(), report),
        Err(RunFault::Prelude(place, what)) => RunOutcome::Prelude(place, what),
        Err(RunFault::OutOfMemory) => RunOutcome::OutOfMemory,
    }
}

/// Loads the application of a directory, and runs it in a mode.
pub fn run_directory<F: Folder, I: Source, O: Sink, E: Sink, C: Clock>(
    alloc: Global,
    mode: Mode,
    directory: &str,
    budget: u64,
    folder: &mut F,
    input: &mut I,
    out: &mut O,
    err: &mut E,
    clock: &mut C,
) -> RunOutcome
    ensures { let before = host_world (F.Folder.stand folder.old) (I.Source.stand input.old)
        (O.Sink.stand out.old) (E.Sink.stand err.old) (C.Clock.stand clock.old) in
        let after = host_world (F.Folder.stand folder.new) (I.Source.stand input.new)
        (O.Sink.stand out.new) (E.Sink.stand err.new) (C.Clock.stand clock.new) in
        RunComes mode directory.now budget before after result }
{
    match load_application(alloc, directory, folder) {
        Ok(loaded) => {
            let outcome = run_loaded(
                alloc, &loaded, mode, directory, budget, folder, input, out, err, clock,
            );
            loaded.discard();
            outcome
        }
        Err(LoadingFault::Graph(fault)) => RunOutcome::Graph(fault),
        Err(LoadingFault::Policies(fault)) => RunOutcome::Policies(fault),
        Err(LoadingFault::Load(fault)) => RunOutcome::Load(fault),
    }
}

// The command `lava big N`.

ghost use Rattle.std.specs.Prelude.{◌≡◌};
ghost use Rattle.lava_big.specs.BigFiles.{big_files};
ghost use Rattle.lava_big.specs.Summaries as summaries;
ghost use Rattle.lava_host.specs.Hosts.{host_world};
ghost use Rattle.lava_runner.specs.Endings.{ending_status};
ghost use Rattle.lava_streams.specs.Files.{Files};
ghost use Rattle.lava_streams.specs.Outside.{Stand};
ghost use Rattle.lava_words.specs.Words.{IsCount};
ghost use Rattle.lava_cli.specs.BigAnswers.{BigAnswers, BigAnswersTo, BigReports, PutsSummary, ReportsOver, ReportsRan};

use crate::run_command::run_directory;
use lava_base::memory::OutOfMemory;
use lava_big::big_app::big_app;
use lava_big::held_folder::HeldFolder;
use lava_big::summary::summary_line;
use lava_big::texts::BIG_DIRECTORY;
use lava_host::fault::Which;
use lava_lines::report::put_line;
use lava_lines::status::{MEMORY_LINE, MEMORY_STATUS};
use lava_runner::endings::ending_status;
use lava_runner::lava_report::outcome::{Ended, RunOutcome};
use lava_runner::lava_report::report::{Mode, Report};
use lava_runner::lava_report::run_report::{report_run, tell_outside};
use lava_streams::clock::Clock;
use lava_streams::fault::Failed;
use lava_streams::sink::Sink;
use lava_streams::source::Source;
use std::alloc::Global;

/// What comes of putting the summary of a run.
#[derive(Clone, Copy, Debug, PartialEq, Eq)]
pub enum SummaryPut {
    /// It was appended to the output.
    Done,
    /// The call on the output failed.
    Failed,
    /// There was no memory for it.
    OutOfMemory,
}

/// Puts the summary of a run that is over to the output.
fn put_summary<O: Sink>(alloc: Global, count: u32, report: &Report, out: &mut O) -> SummaryPut
    ensures { let status = ending_status report.now.ending in
        let line = summaries.summary_line count report.now.crossings status in
        PutsSummary line (O.stand out.old) (O.stand out.new) result }
{
    let status = ending_status(report.ending);
    match summary_line(alloc, count, report.crossings, status) {
        Ok(line) => match out.put(line.as_slice()) {
            Ok(()) => SummaryPut::Done,
            Err(Failed) => SummaryPut::Failed,
        },
        Err(OutOfMemory) => SummaryPut::OutOfMemory,
    }
}

/// Tells how a run ended whose summary was put so, and gives the exit status.
fn tell_over<E: Sink>(alloc: Global, put: SummaryPut, ended: Ended, err: &mut E) -> u8
    ensures { ReportsOver put ended (E.stand err.old) (E.stand err.new) result }
{
    match put {
        SummaryPut::Done => report_run(alloc, RunOutcome::Ran(ended), err),
        SummaryPut::Failed => tell_outside(alloc, Which::Output, err),
        SummaryPut::OutOfMemory => put_line(MEMORY_LINE.as_bytes(), MEMORY_STATUS, err),
    }
}

/// Puts the summary of a run, unless a call of the outside failed in it, tells how it ended, and gives the exit status.
fn tell_ran<O: Sink, E: Sink>(
    alloc: Global,
    count: u32,
    ended: Ended,
    out: &mut O,
    err: &mut E,
) -> u8
    ensures { let which = ended.report.which in
        let reports = ReportsRan count which ended (O.stand out.old) (O.stand out.new) in
        reports (E.stand err.old) (E.stand err.new) result }
{
    match ended.report.which {
        Some(_) => report_run(alloc, RunOutcome::Ran(ended), err),
        None => {
            let put = put_summary(alloc, count, &ended.report, out);
            tell_over(alloc, put, ended, err)
        }
    }
}

/// Tells how the run of the application of so many packages ended, and gives the exit status.
fn tell_big<O: Sink, E: Sink>(
    alloc: Global,
    count: u32,
    outcome: RunOutcome,
    out: &mut O,
    err: &mut E,
) -> u8
    ensures { let reports = BigReports count outcome (O.stand out.old) (O.stand out.new) in
        reports (E.stand err.old) (E.stand err.new) result }
{
    match outcome {
        RunOutcome::Ran(ended) => tell_ran(alloc, count, ended, out, err),
        RunOutcome::Graph(fault) => report_run(alloc, RunOutcome::Graph(fault), err),
        RunOutcome::Policies(fault) => report_run(alloc, RunOutcome::Policies(fault), err),
        RunOutcome::Load(fault) => report_run(alloc, RunOutcome::Load(fault), err),
        RunOutcome::Prelude(place, what) => {
            report_run(alloc, RunOutcome::Prelude(place, what), err)
        }
        RunOutcome::OutOfMemory => report_run(alloc, RunOutcome::OutOfMemory, err),
    }
}

/// Runs the application of so many packages, whose files this folder has.
fn run_held<I: Source, O: Sink, E: Sink, C: Clock>(
    alloc: Global,
    count: u32,
    budget: u64,
    folder: &mut HeldFolder,
    input: &mut I,
    out: &mut O,
    err: &mut E,
    clock: &mut C,
) -> u8
    requires { folder.old ≡ big_files count }
    ensures { (caller : Stand Files) →
        let before = host_world caller (I.Source.stand input.old)
        (O.Sink.stand out.old) (E.Sink.stand err.old) (C.Clock.stand clock.old) in
        let after = host_world caller (I.Source.stand input.new)
        (O.Sink.stand out.new) (E.Sink.stand err.new) (C.Clock.stand clock.new) in
        BigAnswers count budget before after result }
{
    let outcome = run_directory(
        alloc,
        Mode::Emit,
        BIG_DIRECTORY,
        budget,
        folder,
        input,
        out,
        err,
        clock,
    );
    tell_big(alloc, count, outcome, out, err)
}

/// Makes the application of so many packages in memory, runs it with its own policy and a budget, puts the summary of the run to the output, unless a call of the outside failed in it, and tells how it ended. The caller's folder is not touched, whatever it stands at.
pub fn big<I: Source, O: Sink, E: Sink, C: Clock>(
    alloc: Global,
    count: u32,
    budget: u64,
    input: &mut I,
    out: &mut O,
    err: &mut E,
    clock: &mut C,
) -> u8
    requires { IsCount count }
    ensures { (caller : Stand Files) →
        let before = host_world caller (I.Source.stand input.old)
        (O.Sink.stand out.old) (E.Sink.stand err.old) (C.Clock.stand clock.old) in
        let after = host_world caller (I.Source.stand input.new)
        (O.Sink.stand out.new) (E.Sink.stand err.new) (C.Clock.stand clock.new) in
        BigAnswersTo count budget before after result }
{
    match big_app(alloc, count) {
        Ok(app) => {
            let mut folder = HeldFolder::of(app);
            run_held(alloc, count, budget, &mut folder, input, out, err, clock)
        }
        Err(OutOfMemory) => put_line(MEMORY_LINE.as_bytes(), MEMORY_STATUS, err),
    }
}

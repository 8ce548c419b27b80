// What the program does with its words.

ghost use Rattle.std.specs.Prelude.{◌≡◌, ◌≢◌, map, string_bytes};
ghost use Rattle.std.specs.Option.{option_map};
ghost use Rattle.std.specs.IoError.{error_kind};
ghost use Rattle.lava_host.specs.Hosts.{host_world};
ghost use Rattle.lava_lines.specs.Puts.{Puts};
ghost use Rattle.lava_lines.specs.declared.status.TheConstants as texts;
ghost use Rattle.lava_words.specs.Words.{IsAskable, told_command};
ghost use Rattle.lava_cli.specs.Answers.{AnswersTo, CommandAnswers};
ghost use Rattle.lava_cli.specs.Causes.{CommandDecides};
ghost use Rattle.lava_cli.specs.Finishes.{CommandFinishes};
ghost use Rattle.lava_cli.specs.Isolates.{CommandIsolates};
ghost use Rattle.lava_cli.specs.RunAnswers.{RunAnswers};

use crate::big_command::big;
use crate::run_command::run_directory;
use lava_lines::report::put_line;
use lava_lines::status::{MEMORY_LINE, MEMORY_STATUS, USAGE_LINE, USAGE_STATUS};
use lava_policy::check::check;
use lava_policy::policy::policy;
use lava_runner::lava_loading::laws::one_loading;
use lava_runner::lava_report::report::Mode;
use lava_runner::lava_report::run_report::report_run;
use lava_runner::laws::each_run_isolates;
use lava_streams::clock::Clock;
use lava_streams::folder::Folder;
use lava_streams::sink::Sink;
use lava_streams::source::Source;
use lava_tree::tree::tree;
use lava_words::words::{Command, command_of};
use std::alloc::Global;
use std::io;
use std::io::ErrorKind;

/// Runs the application of a directory in a mode, and tells how that ended.
fn run<F: Folder, I: Source, O: Sink, E: Sink, C: Clock>(
    alloc: Global,
    mode: Mode,
    directory: &str,
    budget: u64,
    folder: &mut F,
    input: &mut I,
    out: &mut O,
    err: &mut E,
    clock: &mut C,
) -> u8
    ensures { let before = host_world (F.Folder.stand folder.old) (I.Source.stand input.old)
        (O.Sink.stand out.old) (E.Sink.stand err.old) (C.Clock.stand clock.old) in
        let after = host_world (F.Folder.stand folder.new) (I.Source.stand input.new)
        (O.Sink.stand out.new) (E.Sink.stand err.new) (C.Clock.stand clock.new) in
        RunAnswers mode directory.now budget before after result }
{
    let outcome = run_directory(
        alloc, mode, directory, budget, folder, input, out, err, clock,
    );
    report_run(alloc, outcome, err)
}

/// Does what was asked for, or tells that nothing was.
fn do_asked<F: Folder, I: Source, O: Sink, E: Sink, C: Clock>(
    alloc: Global,
    asked: Option<Command<'_>>,
    folder: &mut F,
    input: &mut I,
    out: &mut O,
    err: &mut E,
    clock: &mut C,
) -> u8
    requires { IsAskable (option_map told_command asked) }
    ensures { let before = host_world (F.Folder.stand folder.old) (I.Source.stand input.old)
        (O.Sink.stand out.old) (E.Sink.stand err.old) (C.Clock.stand clock.old) in
        let after = host_world (F.Folder.stand folder.new) (I.Source.stand input.new)
        (O.Sink.stand out.new) (E.Sink.stand err.new) (C.Clock.stand clock.new) in
        AnswersTo (option_map told_command asked.entry) before after result }
{
    match asked {
        Some(
            Command::Run {
                mode,
                directory,
                budget,
            },
        ) => run(
            alloc, mode, directory, budget, folder, input, out, err, clock,
        ),
        Some(Command::Tree { file }) => tree(alloc, file, folder, out, err),
        Some(Command::Policy { directory }) => policy(alloc, directory, folder, out, err),
        Some(Command::Check { directory }) => check(alloc, directory, folder, out, err),
        Some(Command::Big { count, budget }) => {
            big(alloc, count, budget, input, out, err, clock)
        }
        None => put_line(USAGE_LINE.as_bytes(), USAGE_STATUS, err),
    }
}

/// Takes the words apart, and does what they say.
fn answer<F: Folder, I: Source, O: Sink, E: Sink, C: Clock>(
    alloc: Global,
    words: &[String],
    folder: &mut F,
    input: &mut I,
    out: &mut O,
    err: &mut E,
    clock: &mut C,
) -> u8
    ensures { let before = host_world (F.Folder.stand folder.old) (I.Source.stand input.old)
        (O.Sink.stand out.old) (E.Sink.stand err.old) (C.Clock.stand clock.old) in
        let after = host_world (F.Folder.stand folder.new) (I.Source.stand input.new)
        (O.Sink.stand out.new) (E.Sink.stand err.new) (C.Clock.stand clock.new) in
        CommandAnswers (map string_bytes words.now) before after result }
{
    match command_of(alloc, words) {
        Ok(asked) => do_asked(alloc, asked, folder, input, out, err, clock),
        Err(_) => put_line(MEMORY_LINE.as_bytes(), MEMORY_STATUS, err),
    }
}

/// Does what the words say, and gives the exit status. The words come without the program's own name.
///
/// - `run DIR [--budget N]` loads the application of a directory (`package.json`, its policy files, `index.js` or its `main`, and what these require) and runs it, each package with what its row grants it.
/// - `trace DIR [--budget N]` does the same, and appends the trace of the run in place of what it prints.
/// - `tree FILE` appends the lines of the core term that a module is lowered to.
/// - `policy DIR` appends the policy that the sources of an application ask for, whatever its policy files hold.
/// - `check DIR` appends a line `denied PACKAGE REQUEST` for each literal request of a module that is reached which an application's policy denies.
/// - `big N [--budget N]` runs an application of N packages that stands in memory, 1 to 200, and appends a line `packages N crossings C status S` behind what it prints, unless a call of the outside failed in the run. The folder is not touched.
///
/// The words are those of a command of `clap`: `--budget=N` is the option too, and behind `--` a word may begin with `-`. A budget that is none is a usage fault of every command.
///
/// The statuses: 0 done, 1 a thrown value that nothing caught, 2 usage, 3 nothing was loaded, 4 a policy file is refused, 5 a limit of the language, 6 the budget was used up,
/// 7 a call on an object of the outside failed, 8 `check` printed a line, 9 want of memory.
pub fn lava<F: Folder, I: Source, O: Sink, E: Sink, C: Clock>(
    alloc: Global,
    words: &[String],
    folder: &mut F,
    input: &mut I,
    out: &mut O,
    err: &mut E,
    clock: &mut C,
) -> u8
    // Each answer has its cause.
    ensures answers { let before = host_world (F.Folder.stand folder.old) (I.Source.stand input.old)
        (O.Sink.stand out.old) (E.Sink.stand err.old) (C.Clock.stand clock.old) in
        let after = host_world (F.Folder.stand folder.new) (I.Source.stand input.new)
        (O.Sink.stand out.new) (E.Sink.stand err.new) (C.Clock.stand clock.new) in
        CommandAnswers (map string_bytes words.now) before after result }
    // Each cause has its answer, and no other one beside it.
    ensures decides { let before = host_world (F.Folder.stand folder.old) (I.Source.stand input.old)
        (O.Sink.stand out.old) (E.Sink.stand err.old) (C.Clock.stand clock.old) in
        let after = host_world (F.Folder.stand folder.new) (I.Source.stand input.new)
        (O.Sink.stand out.new) (E.Sink.stand err.new) (C.Clock.stand clock.new) in
        CommandDecides (map string_bytes words.now) before after result }
    // Where there is no cause, the run is over or the report is printed, or there was no memory.
    ensures finishes { let before = host_world (F.Folder.stand folder.old)
        (I.Source.stand input.old) (O.Sink.stand out.old) (E.Sink.stand err.old)
        (C.Clock.stand clock.old) in
        let after = host_world (F.Folder.stand folder.new) (I.Source.stand input.new)
        (O.Sink.stand out.new) (E.Sink.stand err.new) (C.Clock.stand clock.new) in
        CommandFinishes (map string_bytes words.now) before after result }
    // Each package of a run is its own: isolation holds of the journal of each run.
    ensures isolates { let before = host_world (F.Folder.stand folder.old)
        (I.Source.stand input.old) (O.Sink.stand out.old) (E.Sink.stand err.old)
        (C.Clock.stand clock.old) in
        let after = host_world (F.Folder.stand folder.new) (I.Source.stand input.new)
        (O.Sink.stand out.new) (E.Sink.stand err.new) (C.Clock.stand clock.new) in
        CommandIsolates (map string_bytes words.now) before after result }
{
    one_loading();
    each_run_isolates();
    answer(alloc, words, folder, input, out, err, clock)
}

/// Says why a command couldn't begin, and gives the exit status: a word that is not UTF-8 is a usage fault, and all else is want of memory.
pub fn refuse<E: Sink>(err: &mut E, error: io::Error) -> u8
    ensures words { error_kind error ≡ ErrorKind.InvalidData →
        Puts texts.USAGE_LINE.now texts.USAGE_STATUS (E.stand err.old) (E.stand err.new) result }
    ensures memory { error_kind error ≢ ErrorKind.InvalidData →
        Puts texts.MEMORY_LINE.now texts.MEMORY_STATUS (E.stand err.old) (E.stand err.new) result }
{
    if error.kind() == ErrorKind::InvalidData {
        put_line(USAGE_LINE.as_bytes(), USAGE_STATUS, err)
    } else {
        put_line(MEMORY_LINE.as_bytes(), MEMORY_STATUS, err)
    }
}

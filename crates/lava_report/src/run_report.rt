// What is told of how a run ended, and the exit status.

ghost use Rattle.std.specs.Prelude.{◌≡◌};
ghost use Rattle.policy_row.specs.Names.{shown_word};
ghost use Rattle.lava_report.specs.Tells as spec;

use crate::outcome::{Ended, RunOutcome};
use js_crossing::ending::Ending;
use js_crossing::js_machine::frame::Halt;
use js_fault::fault::SyntaxWhat;
use lava_base::list::List;
use lava_base::memory::OutOfMemory;
use lava_base::name::Name;
use lava_base::place::Place;
use lava_host::fault::Which;
use lava_lines::lines::{
    ended_line, manifest_line, missing_line, outside_line, policy_line, syntax_line, too_many_line,
    uncaught_line,
};
use lava_lines::report::put_made;
use lava_lines::status::{
    BUDGET_STATUS, DONE_STATUS, LIMIT_STATUS, LOADING_STATUS, MEMORY_STATUS, OUTSIDE_STATUS,
    POLICY_STATUS, UNCAUGHT_STATUS,
};
use lava_loading::policies::PoliciesFault;
use lava_streams::sink::Sink;
use pkg_graph::fault::GraphFault;
use pkg_graph::limits::FILE;
use pkg_graph::standing::FILE_LIMIT;
use pkg_load::fault::LoadFault;
use policy_row::fault::{PolicyFile, PolicyWhat, shown};
use std::alloc::Global;

/// The package of the common part's functions, in the line where these are refused.
pub const PRELUDE_PACKAGE: &str = "$prelude$";

/// The path of the text of the common part's functions there.
pub const PRELUDE_PATH: &str = "prelude.js";

/// The object of the outside that a reading fails on.
pub const FOLDER: &str = "folder";

/// An object of the outside as it is told.
fn which_word(which: Which) -> &'static str
    ensures { result.now ≡ spec.which_word which }
{
    match which {
        Which::Folder => FOLDER,
        Which::Input => "input",
        Which::Output => "output",
        Which::Errors => "errors",
        Which::Clock => "clock",
    }
}

/// How a run ended within a package, as it is told.
fn halt_word(halt: Halt) -> &'static str
    ensures { result.now ≡ spec.halt_word halt }
{
    match halt {
        Halt::Number => "Number",
        Halt::Text => "Text",
        Halt::Depth => "Depth",
        Halt::Meter => "Meter",
        Halt::Outside => "Outside",
    }
}

/// Tells want of memory.
fn tell_lack<E: Sink>(err: &mut E) -> u8
    ensures { spec.Lacks (E.stand err.old) (E.stand err.new) result }
{
    put_made(Err(OutOfMemory), MEMORY_STATUS, err)
}

/// Tells a thrown value that nothing caught.
fn tell_uncaught<E: Sink>(alloc: Global, value: Option<List<u8>>, err: &mut E) -> u8
    ensures { spec.TellsUncaught value (E.stand err.old) (E.stand err.new) result }
{
    match value {
        Some(text) => put_made(uncaught_line(alloc, text.as_slice()), UNCAUGHT_STATUS, err),
        None => tell_lack(err),
    }
}

/// Tells the object of the outside that failed, and gives the exit status.
pub fn tell_outside<E: Sink>(alloc: Global, which: Which, err: &mut E) -> u8
    ensures { spec.TellsOutside which (E.stand err.old) (E.stand err.new) result }
{
    put_made(outside_line(alloc, which_word(which)), OUTSIDE_STATUS, err)
}

/// Tells how a run ended within a party of this name.
fn tell_halt<E: Sink>(alloc: Global, name: &str, halt: Halt, err: &mut E) -> u8
    ensures { spec.TellsHalt name.now halt (E.stand err.old) (E.stand err.new) result }
{
    match halt {
        Halt::Outside => tell_lack(err),
        _ => put_made(ended_line(alloc, halt_word(halt), name), LIMIT_STATUS, err),
    }
}

/// Tells how a run ended of which no call on the outside failed: nothing where it was done.
fn tell_ending<E: Sink>(
    alloc: Global,
    name: &str,
    ending: Ending,
    uncaught: Option<List<u8>>,
    err: &mut E,
) -> u8
    ensures { let tells = spec.TellsEnding name.now ending uncaught in
        tells (E.stand err.old) (E.stand err.new) result }
{
    match ending {
        Ending::Done => DONE_STATUS,
        Ending::Uncaught => tell_uncaught(alloc, uncaught, err),
        Ending::Budget(_) => put_made(ended_line(alloc, "Budget", name), BUDGET_STATUS, err),
        Ending::Fault(_, halt) => tell_halt(alloc, name, halt, err),
    }
}

/// Tells how a run ended in a party of this name.
fn tell_ended<E: Sink>(
    alloc: Global,
    name: &Name,
    ending: Ending,
    uncaught: Option<List<u8>>,
    err: &mut E,
) -> u8
    ensures { let tells = spec.TellsEnding name.now ending uncaught in
        tells (E.stand err.old) (E.stand err.new) result }
{
    tell_ending(alloc, name.as_str(), ending, uncaught, err)
}

/// Tells which call on the outside failed in a run, or else how the run ended. (Where a run is traced, its trace is put to the output when it is over.)
fn tell_run<E: Sink>(alloc: Global, ended: Ended, err: &mut E) -> u8
    ensures { spec.TellsRun ended (E.stand err.old) (E.stand err.new) result }
{
    let Ended { report, name } = ended;
    match report.which {
        Some(which) => tell_outside(alloc, which, err),
        None => tell_ended(alloc, &name, report.ending, report.uncaught, err),
    }
}

/// Tells why the packages of a folder are not read.
fn tell_graph<E: Sink>(alloc: Global, fault: GraphFault, err: &mut E) -> u8
    ensures { spec.TellsGraph fault (E.stand err.old) (E.stand err.new) result }
{
    match fault {
        GraphFault::Manifest { dir, field } => put_made(
            manifest_line(alloc, dir.as_str(), field.as_str()),
            LOADING_STATUS,
            err,
        ),
        GraphFault::TooMany { what, count } => put_made(
            too_many_line(alloc, what.as_str(), count),
            LOADING_STATUS,
            err,
        ),
        GraphFault::Folder => put_made(outside_line(alloc, FOLDER), OUTSIDE_STATUS, err),
        GraphFault::OutOfMemory => tell_lack(err),
    }
}

/// Tells what is wrong with a policy file, at these words.
fn tell_words<E: Sink>(
    alloc: Global,
    file: PolicyFile,
    row: &str,
    key: &str,
    what: PolicyWhat,
    err: &mut E,
) -> u8
    ensures { let line = spec.policy_line file row.now key.now what in
        spec.PutsLine line POLICY_STATUS (E.stand err.old) (E.stand err.new) result }
{
    put_made(
        policy_line(alloc, file.name(), row, key, what.name()),
        POLICY_STATUS,
        err,
    )
}

/// Tells what is wrong with a policy file.
fn tell_bad<E: Sink>(
    alloc: Global,
    file: PolicyFile,
    row: &Name,
    key: &Name,
    what: PolicyWhat,
    err: &mut E,
) -> u8
    ensures { let line = spec.policy_line file (shown_word row.now) (shown_word key.now) what in
        spec.PutsLine line POLICY_STATUS (E.stand err.old) (E.stand err.new) result }
{
    tell_words(alloc, file, shown(row), shown(key), what, err)
}

/// Tells why the policy of an application is not read.
fn tell_policies<E: Sink>(alloc: Global, fault: PoliciesFault, err: &mut E) -> u8
    ensures { spec.TellsPolicies fault (E.stand err.old) (E.stand err.new) result }
{
    match fault {
        PoliciesFault::Bad {
            file,
            row,
            key,
            what,
        } => tell_bad(alloc, file, &row, &key, what, err),
        PoliciesFault::TooLong => put_made(
            too_many_line(alloc, FILE, u64::from(FILE_LIMIT) + 1),
            LOADING_STATUS,
            err,
        ),
        PoliciesFault::Folder => put_made(outside_line(alloc, FOLDER), OUTSIDE_STATUS, err),
        PoliciesFault::OutOfMemory => tell_lack(err),
    }
}

/// Tells what is wrong with a source.
fn tell_syntax<E: Sink>(
    alloc: Global,
    owner: &str,
    path: &str,
    place: Place,
    what: &SyntaxWhat,
    err: &mut E,
) -> u8
    ensures { let line = spec.syntax_line owner.now path.now place what.now in
        spec.PutsLine line LOADING_STATUS (E.stand err.old) (E.stand err.new) result }
{
    put_made(
        syntax_line(alloc, owner, path, place, what),
        LOADING_STATUS,
        err,
    )
}

/// Tells what is wrong with a source of a package.
fn tell_source<E: Sink>(
    alloc: Global,
    owner: &Name,
    path: &Name,
    place: Place,
    what: &SyntaxWhat,
    err: &mut E,
) -> u8
    ensures { let line = spec.syntax_line owner.now path.now place what.now in
        spec.PutsLine line LOADING_STATUS (E.stand err.old) (E.stand err.new) result }
{
    tell_syntax(alloc, owner.as_str(), path.as_str(), place, what, err)
}

/// Tells that what is asked for has no file.
fn tell_missing<E: Sink>(alloc: Global, owner: &Name, request: &Name, err: &mut E) -> u8
    ensures { let line = spec.missing_line owner.now request.now in
        spec.PutsLine line LOADING_STATUS (E.stand err.old) (E.stand err.new) result }
{
    put_made(
        missing_line(alloc, owner.as_str(), request.as_str()),
        LOADING_STATUS,
        err,
    )
}

/// Tells why the modules of an application are not loaded.
fn tell_load<E: Sink>(alloc: Global, fault: LoadFault, err: &mut E) -> u8
    ensures { spec.TellsLoad fault (E.stand err.old) (E.stand err.new) result }
{
    match fault {
        LoadFault::Syntax {
            name,
            path,
            place,
            what,
        } => tell_source(alloc, &name, &path, place, &what, err),
        LoadFault::Missing { name, request } => tell_missing(alloc, &name, &request, err),
        LoadFault::TooMany { what, count } => put_made(
            too_many_line(alloc, what.as_str(), count),
            LOADING_STATUS,
            err,
        ),
        LoadFault::Folder => put_made(outside_line(alloc, FOLDER), OUTSIDE_STATUS, err),
        LoadFault::OutOfMemory => tell_lack(err),
    }
}

/// Tells how a run of a folder ended, and gives the exit status.
pub fn report_run<E: Sink>(alloc: Global, outcome: RunOutcome, err: &mut E) -> u8
    ensures { spec.RunReports outcome (E.stand err.old) (E.stand err.new) result }
{
    match outcome {
        RunOutcome::Ran(ended) => tell_run(alloc, ended, err),
        RunOutcome::Graph(fault) => tell_graph(alloc, fault, err),
        RunOutcome::Policies(fault) => tell_policies(alloc, fault, err),
        RunOutcome::Load(fault) => tell_load(alloc, fault, err),
        RunOutcome::Prelude(place, what) => {
            tell_syntax(alloc, PRELUDE_PACKAGE, PRELUDE_PATH, place, &what, err)
        }
        RunOutcome::OutOfMemory => tell_lack(err),
    }
}

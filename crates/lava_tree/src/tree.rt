// The command `lava tree FILE`.

ghost use Rattle.std.specs.Prelude.{◌≡◌, ℕ, List};
ghost use Rattle.lava_streams.specs.Outside.{Stand, outside};
ghost use Rattle.lava_tree.specs.TreeAnswers.{TreeAnswers, TreeComes, TreeEnds, TreeMisses, TreeRefuses, TreeReports};

use crate::tree_outcome::{TreeOutcome, TreeSource};
use crate::tree_source::find;
use js_fault::fault::SyntaxWhat;
use js_program::laws::one_tree;
use js_tree_lines::lines::one_text;
use lava_base::place::Place;
use lava_lines::lines::{missing_line, syntax_line};
use lava_lines::report::{put_line, put_made};
use lava_lines::status::{
    DONE_STATUS, LOADING_STATUS, MEMORY_LINE, MEMORY_STATUS, OUTSIDE_STATUS, ROOT_PACKAGE,
};
use lava_streams::fault::{Failed, ReadFault};
use lava_streams::folder::Folder;
use lava_streams::sink::Sink;
use std::alloc::Global;

/// The line of a file that has too many bytes.
pub const TOO_LONG_LINE: &str = "lava: too many file 1048577\n";

/// The line where a call on the folder failed.
pub const FOLDER_LINE: &str = "lava: outside folder\n";

/// The line where a call on the output failed.
pub const OUTPUT_LINE: &str = "lava: outside output\n";

/// How the command ends. What it leaves is said whatever the errors stand at.
fn outcome_of<F: Folder, O: Sink>(
    alloc: Global,
    path: &str,
    folder: &mut F,
    out: &mut O,
) -> TreeOutcome
    ensures comes { (err new_err : Stand (List ℕ)) →
        let before = outside (F.stand folder.old) (O.stand out.old) err in
        let after = outside (F.stand folder.new) (O.stand out.new) new_err in
        TreeComes path.now before after result }
    ensures folder { (F.stand folder.new).told ≡ (F.stand folder.old).told }
{
    match find(alloc, folder, path) {
        Err(ReadFault::Failed) => TreeOutcome::FolderFailed,
        Err(ReadFault::OutOfMemory) => TreeOutcome::OutOfMemory,
        Ok(TreeSource::Absent) => TreeOutcome::Missing,
        Ok(TreeSource::Longer) => TreeOutcome::TooLong,
        Ok(TreeSource::Refused { place, what }) => TreeOutcome::Syntax { place, what },
        Ok(TreeSource::Lines(lines)) => match out.put(lines.as_slice()) {
            Ok(()) => TreeOutcome::Finished,
            Err(Failed) => TreeOutcome::OutputFailed,
        },
    }
}

/// Writes that there is no such file.
fn write_missing<E: Sink>(alloc: Global, path: &str, err: &mut E) -> u8
    ensures { TreeReports path.now TreeOutcome.Missing (E.stand err.old) (E.stand err.new) result }
{
    put_made(missing_line(alloc, ROOT_PACKAGE, path), LOADING_STATUS, err)
}

/// Writes what is wrong with the file.
fn write_syntax<E: Sink>(
    alloc: Global,
    path: &str,
    place: Place,
    what: SyntaxWhat,
    err: &mut E,
) -> u8
    ensures { let outcome = TreeOutcome.Syntax place what in
        TreeReports path.now outcome (E.stand err.old) (E.stand err.new) result }
{
    put_made(
        syntax_line(alloc, ROOT_PACKAGE, path, place, &what),
        LOADING_STATUS,
        err,
    )
}

/// Reports an outcome: nothing of a finished one.
fn report<E: Sink>(alloc: Global, path: &str, outcome: TreeOutcome, err: &mut E) -> u8
    ensures { TreeReports path.now outcome (E.stand err.old) (E.stand err.new) result }
{
    match outcome {
        TreeOutcome::Finished => DONE_STATUS,
        TreeOutcome::Missing => write_missing(alloc, path, err),
        TreeOutcome::TooLong => put_line(TOO_LONG_LINE.as_bytes(), LOADING_STATUS, err),
        TreeOutcome::Syntax { place, what } => write_syntax(alloc, path, place, what, err),
        TreeOutcome::FolderFailed => put_line(FOLDER_LINE.as_bytes(), OUTSIDE_STATUS, err),
        TreeOutcome::OutputFailed => put_line(OUTPUT_LINE.as_bytes(), OUTSIDE_STATUS, err),
        TreeOutcome::OutOfMemory => put_line(MEMORY_LINE.as_bytes(), MEMORY_STATUS, err),
    }
}

/// Appends the lines of the term that a file's module is lowered to, and gives the exit status. The file is read as a source whatever its name, of at most `FILE_LIMIT` bytes.
///
/// The statuses: 0 the lines were appended, 3 no such file, a file too long or no program of the language, 7 a call on an object of the outside failed, 9 want of memory.
pub fn tree<F: Folder, O: Sink, E: Sink>(
    alloc: Global,
    path: &str,
    folder: &mut F,
    out: &mut O,
    err: &mut E,
) -> u8
    ensures answers { let before = outside (F.stand folder.old) (O.stand out.old) (E.stand err.old) in
        let after = outside (F.stand folder.new) (O.stand out.new) (E.stand err.new) in
        TreeAnswers path.now before after result }
    // A program's lines are appended.
    ensures ends { let before = outside (F.stand folder.old) (O.stand out.old) (E.stand err.old) in
        let after = outside (F.stand folder.new) (O.stand out.new) (E.stand err.new) in
        TreeEnds path.now before after result }
    // What is no program is refused, by its fault.
    ensures refuses { let before = outside (F.stand folder.old) (O.stand out.old) (E.stand err.old) in
        let after = outside (F.stand folder.new) (O.stand out.new) (E.stand err.new) in
        TreeRefuses path.now before after result }
    // Where there is no such file, or one that is too long, that is told.
    ensures misses { let before = outside (F.stand folder.old) (O.stand out.old) (E.stand err.old) in
        let after = outside (F.stand folder.new) (O.stand out.new) (E.stand err.new) in
        TreeMisses path.now before after result }
    ensures folder { (F.stand folder.new).told ≡ (F.stand folder.old).told }
{
    one_tree();
    one_text();
    let outcome = outcome_of(alloc, path, folder, out);
    report(alloc, path, outcome, err)
}

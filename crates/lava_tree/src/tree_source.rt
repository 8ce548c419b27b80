// A module's file, and the lines of its term.

ghost use Rattle.std.specs.Prelude.{IfOk, IfErr, MatchResult, ◌≡◌};
ghost use Rattle.lava_streams.specs.Counts.{Counts};
ghost use Rattle.lava_streams.specs.declared.folder.FileRead as file;
ghost use Rattle.lava_tree.specs.TreeAnswers.{IsTreeOf, IsTreeSource, IsTreeText};
ghost use Rattle.js_lower_table.specs.Table.{source_template_of};
ghost use Rattle.js_tree_lines.specs.Lines.{AreLinesOf};

use crate::tree_outcome::TreeSource;
use js_fault::fault::SyntaxFault;
use js_lower::modules::lower;
use js_program::program::read_program;
use js_tree::tree::{Module, SourceKind};
use js_tree_lines::lines::template_lines;
use lava_base::list::List;
use lava_base::memory::OutOfMemory;
use lava_streams::fault::ReadFault;
use lava_streams::folder::{FileRead, Folder};
use std::alloc::Global;

/// How many bytes a file has at most.
pub const FILE_LIMIT: u32 = 1048576;

/// The lines of a module's term.
fn lines_of(alloc: Global, tree: &Module) -> Result<List<u8>, OutOfMemory>
    ensures { IfOk result (AreLinesOf (source_template_of tree.now)) }
{
    let template = lower(alloc, tree)?;
    template_lines(alloc, &template)
}

/// What the bytes of a file are.
fn source_of(alloc: Global, bytes: &[u8]) -> Result<TreeSource, OutOfMemory>
    ensures { IfOk result (IsTreeSource (FileRead.Bytes bytes.now)) }
{
    match read_program(alloc, SourceKind::Module, bytes) {
        Ok(module) => {
            let lines = lines_of(alloc, &module)?;
            Ok(TreeSource::Lines(lines))
        }
        Err(SyntaxFault::At { place, what }) => Ok(TreeSource::Refused { place, what }),
        Err(SyntaxFault::OutOfMemory) => Err(OutOfMemory),
    }
}

/// What the file of a path is, whatever its name.
pub fn find<F: Folder>(alloc: Global, folder: &mut F, path: &str) -> Result<TreeSource, ReadFault>
    ensures tells { (F.stand folder.new).told ≡ (F.stand folder.old).told }
    ensures counts { Counts (F.stand folder.old).count (F.stand folder.new).count result }
    ensures gives { IfOk result (IsTreeOf (F.stand folder.old).told path.now) }
{
    match folder.read(alloc, path, FILE_LIMIT)? {
        FileRead::Absent => Ok(TreeSource::Absent),
        FileRead::Longer => Ok(TreeSource::Longer),
        FileRead::Bytes(bytes) => {
            let source = source_of(alloc, bytes.as_slice())?;
            Ok(source)
        }
    }
}

// How the command ends.

use js_fault::fault::SyntaxWhat;
use lava_base::list::List;
use lava_base::place::Place;

/// How `lava tree FILE` ends.
#[derive(Drop)]
pub enum TreeOutcome {
    /// The lines were appended to the output.
    Finished,
    /// There is no such file.
    Missing,
    /// The file has more than `FILE_LIMIT` bytes.
    TooLong,
    /// The file is no program of the language: what is wrong, and at which place.
    Syntax { place: Place, what: SyntaxWhat },
    /// A call on the folder failed.
    FolderFailed,
    /// A call on the output failed.
    OutputFailed,
    /// There was no memory left.
    OutOfMemory,
}

/// What a file is.
#[derive(Drop)]
pub enum TreeSource {
    /// There is no file.
    Absent,
    /// It has more than `FILE_LIMIT` bytes.
    Longer,
    /// It is no program of the language.
    Refused { place: Place, what: SyntaxWhat },
    /// A module, whose term has these lines.
    Lines(List<u8>),
}

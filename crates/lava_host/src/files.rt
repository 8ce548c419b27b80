// What `fs` finds in the folder.

ghost use Rattle.std.specs.Prelude.{◌≡◌, IfOk, string_bytes};
ghost use Rattle.lava_host.specs.Hosts.{ReadsFile, ReadsInner, LooksForFile, StandsInner, FileInner, DirectoryInner, path_argument};

use crate::fault::{HostFault, Which};
use crate::path::inner_path;
use crate::printed::{NO_MARKS, push_value};
use crate::replies::{file_reply, throw_of};
use js_desc::reply::Reply;
use js_text::value::Value;
use lava_base::list::List;
use lava_base::memory::OutOfMemory;
use lava_streams::fault::ReadFault;
use lava_streams::folder::{FileRead, Folder, Listing};
use std::alloc::Global;

/// How many bytes a file may have.
pub const FILE_LIMIT: u32 = 1_048_576;

/// The text of the file at a path.
pub(crate) fn read_file<F: Folder>(
    alloc: Global,
    dir: &str,
    path: &str,
    folder: &mut F,
) -> Result<Reply, HostFault>
    ensures { ReadsFile dir.now path.now (F.Folder.stand folder.old) (F.Folder.stand folder.new)
        result }
{
    match inner_path(alloc, dir, path)? {
        None => Ok(throw_of(alloc, "outside the folder")?),
        Some(inner) => read_inner(alloc, inner.as_str(), folder),
    }
}

/// The text of the file at a path of the folder.
fn read_inner<F: Folder>(alloc: Global, path: &str, folder: &mut F) -> Result<Reply, HostFault>
    ensures { ReadsInner path.now (F.Folder.stand folder.old) (F.Folder.stand folder.new) result }
{
    match folder.read(alloc, path, FILE_LIMIT) {
        Ok(file) => Ok(file_reply(alloc, &file)?),
        Err(ReadFault::Failed) => Err(HostFault::Outside(Which::Folder)),
        Err(ReadFault::OutOfMemory) => Err(HostFault::OutOfMemory),
    }
}

/// Whether a file or a directory stands at a path.
pub(crate) fn look_for_file<F: Folder>(
    alloc: Global,
    dir: &str,
    path: &str,
    folder: &mut F,
) -> Result<Reply, HostFault>
    ensures { LooksForFile dir.now path.now (F.Folder.stand folder.old)
        (F.Folder.stand folder.new) result }
{
    match inner_path(alloc, dir, path)? {
        None => Ok(Reply::Value(Value::Bool(false))),
        Some(inner) => Ok(Reply::Value(Value::Bool(stands_at(alloc, inner.as_str(), folder)?))),
    }
}

/// Whether a file or a directory stands at a path of the folder.
fn stands_at<F: Folder>(alloc: Global, path: &str, folder: &mut F) -> Result<bool, HostFault>
    ensures { StandsInner path.now (F.Folder.stand folder.old) (F.Folder.stand folder.new) result }
{
    if file_at(alloc, path, folder)? {
        return Ok(true);
    }
    directory_at(alloc, path, folder)
}

/// Whether a file stands at a path of the folder.
fn file_at<F: Folder>(alloc: Global, path: &str, folder: &mut F) -> Result<bool, HostFault>
    ensures { FileInner path.now (F.Folder.stand folder.old) (F.Folder.stand folder.new) result }
{
    match folder.read(alloc, path, 0) {
        Ok(FileRead::Absent) => Ok(false),
        Ok(_) => Ok(true),
        Err(ReadFault::Failed) => Err(HostFault::Outside(Which::Folder)),
        Err(ReadFault::OutOfMemory) => Err(HostFault::OutOfMemory),
    }
}

/// Whether a directory stands at a path of the folder.
fn directory_at<F: Folder>(alloc: Global, path: &str, folder: &mut F) -> Result<bool, HostFault>
    ensures { DirectoryInner path.now (F.Folder.stand folder.old) (F.Folder.stand folder.new)
        result }
{
    match folder.list(alloc, path) {
        Ok(Listing::Absent) => Ok(false),
        Ok(Listing::Names(_)) => Ok(true),
        Err(ReadFault::Failed) => Err(HostFault::Outside(Which::Folder)),
        Err(ReadFault::OutOfMemory) => Err(HostFault::OutOfMemory),
    }
}

/// The path that the first argument of a call is, in its printed form. The piece is room that is used again.
pub(crate) fn path_of_arguments(
    alloc: Global,
    piece: &mut List<u8>,
    values: &[Value],
) -> Result<String, OutOfMemory>
    ensures { IfOk result (λ path. string_bytes path ≡ path_argument values.now) }
{
    piece.truncate(0);
    match values {
        [] => push_value(piece, &Value::Undefined, NO_MARKS)?,
        [first, ..] => push_value(piece, first, NO_MARKS)?,
    }
    text_of_bytes(alloc, piece.as_slice())
}

/// The text of bytes that are UTF-8, as the printed form of a value is.
fn text_of_bytes(alloc: Global, bytes: &[u8]) -> Result<String, OutOfMemory>
    ensures { IfOk result (λ text. string_bytes text ≡ bytes.now) }
{
    match str::from_utf8(bytes) {
        Ok(text) => Ok(String::from_str(alloc, text)?),
        Err(_) => Err(OutOfMemory),
    }
}

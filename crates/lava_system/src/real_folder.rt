// A folder of the system's files.

ghost use Rattle.std.specs.Prelude.{◌≡◌, ◌↔◌, Ok, None, Some, IfOk, IsErrAnd, IsTrue};
ghost use Rattle.std.specs.IoError.{error_kind};
ghost use Rattle.lava_system.specs.Adapters.{LeadsNowhere};
ghost use Rattle.lava_streams.specs.Folders.{IsWithin, read_of};

use crate::faults::{counted, fault_of};
use lava_base::list::List;
use lava_base::name::Name;
use lava_streams::fault::ReadFault;
use lava_streams::folder::{FileRead, Folder, Listing};
use std::alloc::Global;
use std::fs::ReadDir;
use std::io::{ErrorKind, Read};
use std::marker::Model;
use std::rt::Files;
use std::{fs, io};

/// How many names a listing may have.
const NAME_LIMIT: usize = 65_536;

/// The system's files, by the paths that the system takes. It tells nothing of what they hold.
///
/// A path leads to no file and to no directory where nothing is there, where a part before the last is no directory, and where no file can have such a name: a NUL in it, or more bytes than the system's names may have. Symbolic links are followed. A file is a regular one: a directory, a pipe and a device are `Absent`, and are not opened. A listing is a fault where it has more than 65,536 names or one that is not UTF-8.
#[derive(Drop)]
pub struct RealFolder<R> {
    rt: R,
    faults: u64,
}

impl<R> Model for RealFolder<R> {
    ghost use Rattle.std.specs.Prelude.{ℕ};

    ghost Value = { ℕ };

    ghost view = { λ f. f.faults };
}

impl<R: Files + Drop> RealFolder<R> {
    /// The files of a runtime, which contracts see as the count of faults.
    pub fn new(rt: R) -> RealFolder<R>
        ensures { result ≡ 0 }
    {
        RealFolder { rt, faults: 0 }
    }
}

impl<R: Files + Drop> Folder for RealFolder<R> {
    ghost stand = { λ f. record { count = f; told = None } };

    fn faults(&self) -> u64 {
        self.faults
    }

    fn list(&mut self, alloc: Global, dir: &str) -> Result<Listing, ReadFault> {
        let listing = list_directory(&self.rt, alloc, dir);
        counted(&mut self.faults, listing)
    }

    fn read(&mut self, alloc: Global, path: &str, limit: u32) -> Result<FileRead, ReadFault> {
        let read = read_file(&self.rt, alloc, path, limit);
        counted(&mut self.faults, read)
    }
}

// What a file holds.
fn read_file<R: Files>(
    files: &R,
    alloc: Global,
    path: &str,
    limit: u32,
) -> Result<FileRead, ReadFault>
    ensures { IfOk result (λ read. IsWithin limit read) }
{
    match open_file(files, path)? {
        Some(file) => Ok(within_limit(first_bytes(alloc, file, limit)?, limit)),
        None => Ok(FileRead::Absent),
    }
}

// Opens the regular file at a path, if there is one.
fn open_file<R: Files>(files: &R, path: &str) -> Result<Option<R::File>, ReadFault> {
    match found(fs::metadata(files, path))? {
        Some(metadata) if metadata.is_file() => found(fs::open(files, path)),
        _ => Ok(None),
    }
}

// The bytes of a file, but at most one more than the limit.
fn first_bytes(alloc: Global, file: impl Read + Drop, limit: u32) -> Result<Vec<u8>, ReadFault> {
    let mut bytes = Vec::new(alloc);
    match file.take(u64::from(limit) + 1).read_to_end(&mut bytes) {
        Ok(_) => Ok(bytes),
        Err(error) => Err(fault_of(error)),
    }
}

// The bytes, unless they are more than the limit.
fn within_limit(bytes: Vec<u8>, limit: u32) -> FileRead
    ensures { result ≡ read_of (Some bytes.items) limit }
{
    if bytes.len() > limit as usize {
        FileRead::Longer
    } else {
        FileRead::Bytes(List::from_vec(bytes))
    }
}

// What the system found at a path, if the path leads to anything.
fn found<T: Drop>(answer: io::Result<T>) -> Result<Option<T>, ReadFault>
    ensures there { IfOk answer (λ there. result ≡ Ok (Some there)) }
    ensures absent { result ≡ Ok None ↔ IsErrAnd answer (λ error. LeadsNowhere (error_kind error)) }
{
    match answer {
        Ok(there) => Ok(Some(there)),
        Err(error) if leads_nowhere(error.kind()) => Ok(None),
        Err(error) => Err(fault_of(error)),
    }
}

// Whether a path that the system refuses so leads to nothing.
fn leads_nowhere(kind: ErrorKind) -> bool
    ensures { IsTrue result ↔ LeadsNowhere kind }
{
    matches!(
        kind,
        ErrorKind::NotFound
            | ErrorKind::NotADirectory
            | ErrorKind::InvalidFilename
            | ErrorKind::InvalidInput
    )
}

// The names in a directory.
fn list_directory<R: Files>(files: &R, alloc: Global, dir: &str) -> Result<Listing, ReadFault> {
    match found(fs::read_dir(&(files, alloc), dir))? {
        Some(entries) => Ok(Listing::Names(List::from_vec(names_in_order(alloc, entries)?))),
        None => Ok(Listing::Absent),
    }
}

// The names of a directory's entries, each once, in byte order.
fn names_in_order<R: Files>(
    alloc: Global,
    entries: ReadDir<(&R, Global), Global>,
) -> Result<Vec<Name>, ReadFault> {
    let mut names = Vec::new(alloc);
    for entry in entries {
        let entry = match entry {
            Ok(entry) => entry,
            Err(error) => return Err(fault_of(error)),
        };
        if names.len() == NAME_LIMIT {
            return Err(ReadFault::Failed);
        }
        names.push(Name::of(alloc, entry.file_name())?)?;
    }
    put_in_order(&mut names);
    Ok(names)
}

// Puts names into byte order, each once.
fn put_in_order(names: &mut Vec<Name>) {
    names.sort_unstable_by(|a, b| a.as_str().cmp(b.as_str()));
    names.dedup_by(|a, b| a.as_str() == b.as_str());
}

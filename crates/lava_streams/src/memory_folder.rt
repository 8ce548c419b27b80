// A folder in memory.

ghost use Rattle.std.specs.Prelude.{◌≡◌, ◌++◌, ◌∷◌, [], ◌≤◌, ◌↔◌, IsTrue, Some, IfOk, OnOk, OnErr, IsErrOf, option_copied};
ghost use Rattle.lava_streams.specs.Counts.{Counts};
ghost use Rattle.lava_streams.specs.Failures.{no_failures, failing_at, fails_next, after_call};
ghost use Rattle.lava_streams.specs.Files.{file_at};
ghost use Rattle.lava_streams.specs.Folders.{file_read, listing_of, IsWithin};

use crate::failing::Failing;
use crate::fault::ReadFault;
use crate::folder::{FileRead, Folder, Listing};
use crate::names::names_directly_in;
use lava_base::list::List;
use lava_base::memory::OutOfMemory;
use lava_base::name::Name;
use std::alloc::Global;
use std::marker::Model;

/// A folder in memory, which tells its files. Its directories are the prefixes of added paths that end before a `/`. Calls of `list` and `read` can be made to fail.
#[derive(Drop)]
pub struct MemoryFolder {
    alloc: Global,
    files: List<(Name, List<u8>)>,
    failing: Failing,
}

impl Model for MemoryFolder {
    ghost use Rattle.lava_streams.specs.States.{FolderState};

    ghost Value = { FolderState };

    ghost view = { λ f. record { files = f.files; failing = f.failing } };
}

impl MemoryFolder {
    /// A folder without a file. It takes no memory, and keeps the allocator for what is added.
    pub fn new(alloc: Global) -> MemoryFolder
        ensures { result ≡ record { files = []; failing = no_failures } }
    {
        MemoryFolder {
            alloc,
            files: List::new(alloc),
            failing: Failing::new(alloc),
        }
    }

    /// Adds a file. Of two files with one path the later stands. After a refusal the folder is as before.
    pub fn add(&mut self, path: &str, bytes: &[u8]) -> Result<(), OutOfMemory>
        ensures ok { let files = self.old.files ++ (path.now, bytes.now) ∷ [] in
            OnOk result (self.new ≡ record self.old { files = files }) }
        ensures err { OnErr result (self.new ≡ self.old) }
    {
        let path = Name::of(self.alloc, path)?;
        let bytes = List::from_vec(Vec::from_slice(self.alloc, bytes)?);
        self.files.push((path, bytes))
    }

    /// Every added file, in the order of the `add` calls, also one that a later file with its path replaces.
    pub fn held(&self) -> &List<(Name, List<u8>)>
        ensures { result.now ≡ self.now.files }
    {
        &self.files
    }

    /// Lets the `n`-th call of `list` or `read` from now fail. After a refusal the folder is as before.
    pub fn fail_at(&mut self, n: u32) -> Result<(), OutOfMemory>
        requires { 1 ≤ n }
        ensures ok { let failing = failing_at self.old.failing n in
            OnOk result (self.new ≡ record self.old { failing = failing }) }
        ensures err { OnErr result (self.new ≡ self.old) }
    {
        self.failing.fail_at(n)
    }
}

impl Folder for MemoryFolder {
    ghost stand = { λ f. record { count = f.failing.faults; told = Some f.files } };

    fn faults(&self) -> u64
        ensures { result ≡ self.now.failing.faults }
    {
        self.failing.faults()
    }

    // Every call counts towards those that are to fail, also one that finds no memory for its answer. It fails exactly where it is to.
    fn list(&mut self, alloc: Global, dir: &str) -> Result<Listing, ReadFault>
        ensures tells { self.new.files ≡ self.old.files }
        ensures counts { Counts self.old.failing.faults self.new.failing.faults result }
        ensures gives { IfOk result (λ r. r ≡ listing_of self.old.files dir.now) }
        ensures after { self.new ≡ record self.old { failing = after_call self.old.failing } }
        ensures fails { IsErrOf result ReadFault.Failed ↔ IsTrue (fails_next self.old.failing) }
    {
        if self.failing.call() {
            return Err(ReadFault::Failed);
        }
        let names = names_directly_in(alloc, self.files.as_slice(), dir)?;
        if names.is_empty() {
            Ok(Listing::Absent)
        } else {
            Ok(Listing::Names(List::from_vec(names)))
        }
    }

    fn read(&mut self, alloc: Global, path: &str, limit: u32) -> Result<FileRead, ReadFault>
        ensures tells { self.new.files ≡ self.old.files }
        ensures counts { Counts self.old.failing.faults self.new.failing.faults result }
        ensures gives { IfOk result (λ r. r ≡ file_read self.old.files path.now limit) }
        ensures within { IfOk result (λ r. IsWithin limit r) }
        ensures after { self.new ≡ record self.old { failing = after_call self.old.failing } }
        ensures fails { IsErrOf result ReadFault.Failed ↔ IsTrue (fails_next self.old.failing) }
    {
        if self.failing.call() {
            return Err(ReadFault::Failed);
        }
        match file_at_path(self.files.as_slice(), path) {
            None => Ok(FileRead::Absent),
            Some(bytes) if bytes.len() > limit as usize => Ok(FileRead::Longer),
            Some(bytes) => Ok(FileRead::Bytes(List::from_vec(Vec::from_slice(alloc, bytes)?))),
        }
    }
}

// The bytes of the file that was added last with a path.
fn file_at_path<'a>(files: &'a [(Name, List<u8>)], path: &str) -> Option<&'a [u8]>
    ensures { option_copied result ≡ file_at files.now path.now }
{
    let file = files.iter().rev().find(|file| file.0.as_str() == path)?;
    Some(file.1.as_slice())
}

// A folder in memory of which no call fails.

ghost use Rattle.std.specs.Prelude.{◌≡◌, Some, IfOk};
ghost use Rattle.lava_big.specs.BigFiles.{held_stand};
ghost use Rattle.lava_streams.specs.Counts.{Counts};
ghost use Rattle.lava_streams.specs.Failures.{no_failures};
ghost use Rattle.lava_streams.specs.Folders.{file_read, listing_of, IsWithin};

use lava_streams::fault::ReadFault;
use lava_streams::folder::{FileRead, Folder, Listing};
use lava_streams::memory_folder::MemoryFolder;
use std::alloc::Global;
use std::marker::Model;

/// A folder in memory of which no call fails: it counts no fault. A contract sees its files.
#[derive(Drop)]
pub struct HeldFolder {
    folder: MemoryFolder,
}

impl Model for HeldFolder {
    ghost use Rattle.lava_streams.specs.Failures.{no_failures};
    ghost use Rattle.lava_streams.specs.Files.{Files};
    ghost use Rattle.std.specs.Prelude.{◌≡◌};

    ghost Value = { Files };

    ghost view = { λ f. f.folder.files };

    ghost invariant = { λ f. f.folder.failing ≡ no_failures };
}

impl HeldFolder {
    /// The folder of these files.
    pub fn of(folder: MemoryFolder) -> HeldFolder
        requires { folder.failing ≡ no_failures }
        ensures { result ≡ folder.files }
    {
        HeldFolder { folder }
    }
}

impl Folder for HeldFolder {
    ghost use Rattle.lava_big.specs.BigFiles.{held_stand};

    ghost stand = { λ files. held_stand files };

    fn faults(&self) -> u64
        ensures { result ≡ 0 }
    {
        self.folder.faults()
    }

    fn list(&mut self, alloc: Global, dir: &str) -> Result<Listing, ReadFault>
        ensures tells { self.new ≡ self.old }
        ensures counts { Counts 0 0 result }
        ensures gives { IfOk result (λ r. r ≡ listing_of self.old dir.now) }
    {
        self.folder.list(alloc, dir)
    }

    fn read(&mut self, alloc: Global, path: &str, limit: u32) -> Result<FileRead, ReadFault>
        ensures tells { self.new ≡ self.old }
        ensures counts { Counts 0 0 result }
        ensures gives { IfOk result (λ r. r ≡ file_read self.old path.now limit) }
        ensures within { IfOk result (λ r. IsWithin limit r) }
    {
        self.folder.read(alloc, path, limit)
    }
}

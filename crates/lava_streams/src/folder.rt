// A folder of files.

use crate::fault::ReadFault;
use lava_base::list::List;
use lava_base::name::Name;
use std::alloc::Global;

/// What a directory holds.
#[derive(Drop)]
pub enum Listing {
    /// The names that stand directly in it, each once, in byte order.
    Names(List<Name>),
    /// The path leads to no directory.
    Absent,
}

/// What a file holds.
#[derive(Drop)]
pub enum FileRead {
    /// All its bytes.
    Bytes(List<u8>),
    /// The path leads to no file.
    Absent,
    /// The file has more bytes than the limit.
    Longer,
}

/// A folder, which may fail. It counts its faults, and may tell what it holds.
pub trait Folder {
    ghost use Rattle.std.specs.Prelude.{◌≡◌, IfOk};
    ghost use Rattle.lava_streams.specs.Files.{Files};
    ghost use Rattle.lava_streams.specs.Outside.{Stand};
    ghost use Rattle.lava_streams.specs.Counts.{Counts, ForTold};
    ghost use Rattle.lava_streams.specs.Folders.{file_read, listing_of, IsWithin};

    // The faults so far, and the files by path, in the order in which they were added, where it tells.
    ghost stand: { Self → Stand Files };

    /// The faults so far.
    fn faults(&self) -> u64
        ensures { result ≡ (stand self.now).count };

    /// The names that stand directly in a directory.
    fn list(&mut self, alloc: Global, dir: &str) -> Result<Listing, ReadFault>
        ensures tells { (stand self.new).told ≡ (stand self.old).told }
        ensures counts { Counts (stand self.old).count (stand self.new).count result }
        ensures gives { let told = (stand self.old).told in
            ForTold told (λ files. IfOk result (λ r. r ≡ listing_of files dir.now)) };

    /// The bytes of a file that has at most `limit` of them.
    fn read(&mut self, alloc: Global, path: &str, limit: u32) -> Result<FileRead, ReadFault>
        ensures tells { (stand self.new).told ≡ (stand self.old).told }
        ensures counts { Counts (stand self.old).count (stand self.new).count result }
        ensures gives { let told = (stand self.old).told in
            ForTold told (λ files. IfOk result (λ r. r ≡ file_read files path.now limit)) }
        ensures within { IfOk result (λ r. IsWithin limit r) };
}

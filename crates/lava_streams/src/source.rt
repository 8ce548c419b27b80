// An input, read line by line.

use crate::fault::ReadFault;
use lava_base::list::List;
use std::alloc::Global;

/// How many bytes a line may have.
pub const LINE_LIMIT: usize = 1_048_576;

/// What a line is.
#[derive(Drop)]
pub enum Line {
    /// Its bytes, at most `LINE_LIMIT`, without the LF that ends it.
    Bytes(List<u8>),
    /// No byte is left.
    End,
    /// More than `LINE_LIMIT` bytes stand before the next LF or the end. So many alone are taken.
    TooLong,
}

/// An input, which may fail. It counts its faults, and may tell what is left.
pub trait Source {
    ghost use Rattle.std.specs.Prelude.{◌≡◌, ℕ, List as Listed, IfOk, OnErr};
    ghost use Rattle.lava_streams.specs.Outside.{Stand};
    ghost use Rattle.lava_streams.specs.Counts.{Counts, ForTold};
    ghost use Rattle.lava_streams.specs.Left.{LeavesEnd};
    ghost use Rattle.lava_streams.specs.Lines.{GivesLine, IsWithinLine};

    // The faults so far, and the bytes that are left, where it tells.
    ghost stand: { Self → Stand (Listed ℕ) };

    /// The faults so far.
    fn faults(&self) -> u64
        ensures { result ≡ (stand self.now).count };

    /// Takes the next line. After a fault or for want of memory an end of what was left is left.
    fn line(&mut self, alloc: Global) -> Result<Line, ReadFault>
        ensures counts { Counts (stand self.old).count (stand self.new).count result }
        ensures gives { let now = (stand self.new).told in
            ForTold (stand self.old).told (λ left. IfOk result (λ line. GivesLine left line now)) }
        ensures err { let now = (stand self.new).told in
            ForTold (stand self.old).told (λ left. OnErr result (LeavesEnd left now)) }
        ensures within { IfOk result IsWithinLine };
}

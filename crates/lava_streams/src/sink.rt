// A sink, which takes bytes.

use crate::fault::Failed;

/// A sink, which may fail. It counts its faults, and may tell what was appended.
pub trait Sink {
    ghost use Rattle.std.specs.Prelude.{◌≡◌, ℕ, List, ◌++◌, Some, OnOk, OnErr};
    ghost use Rattle.lava_streams.specs.Outside.{Stand};
    ghost use Rattle.lava_streams.specs.Counts.{CountsFailed, ForTold};
    ghost use Rattle.lava_streams.specs.Pieces.{AppendsPrefix};

    // The faults so far, and the bytes that were appended so far, where it tells.
    ghost stand: { Self → Stand (List ℕ) };

    /// The faults so far.
    fn faults(&self) -> u64
        ensures { result ≡ (stand self.now).count };

    /// Appends a piece, or after a refusal a prefix of it.
    fn put(&mut self, piece: &[u8]) -> Result<(), Failed>
        ensures counts { CountsFailed (stand self.old).count (stand self.new).count result }
        ensures ok { let now = (stand self.new).told in
            ForTold (stand self.old).told (λ held. OnOk result (now ≡ Some (held ++ piece.now))) }
        ensures err { let told = (stand self.old).told in
            let now = (stand self.new).told in
            ForTold told (λ held. OnErr result (AppendsPrefix held piece.now now)) };
}

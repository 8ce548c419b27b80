// A clock.

use crate::fault::Failed;

/// A clock, which may fail. It counts its faults, and may tell the moments that are left.
pub trait Clock {
    ghost use Rattle.std.specs.Prelude.{◌≡◌, ℕ, ◌≤◌, List, IfOk, OnErr};
    ghost use Rattle.lava_base.specs.declared.limits.TheConstants.{MAX_SAFE_INTEGER};
    ghost use Rattle.lava_streams.specs.Outside.{Stand};
    ghost use Rattle.lava_streams.specs.Counts.{CountsFailed, ForTold};
    ghost use Rattle.lava_streams.specs.Left.{LeavesEnd};
    ghost use Rattle.lava_streams.specs.Moments.{IsNext};

    // The faults so far, and the moments that are left, where it tells.
    ghost stand: { Self → Stand (List ℕ) };

    /// The faults so far.
    fn faults(&self) -> u64
        ensures { result ≡ (stand self.now).count };

    /// Takes the next moment, which is a safe integer. After a fault an end of what was left is left.
    fn now(&mut self) -> Result<u64, Failed>
        ensures counts { CountsFailed (stand self.old).count (stand self.new).count result }
        ensures gives { let now = (stand self.new).told in
            ForTold (stand self.old).told (λ left. IfOk result (λ moment. IsNext left moment now)) }
        ensures err { let now = (stand self.new).told in
            ForTold (stand self.old).told (λ left. OnErr result (LeavesEnd left now)) }
        ensures within { IfOk result (λ moment. moment ≤ MAX_SAFE_INTEGER) };
}

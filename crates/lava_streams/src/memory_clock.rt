// A clock in memory.

ghost use Rattle.std.specs.Prelude.{◌≡◌, ◌++◌, ◌∷◌, [], ◌≤◌, Some, is_ok, IfOk, OnOk, OnErr};
ghost use Rattle.lava_base.specs.declared.limits.TheConstants.{MAX_SAFE_INTEGER};
ghost use Rattle.lava_streams.specs.Counts.{CountsFailed};
ghost use Rattle.lava_streams.specs.Failures.{no_failures, failing_at};
ghost use Rattle.lava_streams.specs.Left.{LeavesEnd};
ghost use Rattle.lava_streams.specs.Moments.{IsNext};
ghost use Rattle.lava_streams.specs.States.{gives_moment, after_now};

use crate::clock::Clock;
use crate::failing::Failing;
use crate::fault::Failed;
use lava_base::list::List;
use lava_base::memory::OutOfMemory;
use std::alloc::Global;
use std::marker::Model;

/// A clock in memory, which tells its moments. Calls of `now` can be made to fail.
#[derive(Drop)]
pub struct MemoryClock {
    moments: List<u64>,
    failing: Failing,
}

impl Model for MemoryClock {
    ghost use Rattle.std.specs.Prelude.{◌≤◌, All};
    ghost use Rattle.lava_base.specs.declared.limits.TheConstants.{MAX_SAFE_INTEGER};
    ghost use Rattle.lava_streams.specs.States.{ClockState};

    ghost Value = { ClockState };

    ghost view = { λ c. record { moments = c.moments; failing = c.failing } };

    ghost invariant = { λ c. All (λ m. m ≤ MAX_SAFE_INTEGER) c.moments };
}

impl MemoryClock {
    /// A clock without a moment. It takes no memory, and keeps the allocator for what is added.
    pub fn new(alloc: Global) -> MemoryClock
        ensures { result ≡ record { moments = []; failing = no_failures } }
    {
        MemoryClock {
            moments: List::new(alloc),
            failing: Failing::new(alloc),
        }
    }

    /// Adds a moment, which is a safe integer. After a refusal the clock is as before.
    pub fn add(&mut self, moment: u64) -> Result<(), OutOfMemory>
        requires { moment ≤ MAX_SAFE_INTEGER }
        ensures ok { let moments = self.old.moments ++ moment ∷ [] in
            OnOk result (self.new ≡ record self.old { moments = moments }) }
        ensures err { OnErr result (self.new ≡ self.old) }
    {
        self.moments.push(moment)
    }

    /// The moments that are not yet taken.
    pub fn held(&self) -> &List<u64>
        ensures { result.now ≡ self.now.moments }
    {
        &self.moments
    }

    /// Lets the `n`-th call of `now` from now fail. After a refusal the clock is as before.
    pub fn fail_at(&mut self, n: u32) -> Result<(), OutOfMemory>
        requires { 1 ≤ n }
        ensures ok { let failing = failing_at self.old.failing n in
            OnOk result (self.new ≡ record self.old { failing = failing }) }
        ensures err { OnErr result (self.new ≡ self.old) }
    {
        self.failing.fail_at(n)
    }
}

impl Clock for MemoryClock {
    ghost stand = { λ c. record { count = c.failing.faults; told = Some c.moments } };

    fn faults(&self) -> u64
        ensures { result ≡ self.now.failing.faults }
    {
        self.failing.faults()
    }

    // It fails exactly where it is to, and then takes nothing, and where no moment is left.
    fn now(&mut self) -> Result<u64, Failed>
        ensures counts { CountsFailed self.old.failing.faults self.new.failing.faults result }
        ensures gives { let now = Some self.new.moments in
            IfOk result (λ moment. IsNext self.old.moments moment now) }
        ensures err { OnErr result (LeavesEnd self.old.moments (Some self.new.moments)) }
        ensures within { IfOk result (λ moment. moment ≤ MAX_SAFE_INTEGER) }
        ensures takes { is_ok result ≡ gives_moment self.old }
        ensures after { self.new ≡ after_now self.old }
    {
        if self.failing.call() {
            return Err(Failed);
        }
        if self.moments.is_empty() {
            self.failing.fault();
            return Err(Failed);
        }
        let moment = *self.moments.item(0);
        self.moments.drop_first(1);
        Ok(moment)
    }
}

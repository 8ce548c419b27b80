// The system's clock.

ghost use Rattle.std.specs.Prelude.{◌≡◌, ◌<◌, ◌≤◌, None, IfOk, MatchResult};

use crate::faults::counted_failed;
use lava_base::limits::MAX_SAFE_INTEGER;
use lava_streams::clock::Clock;
use lava_streams::fault::Failed;
use std::marker::Model;
use std::rt;
use std::time::{SystemTime, UNIX_EPOCH};

/// The system's clock, in milliseconds since the Unix epoch. It tells no moment. It fails where the system does, and at a moment before the epoch or past `MAX_SAFE_INTEGER`.
#[derive(Drop)]
pub struct RealClock<R> {
    rt: R,
    faults: u64,
}

impl<R> Model for RealClock<R> {
    ghost use Rattle.std.specs.Prelude.{ℕ};

    ghost Value = { ℕ };

    ghost view = { λ c. c.faults };
}

impl<R: rt::Clock + Drop> RealClock<R> {
    /// The clock of a runtime, which contracts see as its count of faults.
    pub fn new(rt: R) -> RealClock<R>
        ensures { result ≡ 0 }
    {
        RealClock { rt, faults: 0 }
    }
}

impl<R: rt::Clock + Drop> Clock for RealClock<R> {
    ghost stand = { λ c. record { count = c; told = None } };

    fn faults(&self) -> u64 {
        self.faults
    }

    fn now(&mut self) -> Result<u64, Failed> {
        let moment = moment(&self.rt);
        counted_failed(&mut self.faults, moment)
    }
}

// The moment that the system's clock shows.
fn moment(clock: &impl rt::Clock) -> Result<u64, Failed>
    ensures { IfOk result (λ moment. moment ≤ MAX_SAFE_INTEGER) }
{
    let Ok(time) = SystemTime::now(clock) else {
        return Err(Failed);
    };
    match time.duration_since(UNIX_EPOCH) {
        Ok(since) => within_limit(since.as_millis()),
        Err(_) => Err(Failed),
    }
}

// A moment that is a safe integer.
fn within_limit(millis: u128) -> Result<u64, Failed>
    ensures { MatchResult result
        (λ moment. (moment ≡ millis) × (millis ≤ MAX_SAFE_INTEGER))
        (λ _. MAX_SAFE_INTEGER < millis) }
{
    if millis <= u128::from(MAX_SAFE_INTEGER) {
        Ok(millis as u64)
    } else {
        Err(Failed)
    }
}

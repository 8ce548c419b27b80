// The fronts of a text that repeat: by them a search knows where the text may stand next.

ghost use Rattle.std.specs.Prelude.{◌≡◌, ℕ, List, ◌+◌, ◌/◌, ◌≤◌, [], min, length, if◌then◌else◌, IsTrue};
ghost use Rattle.js_text.specs.Fronts.{KnownFronts, HasPeriod, reaching, IsReached, AreFrontsOf, IsAdvance, with_front};

use std::marker::Model;

/// A front is kept where it has its period at least so many times.
pub(crate) const TIMES: u32 = 4;

/// How many fronts are kept at most. Each has a period more than three times that of the one before it, so a text has no more than eleven.
const MOST_FRONTS: usize = 12;

/// So many first units of a text, of which each is the same as the one `period` places behind it.
#[derive(Clone, Copy)]
pub(crate) struct PeriodicFront {
    pub(crate) period: u32,
    pub(crate) reach: u32,
}

/// How many places a text moves on, and how many of its first units are then known to stand.
#[derive(Clone, Copy)]
pub(crate) struct Advance {
    pub(crate) places: u32,
    pub(crate) kept: u32,
}

/// Fronts of a text, by rising periods and rising lengths, among which are the longest of each period below a number.
#[derive(Drop)]
pub(crate) struct PeriodicFronts {
    fronts: [PeriodicFront; MOST_FRONTS],
    count: usize,
    below: u32,
}

impl Model for PeriodicFronts {
    ghost use Rattle.std.specs.Prelude.{◌≤◌, take};
    ghost use Rattle.js_text.specs.Fronts.{KnownFronts};
    ghost use Rattle.js_text.specs.declared.fronts.TheConstants.{MOST_FRONTS};

    ghost Value = { KnownFronts };

    ghost view = { λ p. record { fronts = take p.count p.fronts; below = p.below } };

    ghost invariant = { λ p. p.count ≤ MOST_FRONTS };
}

impl PeriodicFronts {
    /// None yet: no period is below 1.
    pub(crate) fn new() -> PeriodicFronts
        ensures { result ≡ record { fronts = []; below = 1 } }
    {
        PeriodicFronts {
            fronts: [PeriodicFront {
                period: 0,
                reach: 0,
            }; MOST_FRONTS],
            count: 0,
            below: 1,
        }
    }

    /// The number below which all periods are known.
    pub(crate) fn below(&self) -> u32
        ensures { result ≡ self.now.below }
    {
        self.below
    }

    /// Adds a front of the next period, if it is long enough and longer than all before it. False comes where there is no room.
    pub(crate) fn learn(&mut self, front: PeriodicFront) -> bool
        requires { front.period ≡ self.old.below }
        ensures fronts { (units : List ℕ) → AreFrontsOf units self.old
            → HasPeriod units front.reach front.period → AreFrontsOf units self.new }
        ensures reached { IsTrue result → front.period ≤ front.reach / TIMES
            → IsReached self.new.fronts front.reach }
        ensures below { self.new.below ≡ self.old.below }
    {
        if front.period > front.reach / TIMES || self.reaching(front.reach).is_some() {
            return true;
        }
        self.push(front)
    }

    /// Adds a front, if there is room.
    fn push(&mut self, front: PeriodicFront) -> bool
        ensures { self.new ≡ (if result then with_front self.old front else self.old) }
    {
        if self.count == MOST_FRONTS {
            return false;
        }
        self.fronts[self.count] = front;
        self.count += 1;
        true
    }

    /// The periods of so many further numbers are known.
    pub(crate) fn pass(&mut self, places: u32)
        requires { self.old.below + places ≤ 4294967295 }
        ensures { self.new ≡ record { fronts = self.old.fronts; below = self.old.below + places } }
    {
        self.below += places;
    }

    /// How far the text moves on where so many of its first units stand, and the next one does not: at no place in between can it stand.
    pub(crate) fn advance(&self, matched: u32) -> Advance
        ensures { (units : List ℕ) → AreFrontsOf units self.now → matched ≤ length units
            → IsAdvance units matched result }
    {
        let most = matched / TIMES;
        let Some(front) = self.reaching(matched) else {
            return self.plain(most);
        };
        if front.period <= most {
            return Advance {
                places: front.period,
                kept: matched - front.period,
            };
        }
        self.plain(most)
    }

    /// How far it moves on where no period up to a number is in the way.
    fn plain(&self, most: u32) -> Advance
        requires { most ≤ 1073741824 }
        ensures { result ≡ record { places = min (most + 1) self.now.below; kept = 0 } }
    {
        Advance {
            places: (most + 1).min(self.below),
            kept: 0,
        }
    }

    /// The first front that has so many units.
    fn reaching(&self, len: u32) -> Option<PeriodicFront>
        ensures { result ≡ reaching self.now.fronts len }
    {
        first_reaching(&self.fronts[..self.count], len)
    }
}

/// The first of these fronts that has so many units.
#[tactic(auto, using(crate::proofs::Fronts_laws::reaching_step, crate::proofs::Fronts_laws::reaching_end))]
fn first_reaching(fronts: &[PeriodicFront], len: u32) -> Option<PeriodicFront>
    ensures { result ≡ reaching fronts.now len }
{
    for front in fronts {
        if len <= front.reach {
            return Some(*front);
        }
    }
    None
}

// The steps of a run, which a budget bounds.

ghost use Rattle.std.specs.Prelude.{◌≡◌, ◌+◌, ◌≤◌, ◌↔◌, IsTrue};
ghost use Rattle.lava_base.specs.Steps.{after_spending};

use std::marker::Model;

/// How many steps a run may take, and how many it has taken.
#[derive(Drop)]
pub struct Steps {
    budget: u64,
    spent: u64,
}

impl Model for Steps {
    ghost use Rattle.std.specs.Prelude.{◌≤◌};
    ghost use Rattle.lava_base.specs.Spending.{Spending};

    ghost Value = { Spending };

    ghost view = { λ s. record { budget = s.budget; spent = s.spent } };

    ghost invariant = { λ s. s.spent ≤ s.budget };
}

impl Steps {
    /// No step is taken yet, of at most `budget`.
    pub fn new(budget: u64) -> Steps
        ensures { result ≡ record { budget = budget; spent = 0 } }
    {
        Steps { budget, spent: 0 }
    }

    /// Takes `n` steps, or none: false exactly where the steps taken and `n` together pass the budget, and then nothing changes.
    pub fn spend(&mut self, n: u64) -> bool
        ensures fits { IsTrue result ↔ (self.old.spent + n ≤ self.old.budget) }
        ensures spends { self.new ≡ after_spending self.old n result }
        ensures within { self.new.spent ≤ self.new.budget }
    {
        if n > self.budget - self.spent {
            return false;
        }
        self.spent += n;
        true
    }

    /// Takes one step, or none: `spend(1)`.
    pub fn tick(&mut self) -> bool
        ensures fits { IsTrue result ↔ (self.old.spent + 1 ≤ self.old.budget) }
        ensures spends { self.new ≡ after_spending self.old 1 result }
        ensures within { self.new.spent ≤ self.new.budget }
    {
        self.spend(1)
    }

    /// The steps that were taken.
    pub fn spent(&self) -> u64
        ensures spent { result ≡ self.now.spent }
        ensures within { self.now.spent ≤ self.now.budget }
    {
        self.spent
    }
}

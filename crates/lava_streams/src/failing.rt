// The calls of a memory form that are to fail, and its faults so far.

ghost use Rattle.std.specs.Prelude.{◌≡◌, ◌++◌, ◌∷◌, [], ◌≤◌, ◌-◌, ◌==◌, map, filter, nat_lt, OnOk, OnErr};
ghost use Rattle.std.specs.Bool.{OnTrue};
ghost use Rattle.std.specs.List.{list_any};
ghost use Rattle.lava_streams.specs.Counts.{Rises};
ghost use Rattle.lava_streams.specs.Failures.{no_failures, failing_at, fails_next, after_call, after_fault, due_after_call, one_more};

use lava_base::memory::OutOfMemory;
use std::alloc::Global;
use std::marker::Model;

/// How far off the calls are that are to fail, and the faults so far.
#[derive(Drop)]
pub struct Failing {
    due: Vec<u32>,
    faults: u64,
}

impl Model for Failing {
    ghost use Rattle.lava_streams.specs.Failures.{Failures};

    ghost Value = { Failures };

    ghost view = { λ f. record { due = f.due.items; faults = f.faults } };
}

impl Failing {
    /// No call is to fail, and there was no fault.
    pub fn new(alloc: Global) -> Failing
        ensures { result ≡ no_failures }
    {
        Failing {
            due: Vec::new(alloc),
            faults: 0,
        }
    }

    /// The faults so far.
    pub fn faults(&self) -> u64
        ensures { result ≡ self.now.faults }
    {
        self.faults
    }

    /// Lets the `n`-th call from now fail.
    pub fn fail_at(&mut self, n: u32) -> Result<(), OutOfMemory>
        requires { 1 ≤ n }
        ensures ok { OnOk result (self.new ≡ failing_at self.old n) }
        ensures err { OnErr result (self.new ≡ self.old) }
    {
        self.due.push(n)?;
        Ok(())
    }

    /// Counts a call: whether it is to fail, and then the count of faults rises.
    pub fn call(&mut self) -> bool
        ensures fails { result ≡ fails_next self.old }
        ensures after { self.new ≡ after_call self.old }
        ensures rises { OnTrue result (Rises self.old.faults self.new.faults) }
    {
        let fails = is_next_due(self.due.as_slice());
        count_down(&mut self.due);
        if fails {
            self.faults = self.faults.saturating_add(1);
        }
        fails
    }

    /// Counts a fault that was not due.
    pub fn fault(&mut self)
        ensures after { self.new ≡ after_fault self.old }
        ensures rises { Rises self.old.faults self.new.faults }
    {
        self.faults = self.faults.saturating_add(1);
    }
}

// Whether the next call is among those that are due.
fn is_next_due(due: &[u32]) -> bool
    ensures { result ≡ list_any (λ n. n == 1) due.now }
{
    due.iter().any(|n| *n == 1)
}

// Brings the calls that are due one call nearer, and forgets the one that came.
fn count_down(due: &mut Vec<u32>)
    ensures { due.new.items ≡ due_after_call due.old.items }
{
    forget_next(due);
    lessen(due.as_mut_slice());
}

// Forgets the calls that are due next.
fn forget_next(due: &mut Vec<u32>)
    ensures { due.new.items ≡ filter (λ n. nat_lt 1 n) due.old.items }
{
    due.retain(|n| *n > 1);
}

// Takes 1 from each number.
fn lessen(distances: &mut [u32])
    ensures { distances.new ≡ map (λ n. n - 1) distances.old }
{
    for n in distances.iter_mut() {
        *n = n.saturating_sub(1);
    }
}

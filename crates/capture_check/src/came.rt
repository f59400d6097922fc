//! The numbers that datagrams showed which came.

use indexmap::IndexSet;
use mt_base::NoMemory;
use std::alloc::Global;
use std::marker::Model;

/// The numbers that datagrams of a side and kind showed which came.
#[derive(Drop)]
pub(crate) struct NumbersCame {
    numbers: IndexSet<u64>,
}

impl Model for NumbersCame {
    ghost use Rattle.std.specs.Prelude.{ℕ, List};

    ghost Value = { List ℕ };

    ghost view = { λ c. c.numbers.keys };
}

impl NumbersCame {
    ghost use Rattle.std.specs.Prelude.{◌≡◌, ◌↔◌, ◌≤◌, ◌<◌, ◌+◌, ◌%◌, ◌^◌, ℕ, [], true, false, IsTrue, IsFalse, IfOk, OnOk};
    ghost use Rattle.capture_check.specs.Arrivals.{has, with_number};

    /// No number came yet.
    pub(crate) fn new(alloc: Global) -> Result<NumbersCame, NoMemory>
        ensures { IfOk result (λ came. came ≡ []) }
    {
        Ok(NumbersCame {
            numbers: IndexSet::with_capacity(alloc, 0)?,
        })
    }

    /// Whether no number came.
    pub(crate) fn is_empty(&self) -> bool
        ensures { IsTrue result ↔ (self.now ≡ []) }
    {
        self.numbers.is_empty()
    }

    /// Whether a number came.
    pub(crate) fn has(&self, number: u64) -> bool
        ensures { result ≡ has self.now number }
    {
        self.numbers.contains(&number)
    }

    /// Notes that a number came.
    pub(crate) fn add(&mut self, number: u64) -> Result<(), NoMemory>
        ensures { OnOk result (self.new ≡ with_number number self.old) }
    {
        self.numbers.insert(number)?;
        Ok(())
    }

    /// Whether so many numbers in a row came, from one on. Numbers go round.
    pub(crate) fn has_run(&self, first: u64, count: u64, round: u64) -> bool
        requires round { 0 < round }
        requires fits { first + count < 2 ^ 63 }
        ensures kept { IsTrue result → (ahead : ℕ) → ahead < count
            → has self.now ((first + ahead) % round) ≡ true }
        ensures broken { IsFalse result → (ahead : ℕ) × (ahead < count)
            × (has self.now ((first + ahead) % round) ≡ false) }
    {
        for ahead in 0..count {
            if !self.has((first + ahead) % round) {
                return false;
            }
        }
        true
    }
}

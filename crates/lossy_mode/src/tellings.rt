//! The tellings that are owed.

ghost use Rattle.std.specs.Prelude.{◌≡◌, ◌<◌, ◌≤◌, ◌^◌, ◌++◌, ℕ, List, [], length, nat_lt, replicate};
ghost use Rattle.carrier.specs.Layout.{Layout};
ghost use Rattle.carrier.specs.Due.{is_pressing};
ghost use Rattle.link_machine.specs.ReceiverView.{pressing_from};
ghost use Rattle.lossy_mode.specs.LossyView.{OwesFor};

use std::marker::Model;

/// How many tellings are owed, of which two stand for more, and since when.
#[derive(Drop)]
pub struct Tellings {
    owed: u32,
    since: u64,
}

impl Model for Tellings {
    ghost use Rattle.lossy_mode.specs.LossyView.{IsSoundTellings, Tellings as Owed};

    ghost Value = { Owed };

    ghost view = { λ s. record { owed = s.owed; since = s.since } };

    ghost invariant = { λ s. IsSoundTellings (record { owed = s.owed; since = s.since }) };
}

impl Tellings {
    /// None.
    pub fn new() -> Tellings
        ensures { OwesFor result [] }
    {
        Tellings { owed: 0, since: 0 }
    }

    /// So many more are owed, from this moment on.
    pub fn owe(&mut self, count: u32, at: u64)
        requires { at < 2 ^ 62 }
        ensures { (owed : List ℕ) → OwesFor self.old owed →
            OwesFor self.new (owed ++ replicate count at) }
    {
        if count == 0 {
            return;
        }
        if self.owed == 0 {
            self.since = at;
        }
        self.owed = self.owed.saturating_add(count).min(2);
    }

    /// None is owed any more.
    pub fn pay(&mut self)
        ensures { OwesFor self.new [] }
    {
        self.owed = 0;
    }

    /// Whether one is owed.
    pub fn are_owed(&self) -> bool
        ensures { (owed : List ℕ) → OwesFor self.now owed → result ≡ nat_lt 0 (length owed) }
    {
        self.owed > 0
    }

    /// Whether a telling has to be sent alone at this moment: two are owed, or one is for as long as it
    /// may be.
    pub fn is_pressing(&self, delay: u64, at: u64) -> bool
        requires { delay ≤ 200 }
        ensures { (layout : Layout) (owed : List ℕ) → layout.delay ≡ delay → OwesFor self.now owed →
            result ≡ is_pressing layout owed at }
    {
        self.owed == 2 || (self.owed == 1 && self.since + delay <= at)
    }

    /// The moment from which on a telling has to be sent alone; `None` where none is owed.
    pub fn deadline(&self, delay: u64) -> Option<u64>
        requires { delay ≤ 200 }
        ensures { (owed : List ℕ) → OwesFor self.now owed → result ≡ pressing_from delay owed }
    {
        match self.owed {
            0 => None,
            1 => Some(self.since + delay),
            _ => Some(0),
        }
    }
}

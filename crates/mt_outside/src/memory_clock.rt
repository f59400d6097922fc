//! A clock whose moments are given.

ghost use Rattle.std.specs.Prelude.{◌≡◌, ℕ, ◌+◌, ◌-◌, ◌<◌, ◌≤◌, ◌^◌, [], ◌∷◌, Some, is_err, min, drop, IfOk, OnOk, OnErr};
ghost use Rattle.std.proofs.Common.{refl, ◌∙◌};
ghost use Rattle.mt_outside.specs.Faults.{Rose};
ghost use Rattle.mt_outside.specs.Told.{added};
ghost use Rattle.mt_outside.specs.Memory.{Clocked, fails_at, first_or};

use crate::clock::{Clock, LAST_MOMENT};
use crate::failed::Failed;
use crate::faults::Faults;
use crate::plan::Plan;
use crate::story::Story;
use std::marker::Model;

/// A clock in memory, which gives its moments and then the last one again. Clauses see the moments
/// that it gave, the last of them, those that are left, the numbers of the calls that are to fail,
/// the number of the next call, and the faults so far.
#[derive(Drop)]
pub struct MemoryClock {
    all: Vec<u64>,
    at: usize,
    last: u64,
    given: Story<u64>,
    plan: Plan,
    faults: Faults,
}

impl Model for MemoryClock {
    ghost Value = { Clocked };

    ghost view = { λ s. record {
      moments = s.given.list;
      last = s.last;
      left = drop s.at s.all.items;
      fails = s.plan.fails.items;
      next = s.plan.next;
      faults = s.faults.count;
    } };
}

impl MemoryClock {
    /// A clock that gives these moments in turn and then the last one again, 0 where it has none.
    /// They are below 2^62: of a greater one 2^62 - 1 is given. `fails` holds the numbers, from 0, of
    /// the calls of `Clock` that are to fail.
    pub fn new(moments: Vec<u64>, fails: Vec<u64>) -> MemoryClock
        ensures { result ≡ record {
          moments = [];
          last = 0;
          left = moments.items;
          fails = fails.items;
          next = 0;
          faults = 0;
        } }
    {
        MemoryClock {
            all: moments,
            at: 0,
            last: 0,
            given: Story::new(),
            plan: Plan::new(fails),
            faults: Faults::new(),
        }
    }
}

impl Clock for MemoryClock {
    ghost faults = { λ s. s.faults };

    ghost moments = { λ s. Some s.moments };

    ghost stays = { λ a b. b.fails ≡ a.fails };

    /// Gives the next moment. It fails where this call is to fail, and nowhere else.
    fn now(&mut self) -> Result<u64, Failed>
        ensures stays { self.new.fails ≡ self.old.fails }
        ensures never_falls { self.old.faults ≤ self.new.faults }
        ensures cause { OnErr result (Rose self.old.faults self.new.faults) }
        ensures counts { OnOk result (self.new.faults ≡ self.old.faults) }
        ensures bound { IfOk result (λ now. now < 2 ^ 62) }
        ensures tells { IfOk result (λ now.
            Some self.new.moments ≡ added (Some self.old.moments) (now ∷ [])) }
        ensures same { OnErr result (Some self.new.moments ≡ Some self.old.moments) }
        ensures answer { is_err result ≡ fails_at self.old.fails self.old.next }
        ensures gives { IfOk result (λ now.
            now ≡ min (first_or self.old.last self.old.left) (2 ^ 62 - 1)) }
        ensures last { IfOk result (λ now. self.new.last ≡ now) }
        ensures left { OnOk result (self.new.left ≡ drop 1 self.old.left) }
        ensures kept { OnErr result (self.new ≡ record self.old {
          next = min (self.old.next + 1) (2 ^ 64 - 1);
          faults = self.new.faults;
        }) }
        ensures fails { self.new.fails ≡ self.old.fails }
        ensures next { self.new.next ≡ min (self.old.next + 1) (2 ^ 64 - 1) }
    {
        if self.plan.is_to_fail() {
            return Err(self.faults.raise());
        }
        if let Some(moment) = self.all.get(self.at) {
            self.last = *moment;
            self.at += 1;
        }
        self.last = self.last.min(LAST_MOMENT);
        self.given = self.given.and(&self.last);
        Ok(self.last)
    }

    ghost stays_same = { λ _. refl };

    ghost stays_on = { λ _ _ _ first second. second ∙ first };
}

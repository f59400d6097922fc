//! A source whose words are given.

ghost use Rattle.std.specs.Prelude.{◌≡◌, ℕ, ◌+◌, ◌-◌, ◌≤◌, ◌^◌, [], ◌∷◌, Some, is_err, min, drop, replicate, OnOk, OnErr};
ghost use Rattle.std.proofs.Common.{refl, ◌∙◌};
ghost use Rattle.mt_outside.specs.Faults.{Rose};
ghost use Rattle.mt_outside.specs.Told.{added};
ghost use Rattle.mt_outside.specs.Memory.{Chanced, fails_at, first_or};

use crate::chance::Chance;
use crate::failed::Failed;
use crate::faults::Faults;
use crate::plan::Plan;
use crate::story::Story;
use std::marker::Model;

/// A source in memory, which gives its words and then zero bytes. Clauses see the words that it
/// gave, those that are left, the numbers of the calls that are to fail, the number of the next
/// call, and the faults so far.
#[derive(Drop)]
pub struct MemoryChance {
    all: Vec<[u8; 16]>,
    at: usize,
    given: Story<[u8; 16]>,
    plan: Plan,
    faults: Faults,
}

impl Model for MemoryChance {
    ghost Value = { Chanced };

    ghost view = { λ s. record {
      words = s.given.list;
      left = drop s.at s.all.items;
      fails = s.plan.fails.items;
      next = s.plan.next;
      faults = s.faults.count;
    } };
}

impl MemoryChance {
    /// A source that gives these words in turn and then zero bytes. `fails` holds the numbers, from
    /// 0, of the calls of `Chance` that are to fail.
    pub fn new(words: Vec<[u8; 16]>, fails: Vec<u64>) -> MemoryChance
        ensures { result ≡ record {
          words = [];
          left = words.items;
          fails = fails.items;
          next = 0;
          faults = 0;
        } }
    {
        MemoryChance {
            all: words,
            at: 0,
            given: Story::new(),
            plan: Plan::new(fails),
            faults: Faults::new(),
        }
    }
}

impl Chance for MemoryChance {
    ghost faults = { λ s. s.faults };

    ghost words = { λ s. Some s.words };

    ghost stays = { λ a b. b.fails ≡ a.fails };

    /// Gives the next word. It fails where this call is to fail, and nowhere else.
    fn sixteen(&mut self, out: &mut [u8; 16]) -> Result<(), Failed>
        ensures stays { self.new.fails ≡ self.old.fails }
        ensures never_falls { self.old.faults ≤ self.new.faults }
        ensures cause { OnErr result (Rose self.old.faults self.new.faults) }
        ensures counts { OnOk result (self.new.faults ≡ self.old.faults) }
        ensures tells { OnOk result
            (Some self.new.words ≡ added (Some self.old.words) (out.new ∷ [])) }
        ensures same { OnErr result (Some self.new.words ≡ Some self.old.words) }
        ensures answer { is_err result ≡ fails_at self.old.fails self.old.next }
        ensures gives { OnOk result (out.new ≡ first_or (replicate 16 0) self.old.left) }
        ensures left { OnOk result (self.new.left ≡ drop 1 self.old.left) }
        ensures kept { OnErr result (self.new ≡ record self.old {
          next = min (self.old.next + 1) (2 ^ 64 - 1);
          faults = self.new.faults;
        }) }
        ensures fails { self.new.fails ≡ self.old.fails }
        ensures next { self.new.next ≡ min (self.old.next + 1) (2 ^ 64 - 1) }
    {
        if self.plan.is_to_fail() {
            return Err(self.faults.raise());
        }
        *out = [0; 16];
        if let Some(word) = self.all.get(self.at) {
            *out = *word;
            self.at += 1;
        }
        self.given = self.given.and(&*out);
        Ok(())
    }

    ghost stays_same = { λ _. refl };

    ghost stays_on = { λ _ _ _ first second. second ∙ first };
}

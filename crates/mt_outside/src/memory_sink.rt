//! A sink that keeps its bytes in memory.

ghost use Rattle.std.specs.Prelude.{◌≡◌, ℕ, ◌+◌, ◌-◌, ◌<◌, ◌≤◌, ◌^◌, [], Some, min, length, take, IsTrue, IsErr, IfOk, OnOk, OnErr};
ghost use Rattle.mt_outside.specs.Faults.{Rose};
ghost use Rattle.mt_outside.specs.Told.{added};
ghost use Rattle.mt_outside.specs.Memory.{Taken, fails_at};

use crate::failed::Failed;
use crate::faults::Faults;
use crate::plan::Plan;
use crate::sink::Sink;
use std::alloc::Global;
use std::marker::Model;

/// A sink in memory. Clauses see the bytes that it took, the numbers of the calls that are to fail,
/// the number of the next call, and the faults so far.
#[derive(Drop)]
pub struct MemorySink {
    bytes: Vec<u8>,
    plan: Plan,
    faults: Faults,
}

impl Model for MemorySink {
    ghost Value = { Taken };

    ghost view = { λ s. record {
      bytes = s.bytes.items;
      fails = s.plan.fails.items;
      next = s.plan.next;
      faults = s.faults.count;
    } };
}

impl MemorySink {
    /// A sink that took nothing. `fails` holds the numbers, from 0, of the calls that are to fail.
    pub fn new(alloc: Global, fails: Vec<u64>) -> MemorySink
        ensures { result ≡ record { bytes = []; fails = fails.items; next = 0; faults = 0 } }
    {
        MemorySink {
            bytes: Vec::new(alloc),
            plan: Plan::new(fails),
            faults: Faults::new(),
        }
    }

    /// All bytes that it took, in order.
    pub fn written(&self) -> &[u8]
        ensures { result.now ≡ self.now.bytes }
    {
        self.bytes.as_slice()
    }
}

impl Sink for MemorySink {
    ghost faults = { λ s. s.faults };

    ghost written = { λ s. Some s.bytes };

    /// Takes the whole piece. It fails where this call is to fail, and where no memory is found.
    fn write(&mut self, bytes: &[u8]) -> Result<usize, Failed>
        ensures never_falls { self.old.faults ≤ self.new.faults }
        ensures cause { OnErr result (Rose self.old.faults self.new.faults) }
        ensures counts { OnOk result (self.new.faults ≡ self.old.faults) }
        ensures bound { IfOk result (λ n. n ≤ length bytes.now) }
        ensures some { IfOk result (λ n. 0 < length bytes.now → 0 < n) }
        ensures took { IfOk result (λ n.
            Some self.new.bytes ≡ added (Some self.old.bytes) (take n bytes.now)) }
        ensures same { OnErr result (Some self.new.bytes ≡ Some self.old.bytes) }
        ensures whole { IfOk result (λ n. n ≡ length bytes.now) }
        ensures planned { IsTrue (fails_at self.old.fails self.old.next) → IsErr result }
        ensures fails { self.new.fails ≡ self.old.fails }
        ensures next { self.new.next ≡ min (self.old.next + 1) (2 ^ 64 - 1) }
    {
        if self.plan.is_to_fail() {
            return Err(self.faults.raise());
        }
        let Ok(()) = self.bytes.extend_from_slice(bytes) else {
            return Err(self.faults.raise());
        };
        Ok(bytes.len())
    }
}

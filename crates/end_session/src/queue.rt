//! The bytes of the main stream that wait.

use circular_buffer::HeapCircularBuffer;
use end_calls::MAIN_QUEUE;
use mt_base::NoMemory;
use std::alloc::Global;
use std::marker::Model;

/// The bytes of the main stream that wait to be handed out, at most 4,194,304. Clauses see it as the
/// list of them. No call after [`MainQueue::new`] takes memory.
#[derive(Drop)]
pub struct MainQueue {
    ring: HeapCircularBuffer<u8>,
}

impl Model for MainQueue {
    ghost use Rattle.std.specs.Prelude.{◌≡◌, List, ℕ};
    ghost use Rattle.end_calls.specs.declared.limits.TheConstants.{MAIN_QUEUE};

    ghost Value = { List ℕ };

    ghost view = { λ s. s.ring.items };

    ghost invariant = { λ s. s.ring.capacity ≡ MAIN_QUEUE };
}

impl MainQueue {
    ghost use Rattle.std.specs.Prelude.{◌≡◌, ◌+◌, ◌≤◌, ◌++◌, [], length, take, drop, min, IfOk};
    ghost use Rattle.end_calls.specs.declared.limits.TheConstants.{MAIN_QUEUE};

    /// An empty queue, with all its room.
    pub fn new(alloc: Global) -> Result<MainQueue, NoMemory>
        ensures { IfOk result (λ queue. queue ≡ []) }
    {
        Ok(MainQueue {
            ring: HeapCircularBuffer::with_capacity(alloc, MAIN_QUEUE)?,
        })
    }

    /// How many bytes wait.
    pub fn len(&self) -> usize
        ensures count { result ≡ length self.now }
        ensures bound { result ≤ MAIN_QUEUE }
    {
        self.ring.len()
    }

    /// Puts bytes behind those that wait.
    pub fn put(&mut self, bytes: &[u8])
        requires { length self.old + length bytes.now ≤ MAIN_QUEUE }
        ensures { self.new ≡ self.old ++ bytes.now }
    {
        let _ = self.ring.fill_from_slice(bytes);
    }

    /// Moves the first bytes to the front of `out`, as many as wait and fit, and gives their number.
    pub fn take(&mut self, out: &mut [u8]) -> usize
        ensures count { result ≡ min (length out.old) (length self.old) }
        ensures bytes { out.new ≡ take result self.old ++ drop result out.old }
        ensures left { self.new ≡ drop result self.old }
    {
        self.ring.read_into(out)
    }
}

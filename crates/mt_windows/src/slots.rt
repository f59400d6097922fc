//! Rings of parts.

ghost use Rattle.std.specs.Prelude.{◌≡◌, ◌<◌, ◌≤◌, ◌++◌, ◌∷◌, [], length, drop, replicate, None, Some, slice_set, IfOk};
ghost use Rattle.mt_windows.specs.Arrived.{part_at};

use crate::limits::WINDOW;
use crate::slot::Slot;
use circular_buffer::HeapCircularBuffer;
use mt_base::NoMemory;
use std::alloc::Global;
use std::marker::Model;

/// Room for as many parts as a window holds, from the next one on. Clauses see it as the list of
/// these places.
#[derive(Drop)]
pub struct Slots {
    ring: HeapCircularBuffer<Slot>,
}

impl Model for Slots {
    ghost use Rattle.std.specs.Prelude.{◌≡◌, length};
    ghost use Rattle.mt_windows.specs.Arrived.{Parts};

    ghost Value = { Parts };

    ghost view = { λ s. s.ring.items };

    ghost invariant = { λ s. s.ring.capacity ≡ length s.ring.items };
}

impl Slots {
    /// No part.
    pub fn new(alloc: Global) -> Result<Slots, NoMemory>
        ensures { IfOk result (λ s. s ≡ replicate 64 None) }
    {
        let mut ring = HeapCircularBuffer::with_capacity(alloc, WINDOW as usize)?;
        for _place in 0..WINDOW as usize {
            let slot = Slot::new(alloc)?;
            let _ = ring.push_back(slot);
        }
        Ok(Slots { ring })
    }

    /// What is so far ahead of the next part.
    pub fn get(&self, ahead: usize) -> &Slot
        requires { ahead < length self.now }
        ensures { result.now ≡ part_at self.now ahead }
    {
        match self.ring.get(ahead) {
            Some(slot) => slot,
            None => unreachable!(),
        }
    }

    /// Puts a part there.
    pub fn fill(&mut self, ahead: usize, bytes: &[u8])
        requires there { ahead < length self.old }
        requires fits { length bytes.now ≤ 1232 }
        ensures { self.new ≡ slice_set self.old ahead (Some bytes.now) }
    {
        let Some(slot) = self.ring.get_mut(ahead) else {
            unreachable!()
        };
        slot.fill(bytes);
    }

    /// Moves on by one part: the place of the first is empty, and the last.
    pub fn turn(&mut self)
        requires { 0 < length self.old }
        ensures { self.new ≡ drop 1 self.old ++ None ∷ [] }
    {
        let Some(mut slot) = self.ring.pop_front() else {
            return;
        };
        slot.clear();
        let _ = self.ring.push_back(slot);
    }

    /// Takes all parts out.
    pub fn clear(&mut self)
        ensures { self.new ≡ replicate (length self.old) None }
    {
        for place in 0..self.ring.len() {
            let Some(slot) = self.ring.get_mut(place) else {
                unreachable!()
            };
            slot.clear();
        }
    }
}

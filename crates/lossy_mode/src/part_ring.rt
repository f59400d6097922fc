//! Parts that wait, in order.

ghost use Rattle.std.specs.Prelude.{◌≡◌, ◌==◌, ◌≤◌, ◌<◌, ◌++◌, ◌∷◌, [], All, length, take, drop, IfOk, IfSome};
ghost use Rattle.carrier.specs.PerfectThin.{first_part};

use circular_buffer::HeapCircularBuffer;
use mt_base::NoMemory;
use mt_windows::{DATAGRAM, WINDOW};
use std::alloc::Global;
use std::marker::Model;

/// The bytes of as many parts as a window has.
const ROOM: usize = 78_848;

/// As many parts as a window has, in the order in which they are taken out again: a ring of their
/// lengths, and a ring of their bytes, one after the other.
#[derive(Drop)]
pub struct PartRing {
    lengths: HeapCircularBuffer<u16>,
    bytes: HeapCircularBuffer<u8>,
}

impl Model for PartRing {
    ghost use Rattle.std.specs.Prelude.{◌≡◌, ℕ, List};
    ghost use Rattle.mt_windows.specs.declared.limits.TheConstants.{WINDOW};
    ghost use Rattle.lossy_mode.specs.Rings.{IsStored, parts_of};

    ghost Value = { List (List ℕ) };

    ghost view = { λ r. parts_of r.lengths.items r.bytes.items };

    ghost invariant = { λ r. record { stored : IsStored r.lengths.items r.bytes.items; lengths_room : r.lengths.capacity ≡ WINDOW; bytes_room : r.bytes.capacity ≡ 78848 } };
}

impl PartRing {
    /// No parts, with all their room.
    pub fn new(alloc: Global) -> Result<PartRing, NoMemory>
        ensures { IfOk result (λ r. r ≡ []) }
    {
        Ok(PartRing {
            lengths: HeapCircularBuffer::with_capacity(alloc, WINDOW as usize)?,
            bytes: HeapCircularBuffer::with_capacity(alloc, ROOM)?,
        })
    }

    /// How many parts wait.
    pub fn len(&self) -> usize
        ensures count { result ≡ length self.now }
        ensures bound { result ≤ WINDOW }
    {
        self.lengths.len()
    }

    /// Whether no part waits.
    pub fn is_empty(&self) -> bool
        ensures none { result ≡ (length self.now == 0) }
        // No part is longer than a datagram.
        ensures short { All (λ part. length part ≤ DATAGRAM) self.now }
    {
        self.lengths.is_empty()
    }

    /// Puts a part behind the others.
    pub fn push(&mut self, part: &[u8])
        requires room { length self.old < WINDOW }
        requires short { length part.now ≤ DATAGRAM }
        ensures { self.new ≡ self.old ++ part.now ∷ [] }
    {
        let _ = self.lengths.push_back(part.len() as u16);
        let _ = self.bytes.fill_from_slice(part);
    }

    /// Takes the first part, and writes it to the front of `out`.
    pub fn pop(&mut self, out: &mut [u8]) -> usize
        requires some { 0 < length self.old }
        requires fits { IfSome (first_part self.old) (λ part. length part ≤ length out.old) }
        ensures part { self.old ≡ take result out.new ∷ self.new }
        ensures rest { drop result out.new ≡ drop result out.old }
        ensures bound { result ≤ DATAGRAM }
        ensures within { result ≤ length out.old }
    {
        match self.lengths.pop_front() {
            Some(length) => {
                let length = length as usize;
                self.bytes.read_into(&mut out[..length])
            }
            None => unreachable!(),
        }
    }
}

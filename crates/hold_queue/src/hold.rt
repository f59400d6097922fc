//! The queue of held PDUs.

ghost use Rattle.std.specs.Prelude.{◌≡◌};
ghost use Rattle.hold_queue.specs.Held.{weight};

use crate::rings::Rings;
use mt_base::NoMemory;
use std::alloc::Global;
use std::marker::Model;

/// The bytes that held PDUs count at most, each as its length and 16 more.
const HOLD: usize = 1_048_576;

/// The PDUs that are held for the channels of one tunnel. Clauses see it as the list of them, in
/// the order in which they came.
#[derive(Drop)]
pub struct Hold {
    rings: Rings,
    counted: usize,
}

impl Model for Hold {
    ghost use Rattle.std.specs.Prelude.{◌≡◌, ◌≤◌, List};
    ghost use Rattle.hold_queue.specs.Held.{Pdu, weight};
    ghost use Rattle.hold_queue.specs.Stored.{held_in, IsStored};

    ghost Value = { List Pdu };

    ghost view = { λ s. held_in s.rings.records.items s.rings.bytes.items };

    ghost invariant = { λ s. IsStored s.rings.records.items s.rings.bytes.items × (s.rings.records.capacity ≡ 131072) × (s.rings.bytes.capacity ≡ 2097152) × (s.counted ≡ weight (held_in s.rings.records.items s.rings.bytes.items)) × (s.counted ≤ 1048576) };
}

impl Hold {
    ghost use Rattle.std.specs.Prelude.{◌+◌, ◌-◌, ◌≤◌, ◌++◌, ◌∷◌, [], length, option_map, IfOk};
    ghost use Rattle.hold_queue.specs.Held.{Pdu, pdu_of, oldest, without_oldest, without, with_bytes};

    /// An empty queue, with all its room. No other call takes memory.
    pub fn new(alloc: Global) -> Result<Hold, NoMemory>
        ensures { IfOk result (λ hold. hold ≡ []) }
    {
        Ok(Hold {
            rings: Rings::new(alloc)?,
            counted: 0,
        })
    }

    /// The bytes that are left: 1,048,576 less the length and 16 more of each PDU held.
    pub fn room(&self) -> usize
        ensures room { result ≡ 1048576 - weight self.now }
        ensures within { result + weight self.now ≡ 1048576 }
    {
        HOLD - self.counted
    }

    /// Holds a PDU of a channel, which came at this place. Its cost is that of its bytes: what was
    /// released is closed up only once it has taken a half of the place that there is.
    pub fn keep(&mut self, id: u32, at: u64, pdu: &[u8])
        requires short { length pdu.now ≤ 1600 }
        requires fits { 16 + length pdu.now + weight self.old ≤ 1048576 }
        ensures { self.new ≡ self.old ++ pdu_of id at pdu.now ∷ [] }
    {
        self.rings.make_place(pdu.len());
        self.rings.append(id, at, pdu);
        self.counted += 16 + pdu.len();
    }

    /// Gives the oldest PDU of a channel, with its place and length, which stays held. Behind its
    /// length `out` stays as it was. The cost is that of its bytes and of the records before it.
    pub fn oldest(&self, id: u32, out: &mut [u8; 1600]) -> Option<(u64, usize)>
        ensures found { result ≡ option_map (λ (pdu : Pdu). (pdu.at, length pdu.bytes)) (oldest id self.now) }
        ensures bytes { out.new ≡ with_bytes (oldest id self.now) out.old }
    {
        let (_, place, record) = self.rings.find(id)?;
        let length = record.length as usize;
        self.rings.copy_at(place, &mut out[..length]);
        Some((record.at, length))
    }

    /// Gives the oldest PDU of a channel, with its place and length, and holds it no longer. Behind
    /// its length `out` stays as it was. The cost is that of its bytes and of the records before
    /// it: the oldest of all stands at the front.
    pub fn release(&mut self, id: u32, out: &mut [u8; 1600]) -> Option<(u64, usize)>
        ensures released { result ≡ option_map (λ (pdu : Pdu). (pdu.at, length pdu.bytes)) (oldest id self.old) }
        ensures bytes { out.new ≡ with_bytes (oldest id self.old) out.old }
        ensures removed { self.new ≡ without_oldest id self.old }
    {
        let (index, place, record) = self.rings.find(id)?;
        let length = record.length as usize;
        self.rings.copy_at(place, &mut out[..length]);
        self.rings.forget(index);
        self.counted -= 16 + length;
        Some((record.at, length))
    }

    /// Drops all PDUs of a channel. The cost is that of all that is held.
    pub fn drop_all(&mut self, id: u32)
        ensures { self.new ≡ without id self.old }
    {
        self.rings.close_up(Some(id));
        self.counted = self.rings.weight();
    }
}

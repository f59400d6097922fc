//! The rings in which held PDUs stand.

ghost use Rattle.std.specs.Prelude.{◌≡◌, ◌+◌, ◌*◌, ◌≤◌, ◌<◌, ◌++◌, ◌∷◌, [], All, IfOk, IfSome, IfNone, IsTrue, ◌↔◌, length, take, drop, slice_get, slice_set, nat_le, Bool, false, Some};
ghost use Rattle.circular_buffer.specs.Buffer.{buffer};
ghost use Rattle.hold_queue.specs.Held.{weight};
ghost use Rattle.hold_queue.specs.Stored.{IsStored, IsFirst, is_for, record_of, held_in, left, turned_records, turned_bytes, gone};
ghost use Rattle.hold_queue.specs.declared.record.Record.{Record as RecordValue};

use crate::record::Record;
use circular_buffer::HeapCircularBuffer;
use mt_base::NoMemory;
use std::alloc::Global;

/// The records that the rings hold at most: two for each 16 bytes that may be held.
const RECORDS: usize = 131_072;

/// The bytes that the rings hold at most: twice those that may be held.
const BYTES: usize = 2_097_152;

/// PDUs in order: a ring of their records, and a ring of their bytes, one after the other. A PDU
/// that is released in the middle stays, marked as gone, until all before it are gone or the rings
/// are closed up.
#[derive(Drop)]
pub struct Rings {
    pub records: HeapCircularBuffer<Record>,
    pub bytes: HeapCircularBuffer<u8>,
}

impl Rings {
    /// Empty rings, with all their room.
    pub fn new(alloc: Global) -> Result<Rings, NoMemory>
        ensures empty { IfOk result (λ rings. (rings.records.items ≡ []) × (rings.bytes.items ≡ [])) }
        ensures room { IfOk result (λ rings. (rings.records.capacity ≡ 131072) × (rings.bytes.capacity ≡ 2097152)) }
    {
        Ok(Rings {
            records: HeapCircularBuffer::with_capacity(alloc, RECORDS)?,
            bytes: HeapCircularBuffer::with_capacity(alloc, BYTES)?,
        })
    }

    /// Whether one more PDU of so many bytes finds a place behind.
    fn has_place(&self, count: usize) -> bool
        ensures { IsTrue result ↔ ((length self.now.records.items < self.now.records.capacity) × (length self.now.bytes.items + count ≤ self.now.bytes.capacity)) }
    {
        self.records.len() < self.records.capacity()
            && count <= self.bytes.capacity() - self.bytes.len()
    }

    /// Makes a place behind for one more PDU of so many bytes, where the rings hold few enough.
    pub fn make_place(&mut self, count: usize)
        requires stored { IsStored self.old.records.items self.old.bytes.items }
        requires room { (self.old.records.capacity ≡ 131072) × (self.old.bytes.capacity ≡ 2097152) }
        requires fits { 16 + count + weight (held_in self.old.records.items self.old.bytes.items) ≤ 1048576 }
        ensures held { held_in self.new.records.items self.new.bytes.items ≡ held_in self.old.records.items self.old.bytes.items }
        ensures stored { IsStored self.new.records.items self.new.bytes.items }
        ensures room { (self.new.records.capacity ≡ 131072) × (self.new.bytes.capacity ≡ 2097152) }
        ensures place { (length self.new.records.items < 131072) × (length self.new.bytes.items + count ≤ 2097152) }
    {
        if self.has_place(count) {
            return;
        }
        self.close_up(None);
    }

    /// Puts a PDU behind the others.
    pub fn append(&mut self, id: u32, at: u64, pdu: &[u8])
        requires stored { IsStored self.old.records.items self.old.bytes.items }
        requires short { length pdu.now ≤ 1600 }
        requires place { (length self.old.records.items < self.old.records.capacity) × (length self.old.bytes.items + length pdu.now ≤ self.old.bytes.capacity) }
        ensures records { self.new.records ≡ buffer (self.old.records.items ++ record_of id at (length pdu.now) ∷ []) self.old.records.capacity }
        ensures bytes { self.new.bytes ≡ buffer (self.old.bytes.items ++ pdu.now) self.old.bytes.capacity }
    {
        let record = Record {
            id,
            at,
            length: pdu.len() as u16,
            is_held: true,
        };
        let _ = self.records.push_back(record);
        let _ = self.bytes.fill_from_slice(pdu);
    }

    /// The first record of a PDU that is held for a channel, its index, and the place of its bytes.
    pub fn find(&self, id: u32) -> Option<(usize, usize, Record)>
        requires stored { IsStored self.now.records.items self.now.bytes.items }
        ensures first { IfSome result (λ found. IsFirst id self.now.records.items found.0 found.1 found.2) }
        ensures none { IfNone result (All (λ (r : RecordValue). is_for id r ≡ false) self.now.records.items) }
    {
        let mut place = 0;
        for index in 0..self.records.len() {
            let Some(record) = self.records.get(index) else {
                unreachable!()
            };
            if record.is_held && record.id == id {
                return Some((index, place, *record));
            }
            place += record.length as usize;
        }
        None
    }

    /// Copies the bytes that begin at a place.
    pub fn copy_at(&self, place: usize, out: &mut [u8])
        requires { place + length out.old ≤ length self.now.bytes.items }
        ensures { out.new ≡ take (length out.old) (drop place self.now.bytes.items) }
    {
        let (front, back) = self.bytes.as_slices();
        if place >= front.len() {
            let from = place - front.len();
            out.copy_from_slice(&back[from..from + out.len()]);
        } else if place + out.len() <= front.len() {
            out.copy_from_slice(&front[place..place + out.len()]);
        } else {
            let count = front.len() - place;
            out[..count].copy_from_slice(&front[place..]);
            let rest = out.len() - count;
            out[count..].copy_from_slice(&back[..rest]);
        }
    }

    /// Marks a PDU as gone, and lets those go that stand gone at the front.
    pub fn forget(&mut self, index: usize)
        requires stored { IsStored self.old.records.items self.old.bytes.items }
        ensures held { (r : RecordValue) → slice_get self.old.records.items index ≡ Some r → held_in self.new.records.items self.new.bytes.items ≡ held_in (slice_set self.old.records.items index (gone r)) self.old.bytes.items }
        ensures stored { IsStored self.new.records.items self.new.bytes.items }
        ensures same { (self.new.records.capacity ≡ self.old.records.capacity) × (self.new.bytes.capacity ≡ self.old.bytes.capacity) }
    {
        let Some(record) = self.records.get_mut(index) else {
            return;
        };
        record.is_held = false;
        self.drop_gone();
    }

    /// Lets the PDUs go that stand gone at the front.
    fn drop_gone(&mut self)
        requires stored { IsStored self.old.records.items self.old.bytes.items }
        ensures held { held_in self.new.records.items self.new.bytes.items ≡ held_in self.old.records.items self.old.bytes.items }
        ensures stored { IsStored self.new.records.items self.new.bytes.items }
        ensures same { (self.new.records.capacity ≡ self.old.records.capacity) × (self.new.bytes.capacity ≡ self.old.bytes.capacity) }
    {
        while let Some(record) = self.records.front() {
            if record.is_held {
                return;
            }
            let left = self.bytes.len() - record.length as usize;
            self.bytes.truncate_front(left);
            let _ = self.records.pop_front();
        }
    }

    /// Closes up: the PDUs that are gone leave, and those of a channel that is named.
    pub fn close_up(&mut self, leaving: Option<u32>)
        requires stored { IsStored self.old.records.items self.old.bytes.items }
        requires room { (self.old.records.capacity ≡ 131072) × (self.old.bytes.capacity ≡ 2097152) }
        ensures held { held_in self.new.records.items self.new.bytes.items ≡ left leaving (held_in self.old.records.items self.old.bytes.items) }
        ensures dense { weight (held_in self.new.records.items self.new.bytes.items) ≡ 16 * length self.new.records.items + length self.new.bytes.items }
        ensures stored { IsStored self.new.records.items self.new.bytes.items }
        ensures room { (self.new.records.capacity ≡ 131072) × (self.new.bytes.capacity ≡ 2097152) }
    {
        for _turn in 0..self.records.len() {
            self.turn(leaving);
        }
    }

    /// Puts the first PDU behind the others, or lets it leave.
    fn turn(&mut self, leaving: Option<u32>)
        requires stored { IsStored self.old.records.items self.old.bytes.items }
        requires room { (self.old.records.capacity ≡ 131072) × (self.old.bytes.capacity ≡ 2097152) }
        ensures records { self.new.records ≡ buffer (turned_records leaving self.old.records.items) 131072 }
        ensures bytes { self.new.bytes ≡ buffer (turned_bytes leaving self.old.records.items self.old.bytes.items) 2097152 }
        ensures stored { IsStored self.new.records.items self.new.bytes.items }
    {
        let Some(record) = self.records.pop_front() else {
            return;
        };
        let length = record.length as usize;
        if record.stays(leaving) {
            let _ = self.records.push_back(record);
            move_front(&mut self.bytes, length);
        } else {
            let left = self.bytes.len() - length;
            self.bytes.truncate_front(left);
        }
    }

    /// What the PDUs count, where none is gone.
    pub fn weight(&self) -> usize
        requires stored { IsStored self.now.records.items self.now.bytes.items }
        ensures { result ≡ 16 * length self.now.records.items + length self.now.bytes.items }
    {
        16 * self.records.len() + self.bytes.len()
    }
}

/// Puts the first bytes behind the others.
fn move_front(bytes: &mut HeapCircularBuffer<u8>, count: usize)
    requires short { count ≤ 1600 }
    requires there { count ≤ length bytes.old.items }
    requires within { length bytes.old.items ≤ bytes.old.capacity }
    ensures { bytes.new ≡ buffer (drop count bytes.old.items ++ take count bytes.old.items) bytes.old.capacity }
{
    let mut pdu = [0u8; 1600];
    let part = &mut pdu[..count];
    let _ = bytes.read_into(part);
    let _ = bytes.fill_from_slice(part);
}

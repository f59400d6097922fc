//! The window of a link's receiver.

ghost use Rattle.std.specs.Prelude.{◌≡◌, ◌+◌, ◌-◌, ◌*◌, ◌%◌, ◌<◌, ◌≤◌, ◌^◌, ◌++◌, ℕ, List, [], Some, None, length, take, drop, get_or, min, max, nat_lt, ◌||◌, is_some, unwrap_or, IfOk, IsSome, IsTrue};
ghost use Rattle.mt_windows.specs.Arrived.{Parts, part_at, passed, drained, greatest_part, has_part, put, verdict, with_part};
ghost use Rattle.mt_windows.specs.BitsView.{is_set};
ghost use Rattle.mt_windows.specs.ArrivedView.{Keeps, Receives, left_of, gap_of, kept, gathered, is_drained, past_front};

use crate::bits::Bits;
use crate::limits::{DATAGRAM, WINDOW};
use crate::queue::append;
use crate::slots::Slots;
use circular_buffer::HeapCircularBuffer;
use mt_base::{NoMemory, Width};
use std::alloc::Global;
use std::marker::{Model, PhantomData};

/// What a receive window did with a part.
#[derive(Clone, Copy, Debug, PartialEq, Eq)]
pub enum Accept {
    /// The part was accepted.
    New,
    /// The part was accepted before; nothing changed.
    Again,
    /// The part is at or above this limit; nothing changed.
    Beyond { limit: u64 },
}

/// The parts that came and were not pulled: those in order as bytes and lengths, and those ahead of
/// the least that is missing each in a place of its own.
#[derive(Drop)]
pub struct ReceiveWindow<W: Width> {
    first: u64,
    passed: u64,
    lengths: HeapCircularBuffer<u16>,
    used: usize,
    ordered: HeapCircularBuffer<u8>,
    greatest: Option<u64>,
    slots: Slots,
    accepted: Bits,
    width: PhantomData<W>,
}

impl<W: Width> Model for ReceiveWindow<W> {
    ghost use Rattle.mt_windows.specs.declared.limits.TheConstants.{WINDOW, DATAGRAM};
    ghost use Rattle.std.specs.Prelude.{◌≡◌, ◌+◌, ◌*◌, length};
    ghost use Rattle.mt_windows.specs.ArrivedView.{Inbox, IsSound, AreMarked};

    ghost Value = { Inbox };

    ghost view = { λ w. record { first = w.first; passed = w.passed; lengths = w.lengths.items; used = w.used; ordered = w.ordered.items; greatest = w.greatest; slots = w.slots } };

    ghost invariant = { λ w. record { sound : IsSound (record { first = w.first; passed = w.passed; lengths = w.lengths.items; used = w.used; ordered = w.ordered.items; greatest = w.greatest; slots = w.slots }); row : 64 * length w.accepted ≡ WINDOW; marks : AreMarked w.accepted (w.first + w.passed) (length w.lengths.items) w.slots; places : w.lengths.capacity ≡ WINDOW; room : w.ordered.capacity ≡ WINDOW * DATAGRAM } };
}

impl<W: Width> ReceiveWindow<W> {
    /// A window for parts from the number `first` on.
    pub fn new(alloc: Global, first: u64) -> Result<ReceiveWindow<W>, NoMemory>
        requires from { 1 ≤ first }
        requires below { first < 2 ^ 33 }
        ensures { IfOk result (λ w. Receives w first [] 0) }
    {
        let lengths = HeapCircularBuffer::with_capacity(alloc, WINDOW as usize)?;
        let ordered = HeapCircularBuffer::with_capacity(alloc, WINDOW as usize * DATAGRAM)?;
        let slots = Slots::new(alloc)?;
        let accepted = Bits::new(alloc, WINDOW as usize / 64)?;
        Ok(ReceiveWindow {
            first,
            passed: 0,
            lengths,
            used: 0,
            ordered,
            greatest: None,
            slots,
            accepted,
            width: PhantomData,
        })
    }

    /// Forgets everything, for parts from the number `first` on.
    pub fn restart(&mut self, first: u64)
        requires from { 1 ≤ first }
        requires below { first < 2 ^ 33 }
        ensures starts { Receives self.new first [] 0 }
        ensures left { left_of self.new ≡ [] }
    {
        self.first = first;
        self.passed = 0;
        self.used = 0;
        self.greatest = None;
        self.lengths.clear();
        self.ordered.clear();
        self.slots.clear();
        self.accepted.clear_all();
    }

    /// The same memory for parts from the number `first` on, whose numbers have another width.
    /// Everything is forgotten.
    pub fn renewed<V: Width>(self, first: u64) -> ReceiveWindow<V>
        requires from { 1 ≤ first }
        requires below { first < 2 ^ 33 }
        ensures starts { Receives result first [] 0 }
        ensures left { left_of result ≡ [] }
    {
        let mut lengths = self.lengths;
        let mut ordered = self.ordered;
        let mut slots = self.slots;
        let mut accepted = self.accepted;
        lengths.clear();
        ordered.clear();
        slots.clear();
        accepted.clear_all();
        ReceiveWindow {
            first,
            passed: 0,
            lengths,
            used: 0,
            ordered,
            greatest: None,
            slots,
            accepted,
            width: PhantomData,
        }
    }

    /// The number of the least part that was not handed out in full.
    pub fn drained(&self) -> u64
        ensures drained { (first : ℕ) (parts : Parts) (n : ℕ) → Receives self.now first parts n → result ≡ first + drained parts n }
        ensures next { result ≡ self.now.first + self.now.passed }
        ensures bound { result ≤ 2 ^ 62 }
    {
        self.first + self.passed
    }

    /// The greatest part that was accepted.
    pub fn greatest(&self) -> Option<u64>
        ensures { (first : ℕ) (parts : Parts) (n : ℕ) → Receives self.now first parts n → result ≡ greatest_part first parts }
    {
        self.greatest
    }

    /// Whether the part was accepted.
    pub fn has(&self, part: u64) -> bool
        ensures { (first : ℕ) (parts : Parts) (n : ℕ) → Receives self.now first parts n → result ≡ has_part first parts part }
    {
        if part < self.first {
            return false;
        }
        let place = part - self.first;
        if place < self.passed {
            return true;
        }
        let ahead = place - self.passed;
        ahead < WINDOW && self.is_there(ahead as usize)
    }

    /// The words of bits: of each part from the least one that was not handed out in full, as many
    /// as a window holds, the bit at its place, which it leaves modulo their count, is set where the
    /// part was accepted.
    pub fn words(&self) -> &[u64]
        ensures count { 64 * length result.now ≡ WINDOW }
        ensures bits { (first : ℕ) (parts : Parts) (n : ℕ) → Receives self.now first parts n → (part : ℕ) → first + drained parts n ≤ part → part < first + drained parts n + WINDOW → is_set result.now (part % WINDOW) ≡ has_part first parts part }
    {
        self.accepted.words()
    }

    /// The received bytes in order that were not pulled yet.
    pub fn ordered(&self) -> &HeapCircularBuffer<u8>
        ensures left { result.now.items ≡ left_of self.now }
        ensures history { (first : ℕ) (parts : Parts) (n : ℕ) → Receives self.now first parts n → result.now.items ≡ drop n (passed parts) }
        ensures capacity { result.now.capacity ≡ WINDOW * DATAGRAM }
    {
        &self.ordered
    }

    /// Takes a part of at most 1,232 bytes, at a number below 2^62.
    ///
    /// A part is accepted once, and only from the least one that is not drained up to the window's
    /// size above it; everything else changes nothing.
    pub fn accept(&mut self, part: u64, bytes: &[u8]) -> Accept
        requires number { part < 2 ^ 62 }
        requires fits { length bytes.now ≤ 1232 }
        ensures verdict { (first : ℕ) (parts : Parts) (n : ℕ) → Receives self.old first parts n → result ≡ verdict WINDOW first parts n part }
        ensures holds { (first : ℕ) (parts : Parts) (n : ℕ) → Receives self.old first parts n → Receives self.new first (with_part result parts (part - first) bytes.now) n }
        ensures left { (more : List ℕ) × (left_of self.new ≡ left_of self.old ++ more) }
    {
        let next = self.drained();
        if part < next {
            return Accept::Again;
        }
        if part - next >= WINDOW {
            return Accept::Beyond {
                limit: next + WINDOW,
            };
        }
        let ahead = (part - next) as usize;
        if self.is_there(ahead) {
            return Accept::Again;
        }
        let place = ahead - self.lengths.len();
        self.take_in(part, place, bytes);
        Accept::New
    }

    /// Takes the next bytes in order, as many as there are and fit.
    pub fn pull(&mut self, out: &mut [u8]) -> usize
        ensures count { result ≡ min (length out.old) (length (left_of self.old)) }
        ensures bytes { take result out.new ≡ take result (left_of self.old) }
        ensures rest { drop result out.new ≡ drop result out.old }
        ensures left { left_of self.new ≡ drop result (left_of self.old) }
        ensures next { (first : ℕ) (parts : Parts) (n : ℕ) → Receives self.old first parts n → left_of self.old ≡ drop n (passed parts) }
        ensures holds { (first : ℕ) (parts : Parts) (n : ℕ) → Receives self.old first parts n → Receives self.new first parts (n + result) }
    {
        let count = self.ordered.read_into(out);
        self.used += count;
        self.pass_drained();
        count
    }

    /// Whether the part so far ahead of the next one is there.
    fn is_there(&self, ahead: usize) -> bool
        requires { ahead < WINDOW }
        ensures { result ≡ (nat_lt ahead (length self.now.lengths) || is_some (part_at self.now.slots (ahead - length self.now.lengths))) }
    {
        let count = self.lengths.len();
        ahead < count || self.slots.get(ahead - count).is_filled()
    }

    /// Takes a part that was not there, so far ahead of the least that is missing.
    fn take_in(&mut self, part: u64, ahead: usize, bytes: &[u8])
        requires ahead { length self.old.lengths + ahead < WINDOW }
        requires number { part < 2 ^ 62 }
        requires place { part ≡ self.old.first + gap_of self.old + ahead }
        requires missing { part_at self.old.slots ahead ≡ None }
        requires fits { length bytes.now ≤ 1232 }
        ensures holds { (first : ℕ) (parts : Parts) (n : ℕ) → Receives self.old first parts n → Receives self.new first (put parts (part - first) bytes.now) n }
        ensures left { (more : List ℕ) × (left_of self.new ≡ left_of self.old ++ more) }
    {
        if ahead > 0 {
            return self.keep(part, ahead, bytes);
        }
        self.append(part, bytes);
        self.gather();
        self.pass_drained();
    }

    /// Keeps a part that was not there, at the place so far ahead of the least that is missing.
    fn keep(&mut self, part: u64, ahead: usize, bytes: &[u8])
        requires ahead { length self.old.lengths + ahead < WINDOW }
        requires number { part < 2 ^ 62 }
        requires place { part ≡ self.old.first + gap_of self.old + ahead }
        requires missing { part_at self.old.slots ahead ≡ None }
        requires fits { length bytes.now ≤ 1232 }
        ensures step { self.new ≡ kept self.old part ahead bytes.now }
        ensures places { length self.old.slots ≡ WINDOW }
    {
        self.slots.fill(ahead, bytes);
        self.accepted.set((part % WINDOW) as usize);
        self.greatest = later(self.greatest, part);
    }

    /// Puts the part that was the least missing one behind the bytes in order.
    fn append(&mut self, part: u64, bytes: &[u8])
        requires few { length self.old.lengths < WINDOW }
        requires number { part < 2 ^ 62 }
        requires place { part ≡ self.old.first + gap_of self.old }
        requires missing { part_at self.old.slots 0 ≡ None }
        requires fits { length bytes.now ≤ 1232 }
        ensures step { self.new ≡ gathered (kept self.old part 0 bytes.now) bytes.now }
        ensures places { length self.old.slots ≡ WINDOW }
    {
        append(&mut self.ordered, bytes);
        let _ = self.lengths.push_back(bytes.len() as u16);
        self.slots.turn();
        self.accepted.set((part % WINDOW) as usize);
        self.greatest = later(self.greatest, part);
    }

    /// Puts the parts that are in order now behind the bytes in order.
    fn gather(&mut self)
        ensures keeps { (first : ℕ) (parts : Parts) (n : ℕ) → Keeps self.old first parts n → Keeps self.new first parts n }
        ensures gap { part_at self.new.slots 0 ≡ None }
        ensures left { (more : List ℕ) × (left_of self.new ≡ left_of self.old ++ more) }
    {
        while self.is_front_there() {
            self.gather_front();
        }
    }

    /// Whether a part is in the first place.
    fn is_front_there(&self) -> bool
        ensures { result ≡ is_some (part_at self.now.slots 0) }
    {
        self.slots.get(0).is_filled()
    }

    /// Puts the part in the first place behind the bytes in order.
    fn gather_front(&mut self)
        requires { IsSome (part_at self.old.slots 0) }
        ensures step { self.new ≡ gathered self.old (unwrap_or (part_at self.old.slots 0) []) }
        ensures few { length self.new.lengths ≤ WINDOW }
    {
        let bytes = self.slots.get(0).bytes();
        append(&mut self.ordered, bytes);
        let _ = self.lengths.push_back(bytes.len() as u16);
        self.slots.turn();
    }

    /// Whether all bytes of the next part were pulled.
    fn is_front_drained(&self) -> bool
        ensures drained { result ≡ is_drained self.now.lengths self.now.used }
        ensures bound { self.now.first + gap_of self.now ≤ 2 ^ 62 }
    {
        match self.lengths.front() {
            Some(length) => *length as usize <= self.used,
            None => false,
        }
    }

    /// Passes the next part, all of whose bytes were pulled.
    fn pass_front(&mut self)
        requires { IsTrue (is_drained self.old.lengths self.old.used) }
        ensures { self.new ≡ past_front self.old (get_or self.old.lengths 0 0) }
    {
        let Some(length) = self.lengths.pop_front() else {
            unreachable!()
        };
        self.used -= length as usize;
        let front = self.first + self.passed;
        self.accepted.clear((front % WINDOW) as usize);
        self.passed += 1;
    }

    /// Passes the parts that were pulled in full.
    fn pass_drained(&mut self)
        ensures holds { (first : ℕ) (parts : Parts) (n : ℕ) → Keeps self.old first parts n → part_at self.old.slots 0 ≡ None → Receives self.new first parts n }
        ensures left { left_of self.new ≡ left_of self.old }
    {
        while self.is_front_drained() {
            self.pass_front();
        }
    }
}

/// The greater of two parts, where there is a first.
fn later(greatest: Option<u64>, part: u64) -> Option<u64>
    ensures { result ≡ Some (max part (unwrap_or greatest 0)) }
{
    match greatest {
        Some(greatest) if part < greatest => Some(greatest),
        _ => Some(part),
    }
}

//! The window of a link's sender.

ghost use Rattle.std.specs.Prelude.{◌≡◌, ◌+◌, ◌-◌, ◌<◌, ◌≤◌, ◌^◌, ◌⊎◌, ◌&&◌, ◌==◌, [], ℕ, Bool, List, true, not, nat_lt, nat_le, if◌then◌else◌, length, take, drop, option_map, IfOk, IfSome, OnOk, OnErr, IsSome, is_some};
ghost use Rattle.mt_base.specs.Trace.{Trace, Start, ◌▷◌};
ghost use Rattle.mt_windows.specs.Sending.Act.{Gave, Cut, Resent};
ghost use Rattle.mt_windows.specs.Sending.{Act, cuts, transmissions, next_piece, piece, queued, may_cut, reach, lowest, lowest_or_next, passed_over, floor_transmission, waiting, settles_part, settles_transmission, tells_part, tells_transmission};
ghost use Rattle.mt_windows.specs.FlightView.{slot_at};
ghost use Rattle.mt_windows.specs.SendingView.{Sends, limits, queued_of, reach_of, next_transmission, is_unsettled, may_cut_of, heard_of, Flying, IsRebased, landed, past_flight};

use crate::flights::Flights;
use crate::limits::{NUMBERS, QUEUE, SPAN, WINDOW};
use crate::queue::{append, remember, take_front};
use circular_buffer::HeapCircularBuffer;
use mt_base::{NoMemory, Width};
use std::alloc::Global;
use std::marker::{Model, PhantomData};

/// The bytes do not fit: so many bytes were given and are not settled.
#[derive(Clone, Copy, Debug, PartialEq, Eq)]
pub struct Full {
    pub queued: usize,
}

/// A part that was sent: its number, the transmission that carries it, and how many bytes it has.
#[derive(Clone, Copy, Debug, PartialEq, Eq)]
pub struct Sent {
    pub part: u64,
    pub transmission: u64,
    pub length: usize,
}

/// The bytes that were given and are not known to have come, cut into parts as they are sent.
#[derive(Drop)]
pub struct SendWindow<W: Width> {
    first: u64,
    waiting: HeapCircularBuffer<u8>,
    base: u64,
    cut: u64,
    made: u64,
    told: u64,
    second: u64,
    third: u64,
    flights: Flights,
    carried: HeapCircularBuffer<u64>,
    width: PhantomData<W>,
}

impl<W: Width> Model for SendWindow<W> {
    ghost use Rattle.std.specs.Prelude.{◌≡◌};
    ghost use Rattle.mt_windows.specs.declared.limits.TheConstants.{QUEUE, SPAN};
    ghost use Rattle.mt_windows.specs.SendingView.{Outbox, IsSoundOut};

    ghost Value = { Outbox };

    ghost view = { λ w. record { first = w.first; waiting = w.waiting.items; base = w.base; cut = w.cut; made = w.made; told = w.told; second = w.second; third = w.third; flights = w.flights; carried = w.carried.items } };

    ghost invariant = { λ w. record { sound : IsSoundOut (record { first = w.first; waiting = w.waiting.items; base = w.base; cut = w.cut; made = w.made; told = w.told; second = w.second; third = w.third; flights = w.flights; carried = w.carried.items }); room : w.waiting.capacity ≡ QUEUE; memory : w.carried.capacity ≡ SPAN } };
}

impl<W: Width> SendWindow<W> {
    /// A window whose parts and transmissions are numbered from `first` on.
    pub fn new(alloc: Global, first: u64) -> Result<SendWindow<W>, NoMemory>
        requires from { 1 ≤ first }
        requires below { first < 2 ^ 33 }
        ensures stands { IfOk result (λ w. Sends w first Start) }
        ensures queued { IfOk result (λ w. queued_of w ≡ 0) }
    {
        let waiting = HeapCircularBuffer::with_capacity(alloc, QUEUE)?;
        let flights = Flights::new(alloc)?;
        let carried = HeapCircularBuffer::with_capacity(alloc, SPAN as usize)?;
        Ok(SendWindow {
            first,
            waiting,
            base: 0,
            cut: 0,
            made: 0,
            told: 0,
            second: 0,
            third: 0,
            flights,
            carried,
            width: PhantomData,
        })
    }

    /// Forgets everything; parts and transmissions are numbered from `first` on.
    pub fn restart(&mut self, first: u64)
        requires from { 1 ≤ first }
        requires below { first < 2 ^ 33 }
        ensures stands { Sends self.new first Start }
        ensures queued { queued_of self.new ≡ 0 }
    {
        self.first = first;
        self.base = 0;
        self.cut = 0;
        self.made = 0;
        self.told = 0;
        self.second = 0;
        self.third = 0;
        self.waiting.clear();
        self.carried.clear();
        self.flights.clear();
    }

    /// The same memory for parts and transmissions that are numbered from `first` on, whose numbers
    /// have another width. The bytes that wait are as given at its start; all else is forgotten.
    pub fn renewed<V: Width>(self, first: u64) -> SendWindow<V>
        requires from { 1 ≤ first }
        requires below { first < 2 ^ 33 }
        ensures stands { Sends result first (Start ▷ Gave self.waiting) }
        ensures empty { self.waiting ≡ [] → Sends result first Start }
        ensures queued { queued_of result ≡ length self.waiting }
    {
        let mut flights = self.flights;
        let mut carried = self.carried;
        flights.clear();
        carried.clear();
        SendWindow {
            first,
            waiting: self.waiting,
            base: 0,
            cut: 0,
            made: 0,
            told: 0,
            second: 0,
            third: 0,
            flights,
            carried,
            width: PhantomData,
        }
    }

    /// Takes all of these bytes, or says how many are queued where they would pass the limit.
    pub fn give(&mut self, bytes: &[u8]) -> Result<(), Full>
        ensures answer { result ≡ (if nat_lt 2097152 (queued_of self.old + length bytes.now) then Err (record { queued = queued_of self.old }) else Ok tt) }
        ensures given { OnOk result ((first : ℕ) (t : Trace Act) → Sends self.old first t → Sends self.new first (t ▷ Gave bytes.now)) }
        ensures queued { OnOk result (queued_of self.new ≡ queued_of self.old + length bytes.now) }
        ensures unchanged { OnErr result (self.new ≡ self.old) }
    {
        let queued = self.queued();
        if queued + bytes.len() > QUEUE {
            return Err(Full { queued });
        }
        append(&mut self.waiting, bytes);
        Ok(())
    }

    /// The bytes that were given and not yet cut, in order.
    pub fn waiting(&self) -> &HeapCircularBuffer<u8>
        ensures history { (first : ℕ) (t : Trace Act) → Sends self.now first t → result.now.items ≡ waiting limits t }
        ensures capacity { result.now.capacity ≡ 2097152 }
    {
        &self.waiting
    }

    /// How many bytes were given and are not in a settled part.
    pub fn queued(&self) -> usize
        ensures value { result ≡ queued_of self.now }
        ensures history { (first : ℕ) (t : Trace Act) → Sends self.now first t → result ≡ queued limits t }
        ensures bound { result ≤ 2161152 }
        ensures waiting { length self.now.waiting ≤ result }
    {
        self.kept_bytes()
    }

    /// How many bytes are kept.
    fn kept_bytes(&self) -> usize
        ensures value { result ≡ queued_of self.now }
        ensures bound { result ≤ 2161152 }
        ensures waiting { length self.now.waiting ≤ result }
        ensures base { self.now.base ≤ self.now.cut }
        ensures places { self.now.cut ≤ self.now.base + length self.now.flights }
    {
        self.waiting.len() + self.flights.bytes()
    }

    /// How many transmissions were made past the greatest one known as told.
    pub fn reach(&self) -> u64
        ensures value { result ≡ reach_of self.now }
        ensures history { (first : ℕ) (t : Trace Act) → Sends self.now first t → result ≡ reach limits t }
        ensures bound { result ≤ 4096 }
    {
        self.made - self.told
    }

    /// The greatest transmission made, one less than the first number where there is none.
    pub fn made(&self) -> u64
        ensures value { result + 1 ≡ next_transmission self.now }
        ensures history { (first : ℕ) (t : Trace Act) → Sends self.now first t → result + 1 ≡ first + transmissions t }
        ensures bound { result < 2 ^ 62 }
    {
        self.first + self.made - 1
    }

    /// The greatest part cut, one less than the first number where there is none.
    pub fn last_cut(&self) -> u64
        ensures history { (first : ℕ) (t : Trace Act) → Sends self.now first t → result + 1 ≡ first + cuts t }
        ensures bound { result < 2 ^ 62 }
    {
        self.first + self.cut - 1
    }

    /// The lowest unsettled part.
    pub fn lowest(&self) -> Option<u64>
        ensures history { (first : ℕ) (t : Trace Act) → Sends self.now first t → result ≡ option_map (λ p. first + p) (lowest limits t) }
        ensures unsettled { IfSome result (λ p. is_unsettled self.now p ≡ true) }
    {
        if self.base < self.cut && self.flights.get(0).slot.is_filled() {
            Some(self.first + self.base)
        } else {
            None
        }
    }

    /// The lowest unsettled part, or the next part where none is unsettled.
    pub fn floor_part(&self) -> u64
        ensures { (first : ℕ) (t : Trace Act) → Sends self.now first t → result ≡ first + lowest_or_next limits t }
    {
        self.first + self.base
    }

    /// The first transmission of the lowest unsettled part, or the least of the last 4,096
    /// transmissions where that is greater; the next transmission where no part is unsettled.
    pub fn floor_transmission(&self) -> u64
        ensures { (first : ℕ) (t : Trace Act) → Sends self.now first t → result ≡ first + floor_transmission limits t }
    {
        if self.base < self.cut {
            self.first
                + self
                    .flights
                    .get(0)
                    .earliest
                    .max(self.made.saturating_sub(SPAN))
        } else {
            self.first + self.made
        }
    }

    /// The lowest unsettled part that has three told transmissions above its latest one.
    pub fn passed_over(&self) -> Option<u64>
        ensures history { (first : ℕ) (t : Trace Act) → Sends self.now first t → result ≡ option_map (λ p. first + p) (passed_over limits t) }
        ensures unsettled { IfSome result (λ p. is_unsettled self.now p ≡ true) }
    {
        for ahead in 0..self.cut - self.base {
            let flight = self.flights.get(ahead as usize);
            if flight.slot.is_filled() && flight.latest + 1 < self.third {
                return Some(self.first + self.base + ahead);
            }
        }
        None
    }

    /// Whether a new part may be cut, where the peer last told this window.
    pub fn may_cut(&self, window: u64) -> bool
        ensures value { result ≡ may_cut_of self.now window }
        ensures history { (first : ℕ) (t : Trace Act) → Sends self.now first t → result ≡ may_cut limits first t window }
    {
        self.has_room(window)
    }

    /// Whether bytes wait, and both windows, the span and the numbers have room for a part.
    fn has_room(&self, window: u64) -> bool
        ensures value { result ≡ may_cut_of self.now window }
        ensures base { self.now.base ≤ self.now.cut }
    {
        !self.waiting.is_empty()
            && self.cut < self.base + window.min(WINDOW)
            && self.made - self.told < SPAN
            && self.first + self.cut < NUMBERS
            && self.first + self.made < NUMBERS
    }

    /// Cuts the next part from the bytes that wait, and writes it out under the next transmission.
    pub fn cut(&mut self, window: u64, out: &mut [u8; 1000]) -> Sent
        requires { may_cut_of self.old window ≡ true }
        ensures sent { (first : ℕ) (t : Trace Act) → Sends self.old first t → result ≡ record { part = first + cuts t; transmission = first + transmissions t; length = length (next_piece limits t) } }
        ensures bytes { (first : ℕ) (t : Trace Act) → Sends self.old first t → take result.length out.new ≡ next_piece limits t }
        ensures rest { drop result.length out.new ≡ drop result.length out.old }
        ensures holds { (first : ℕ) (t : Trace Act) → Sends self.old first t → Sends self.new first (t ▷ Cut) }
        ensures queued { queued_of self.new ≤ queued_of self.old }
        ensures fits { result.length ≤ 1000 }
    {
        let length = take_front(&mut self.waiting, out);
        let ahead = (self.cut - self.base) as usize;
        self.flights.fill(ahead, &out[..length], self.made);
        remember(&mut self.carried, self.cut);
        let sent = Sent {
            part: self.first + self.cut,
            transmission: self.first + self.made,
            length,
        };
        self.cut += 1;
        self.made += 1;
        sent
    }

    /// Writes an unsettled part out again, under the next transmission.
    pub fn resend(&mut self, part: u64, out: &mut [u8; 1000]) -> Sent
        requires unsettled { is_unsettled self.old part ≡ true }
        requires reach { reach_of self.old < 4096 }
        requires number { next_transmission self.old < 2 ^ 62 }
        ensures sent { (first : ℕ) (t : Trace Act) → Sends self.old first t → result ≡ record { part = part; transmission = first + transmissions t; length = length (piece limits t (part - first)) } }
        ensures bytes { (first : ℕ) (t : Trace Act) → Sends self.old first t → take result.length out.new ≡ piece limits t (part - first) }
        ensures rest { drop result.length out.new ≡ drop result.length out.old }
        ensures holds { (first : ℕ) (t : Trace Act) → Sends self.old first t → Sends self.new first (t ▷ Resent (part - first)) }
        ensures queued { queued_of self.new ≡ queued_of self.old }
        ensures fits { result.length ≤ 1000 }
        ensures near { self.old.first + self.old.cut ≤ part + 64 }
    {
        let ahead = (part - self.first - self.base) as usize;
        self.flights.carry(ahead, self.made);
        let bytes = self.flights.get(ahead).slot.bytes();
        let length = bytes.len();
        out[..length].copy_from_slice(bytes);
        remember(&mut self.carried, part - self.first);
        let transmission = self.first + self.made;
        self.made += 1;
        Sent {
            part,
            transmission,
            length,
        }
    }

    /// Takes that the part was told as received; whether it became settled.
    pub fn tell_part(&mut self, part: u64) -> bool
        ensures settles { (first : ℕ) (t : Trace Act) → Sends self.old first t → result ≡ settles_part limits first t part }
        ensures holds { (first : ℕ) (t : Trace Act) → Sends self.old first t → Sends self.new first (tells_part first part t) }
        ensures queued { queued_of self.new ≤ queued_of self.old }
    {
        if part < self.first + self.base || part >= self.first + self.cut {
            return false;
        }
        let ahead = (part - self.first - self.base) as usize;
        let flight = self.flights.get(ahead);
        if !flight.slot.is_filled() {
            return false;
        }
        let latest = flight.latest;
        self.hear(latest);
        self.settle(ahead);
        true
    }

    /// Takes that the transmission was told as received; whether a part became settled.
    pub fn tell_transmission(&mut self, transmission: u64) -> bool
        ensures settles { (first : ℕ) (t : Trace Act) → Sends self.old first t → result ≡ settles_transmission limits first t transmission }
        ensures holds { (first : ℕ) (t : Trace Act) → Sends self.old first t → Sends self.new first (tells_transmission first transmission t) }
        ensures queued { queued_of self.new ≤ queued_of self.old }
    {
        if transmission < self.first || transmission >= self.first + self.made {
            return false;
        }
        let count = transmission - self.first;
        let back = (self.made - count - 1) as usize;
        let Some(place) = self.carried.nth_back(back).copied() else {
            return false;
        };
        self.hear(count);
        if !self.is_flying(place) {
            return false;
        }
        self.settle((place - self.base) as usize);
        true
    }

    /// Whether the part at this place, counted from 0, is in flight.
    fn is_flying(&self, place: u64) -> bool
        ensures flying { result ≡ nat_le self.now.base place && (nat_lt place self.now.cut && is_some (slot_at self.now.flights (place - self.now.base))) }
        ensures within { result ≡ true → (self.now.base ≤ place) × (place < self.now.cut) }
    {
        self.base <= place
            && place < self.cut
            && self
                .flights
                .get((place - self.base) as usize)
                .slot
                .is_filled()
    }

    /// Takes that a transmission is known as told.
    fn hear(&mut self, transmission: u64)
        requires { transmission < self.old.made }
        ensures heard { self.new ≡ heard_of self.old transmission }
        ensures bound { self.new.base ≤ self.new.cut }
        ensures places { self.new.cut ≤ self.new.base + length self.new.flights }
    {
        let told = self.told;
        let end = transmission + 1;
        if end > told {
            self.third = self.second;
            self.second = told;
            self.told = end;
        } else if end < told && end > self.second {
            self.third = self.second;
            self.second = end;
        } else if end < self.second && end > self.third {
            self.third = end;
        }
    }

    /// Settles the part that lies so far ahead of the lowest unsettled one.
    fn settle(&mut self, ahead: usize)
        requires ahead { ahead < self.old.cut - self.old.base }
        ensures same { IsRebased self.old self.new }
        ensures flying { (bytes : ℕ → List ℕ) (is_open : ℕ → Bool) (earliest latest : ℕ → ℕ) → Flying self.old.flights self.old.base bytes is_open earliest latest → Flying self.new.flights self.new.base bytes (λ p. is_open p && not (p == self.old.base + ahead)) earliest latest }
        ensures front { (self.new.base ≡ self.new.cut) ⊎ IsSome (slot_at self.new.flights 0) }
        ensures bound { self.new.base ≤ self.new.cut }
        ensures places { self.new.cut ≤ self.new.base + length self.new.flights }
        ensures queued { queued_of self.new ≤ queued_of self.old }
    {
        self.land(ahead);
        self.pass_settled();
    }

    /// Takes the part that lies so far ahead out of flight.
    fn land(&mut self, ahead: usize)
        requires { ahead < self.old.cut - self.old.base }
        ensures landed { self.new ≡ landed self.old ahead }
        ensures within { ahead < length self.old.flights }
    {
        self.flights.land(ahead);
    }

    /// Whether the lowest part that is kept is settled.
    fn is_front_settled(&self) -> bool
        ensures bound { self.now.base ≤ self.now.cut }
        ensures places { self.now.cut ≤ self.now.base + length self.now.flights }
        ensures settled { result ≡ nat_lt self.now.base self.now.cut && not (is_some (slot_at self.now.flights 0)) }
    {
        self.base < self.cut && !self.flights.get(0).slot.is_filled()
    }

    /// Moves on by one part.
    fn pass_front(&mut self)
        requires front { slot_at self.old.flights 0 ≡ None }
        requires there { self.old.base < self.old.cut }
        ensures { self.new ≡ past_flight self.old }
    {
        self.flights.turn();
        self.base += 1;
    }

    /// Moves on to the lowest unsettled part.
    fn pass_settled(&mut self)
        ensures same { IsRebased self.old self.new }
        ensures flying { (bytes : ℕ → List ℕ) (is_open : ℕ → Bool) (earliest latest : ℕ → ℕ) → Flying self.old.flights self.old.base bytes is_open earliest latest → Flying self.new.flights self.new.base bytes is_open earliest latest }
        ensures front { (self.new.base ≡ self.new.cut) ⊎ IsSome (slot_at self.new.flights 0) }
        ensures bound { self.new.base ≤ self.new.cut }
        ensures places { self.new.cut ≤ self.new.base + length self.new.flights }
        ensures queued { queued_of self.new ≡ queued_of self.old }
    {
        while self.is_front_settled() {
            self.pass_front();
        }
    }
}

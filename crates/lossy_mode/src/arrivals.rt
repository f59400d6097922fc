//! What came at an open link.

ghost use Rattle.std.specs.Prelude.{◌≡◌, ◌+◌, ◌-◌, ◌<◌, ◌≤◌, ◌^◌, ◌++◌, ◌∷◌, [], ℕ, List, Some, None, All, length, take, drop, IfOk, IfSome, is_some, if◌then◌else◌, option_map};
ghost use Rattle.carrier.specs.Layout.{Carries, Load as LoadValue, Shown};
ghost use Rattle.carrier.specs.States.{HandsOut};
ghost use Rattle.link_machine.specs.ReceiverView.{Fits, load_of};
ghost use Rattle.lossy_mode.specs.Thin.{Got, answer_load, answer_number, floor_read, last_number, next_number, nothing, number_read, telling_of, waiting_in, with_floor, with_load, with_part, with_shown};
ghost use Rattle.udp1_core.specs.FirstLayout.{first_wire};
ghost use Rattle.lossy_mode.specs.LossyView.{Holds, both_numbers};

use crate::head::write_head;
use crate::part_ring::PartRing;
use carrier::{Reason, Took, WITH_TELLING};
use link_machine::Load;
use mt_base::{NoMemory, W32, near};
use mt_windows::{DATAGRAM, NUMBERS, PART, Seen, WINDOW};
use std::alloc::Global;
use std::marker::Model;

/// The parts that were accepted, and what else the other end told.
#[derive(Drop)]
pub struct Arrivals {
    seen: Seen<W32>,
    /// The greatest number of an accepted part.
    last: Option<u64>,
    parts: PartRing,
    floor: u64,
    window: u64,
}

impl Model for Arrivals {
    ghost use Rattle.lossy_mode.specs.LossyView.{Arrivals as Kept, IsSoundArrivals};

    ghost Value = { Kept };

    ghost view = { λ s. record { marks = s.seen; last = s.last; parts = s.parts; floor = s.floor; window = s.window } };

    ghost invariant = { λ s. IsSoundArrivals (record { marks = s.seen; last = s.last; parts = s.parts; floor = s.floor; window = s.window }) };
}

impl Arrivals {
    /// Nothing came.
    pub fn new(alloc: Global) -> Result<Arrivals, NoMemory>
        ensures holds { IfOk result (λ s. Holds s nothing 0) }
        ensures parts { IfOk result (λ s. s.parts ≡ []) }
    {
        Ok(Arrivals {
            seen: Seen::new(alloc, 1)?,
            last: None,
            parts: PartRing::new(alloc)?,
            floor: 0,
            window: WINDOW,
        })
    }

    /// The window that the other end told.
    pub fn window(&self) -> u64
        ensures { result ≡ self.now.window }
    {
        self.window
    }

    /// The greatest number of an accepted part, or one less than the first number of the other end.
    fn last_number(&self, peer: u64) -> u64
        requires peer { 1 ≤ peer }
        requires low { peer ≤ 2 ^ 32 }
        ensures value { (g : Got) (n : ℕ) → Holds self.now g n → result ≡ last_number peer g.numbers }
        ensures bound { result < 2 ^ 62 }
    {
        match self.last {
            Some(last) => last,
            None => peer - 1,
        }
    }

    /// The number near the one that is expected which has this low part.
    fn number(&self, peer: u64, low: u64) -> Option<u64>
        requires peer { 1 ≤ peer }
        requires below { peer ≤ 2 ^ 32 }
        requires low { low < 2 ^ 32 }
        ensures value { (g : Got) (n : ℕ) → Holds self.now g n → result ≡ number_read peer g.numbers low }
        ensures bound { IfSome result (λ k. k < 2 ^ 62) }
    {
        match near::<W32>(self.last_number(peer) + 1, low) {
            Some(number) if number < NUMBERS => Some(number),
            _ => None,
        }
    }

    /// Takes a part by the low part of its number.
    fn accept(&mut self, peer: u64, low: u64, bytes: &[u8]) -> Took
        requires peer { 1 ≤ peer }
        requires below { peer ≤ 2 ^ 32 }
        requires low { low < 2 ^ 32 }
        requires fits { length bytes.now ≤ DATAGRAM }
        ensures answer { (g : Got) (n : ℕ) → Holds self.old g n →
            result ≡ answer_number peer g.numbers (length (waiting_in g n)) (number_read peer g.numbers low) }
        ensures holds { (g : Got) (n : ℕ) → Holds self.old g n →
            Holds self.new (with_part result (number_read peer g.numbers low) bytes.now g) n }
        ensures parts { (more : List (List ℕ)) × (self.new.parts ≡ self.old.parts ++ more) }
    {
        let Some(number) = self.number(peer, low) else {
            return Took::Ignored(Reason::Unnumbered);
        };
        if number <= self.last_number(peer) {
            return Took::Ignored(Reason::Old);
        }
        if self.parts.len() as u64 >= WINDOW {
            return Took::Ignored(Reason::Beyond { limit: WINDOW });
        }
        self.parts.push(bytes);
        self.seen.note(number);
        self.last = Some(number);
        Took::Used
    }

    /// The floor that has this low part, where one is shown.
    fn read_floor(&self, peer: u64, floor: Option<u64>) -> Option<u64>
        requires peer { 1 ≤ peer }
        requires below { peer ≤ 2 ^ 32 }
        requires low { IfSome floor (λ low. low < 2 ^ 32) }
        ensures { (g : Got) (n : ℕ) → Holds self.now g n → result ≡ floor_read peer g.numbers floor }
    {
        match floor {
            Some(low) => self.number(peer, low),
            None => None,
        }
    }

    /// Takes a floor, unless it is above the last number accepted.
    fn raise(&mut self, peer: u64, floor: Option<u64>)
        requires peer { 1 ≤ peer }
        requires below { peer ≤ 2 ^ 32 }
        ensures holds { (g : Got) (n : ℕ) → Holds self.old g n → Holds self.new (with_floor peer floor g) n }
        ensures parts { self.new.parts ≡ self.old.parts }
    {
        match floor {
            Some(floor) if floor <= self.last_number(peer) => self.floor = floor,
            _ => {}
        }
    }

    /// Takes what a datagram carries.
    fn take_load(&mut self, peer: u64, load: Load<'_>) -> Took
        requires peer { 1 ≤ peer }
        requires below { peer ≤ 2 ^ 32 }
        requires fits { Fits (2 ^ 32) load }
        ensures answer { (g : Got) (n : ℕ) → Holds self.old g n →
            result ≡ answer_load peer g.numbers (length (waiting_in g n)) (load_of load.entry) }
        ensures holds { (g : Got) (n : ℕ) → Holds self.old g n →
            Holds self.new (with_load peer (length (waiting_in g n)) (load_of load.entry) g) n }
        ensures parts { (more : List (List ℕ)) × (self.new.parts ≡ self.old.parts ++ more) }
    {
        match load {
            Load::Empty | Load::Dummy { .. } => Took::Used,
            Load::Part { part, bytes, .. } => self.accept(peer, part, bytes),
            Load::Correction => Took::Ignored(Reason::FecDropped),
        }
    }

    /// Takes what a datagram shows: the window of its sender, the floor, and what it carries.
    pub fn take(&mut self, peer: u64, window: u64, floor: Option<u64>, load: Load<'_>) -> Took
        requires peer { 1 ≤ peer }
        requires below { peer ≤ 2 ^ 32 }
        requires low { IfSome floor (λ low. low < 2 ^ 32) }
        requires fits { Fits (2 ^ 32) load }
        ensures answer { (g : Got) (n : ℕ) → Holds self.old g n →
            result ≡ answer_load peer g.numbers (length (waiting_in g n)) (load_of load.entry) }
        ensures holds { (g : Got) (n : ℕ) (shown : Shown) →
            shown.load ≡ load_of load.entry → shown.floor ≡ floor → shown.window ≡ Some window →
            Holds self.old g n → Holds self.new (with_shown peer (length (waiting_in g n)) shown g) n }
        ensures parts { (more : List (List ℕ)) × (self.new.parts ≡ self.old.parts ++ more) }
    {
        let floor = self.read_floor(peer, floor);
        self.window = window;
        let took = self.take_load(peer, load);
        self.raise(peer, floor);
        took
    }

    /// Writes a datagram up to the bytes of its part: what was accepted, where it tells so, and the
    /// number of the part. Gives its length.
    pub fn head(&self, peer: u64, tells: bool, number: Option<u64>, out: &mut [u8; 1232]) -> usize
        requires peer { 1 ≤ peer }
        requires below { peer ≤ 2 ^ 32 }
        ensures bound { result + PART ≤ WITH_TELLING }
        ensures text { (g : Got) (n : ℕ) → Holds self.now g n →
            let text = first_wire.head (telling_of peer g.numbers g.floor) tells None (option_map both_numbers number) in
            (result ≡ length text) × (out.new ≡ text ++ drop result out.old) }
        ensures rest { drop result out.new ≡ drop result out.old }
    {
        let last = self.last_number(peer);
        let from = peer.max(self.floor).max((last + 1).saturating_sub(WINDOW));
        write_head(&self.seen, from, last, tells, number, out)
    }

    /// Writes the first part that waits to the front of `out`, and gives its length; `None` where there
    /// is none.
    pub fn hand_out(&mut self, out: &mut [u8; 1232]) -> Option<usize>
        ensures part { HandsOut self.old.parts self.new.parts (option_map (λ n. take n out.new) result) }
        ensures bound { IfSome result (λ n. n ≤ DATAGRAM) }
        ensures holds { (g : Got) (n : ℕ) → Holds self.old g n →
            Holds self.new g (if is_some result then n + 1 else n) }
    {
        if self.parts.is_empty() {
            return None;
        }
        Some(self.parts.pop(out))
    }
}

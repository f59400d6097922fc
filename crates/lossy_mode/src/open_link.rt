//! What a lossy link does once its ends have agreed.

ghost use Rattle.std.specs.Prelude.{◌≡◌, ◌+◌, ◌-◌, ◌<◌, ◌≤◌, ◌^◌, ◌++◌, ◌∷◌, [], ℕ, List, Option, Some, None, All, true, if◌then◌else◌, is_some, length, replicate, take, drop, max, option_map, Ok, IfOk, IfSome};
ghost use Rattle.carrier.specs.Layout.{Reading};
ghost use Rattle.carrier.specs.States.{HandsOut, written};
ghost use Rattle.link_machine.specs.ReceiverView.{pressing_from};
ghost use Rattle.udp1_core.specs.FirstLayout.{first_layout};
ghost use Rattle.lossy_mode.specs.Thin.{Got, answer_reading, bare_meant, may_send, meant_by, nothing, part_meant, waiting_in, with_reading};
ghost use Rattle.lossy_mode.specs.LossyView.{Holds, IsFit, OwesFor, Reads, count_of, due_from, owed_by, read_of};

use crate::arrivals::Arrivals;
use crate::contents::{Shown, read_shown};
use crate::part_ring::PartRing;
use crate::tellings::Tellings;
use carrier::{Reason, Took};
use link_machine::Load;
use mt_base::NoMemory;
use mt_windows::{DATAGRAM, NUMBERS, PART, WINDOW};
use std::alloc::Global;
use std::marker::Model;

/// The last moment, the parts that wait to be sent, the number of the next one, what came, and what
/// is to be told of it.
#[derive(Drop)]
pub struct OpenLink {
    moment: u64,
    parts: PartRing,
    next: u64,
    arrivals: Arrivals,
    tellings: Tellings,
}

impl Model for OpenLink {
    ghost use Rattle.lossy_mode.specs.LossyView.{IsSoundOpen, OpenLink as Kept};

    ghost Value = { Kept };

    ghost view = { λ s. record { moment = s.moment; parts = s.parts; next = s.next; arrivals = s.arrivals; tellings = s.tellings } };

    ghost invariant = { λ s. IsSoundOpen (record { moment = s.moment; parts = s.parts; next = s.next; arrivals = s.arrivals; tellings = s.tellings }) };
}

impl OpenLink {
    /// A link whose first part has this number.
    pub fn new(alloc: Global, next: u64) -> Result<OpenLink, NoMemory>
        requires { next ≤ 2 ^ 32 }
        ensures next { IfOk result (λ s. s.next ≡ next) }
        ensures moment { IfOk result (λ s. s.moment ≡ 0) }
        ensures parts { IfOk result (λ s. s.parts ≡ []) }
        ensures holds { IfOk result (λ s. Holds s.arrivals nothing 0) }
        ensures left { IfOk result (λ s. s.arrivals.parts ≡ []) }
        ensures owes { IfOk result (λ s. OwesFor s.tellings []) }
    {
        let parts = PartRing::new(alloc)?;
        let arrivals = Arrivals::new(alloc)?;
        Ok(OpenLink {
            moment: 0,
            parts,
            next,
            arrivals,
            tellings: Tellings::new(),
        })
    }

    /// Lets the time pass up to this moment.
    pub fn pass(&mut self, now: u64)
        requires { now < 2 ^ 62 }
        ensures { self.new ≡ record self.old { moment = max self.old.moment now } }
    {
        self.moment = self.moment.max(now);
    }

    /// How many parts wait to be sent.
    pub fn queued(&self) -> usize
        ensures { result ≡ length self.now.parts }
    {
        self.parts.len()
    }

    /// Keeps a part that is to be sent.
    pub fn push(&mut self, part: &[u8])
        requires room { length self.old.parts < WINDOW }
        requires short { length part.now ≤ PART }
        ensures { self.new ≡ record self.old { parts = self.old.parts ++ part.now ∷ [] } }
    {
        self.parts.push(part);
    }

    /// Writes the first accepted part that waits to the front of `out`, and gives its length; `None`
    /// where there is none.
    pub fn hand_out(&mut self, out: &mut [u8; 1232]) -> Option<usize>
        ensures bound { IfSome result (λ n. n ≤ DATAGRAM) }
        ensures part { HandsOut self.old.arrivals.parts self.new.arrivals.parts
            (option_map (λ n. take n out.new) result) }
        ensures holds { (g : Got) (n : ℕ) → Holds self.old.arrivals g n →
            Holds self.new.arrivals g (if is_some result then n + 1 else n) }
        ensures others { self.new ≡ record self.old { arrivals = self.new.arrivals } }
    {
        self.arrivals.hand_out(out)
    }

    /// So many tellings more are owed.
    pub fn owe(&mut self, count: u32)
        ensures owes { (owed : List ℕ) → OwesFor self.old.tellings owed →
            OwesFor self.new.tellings (owed ++ replicate count self.old.moment) }
        ensures others { self.new ≡ record self.old { tellings = self.new.tellings } }
    {
        self.tellings.owe(count, self.moment);
    }

    /// Takes a datagram that is none of the opening, where the other end's parts begin at this number.
    pub fn take(&mut self, peer: u64, datagram: &[u8]) -> Took
        requires peer { 1 ≤ peer }
        requires below { peer ≤ 2 ^ 32 }
        ensures answer { (g : Got) (n : ℕ) → Holds self.old.arrivals g n →
            result ≡ answer_reading peer g (length (waiting_in g n)) (read_of datagram.now) }
        ensures holds { (g : Got) (n : ℕ) → Holds self.old.arrivals g n →
            Holds self.new.arrivals (with_reading peer (length (waiting_in g n)) (read_of datagram.now) g) n }
        ensures owes { (owed : List ℕ) → OwesFor self.old.tellings owed →
            OwesFor self.new.tellings (owed_by result (count_of (read_of datagram.now)) self.old.moment owed) }
        ensures left { (more : List (List ℕ)) × (self.new.arrivals.parts ≡ self.old.arrivals.parts ++ more) }
        ensures others { self.new ≡ record self.old { arrivals = self.new.arrivals; tellings = self.new.tellings } }
    {
        if datagram.len() > DATAGRAM {
            return Took::Ignored(Reason::TooLong);
        }
        match read_shown(datagram) {
            Ok(shown) => self.take_shown(peer, &shown),
            Err(reason) => Took::Ignored(reason),
        }
    }

    /// Takes what a datagram shows.
    fn take_shown(&mut self, peer: u64, shown: &Shown<'_>) -> Took
        requires peer { 1 ≤ peer }
        requires below { peer ≤ 2 ^ 32 }
        requires fit { IsFit shown.now }
        ensures answer { (g : Got) (n : ℕ) (r : Reading) → Reads (Ok shown.now) r → Holds self.old.arrivals g n →
            result ≡ answer_reading peer g (length (waiting_in g n)) r }
        ensures holds { (g : Got) (n : ℕ) (r : Reading) → Reads (Ok shown.now) r → Holds self.old.arrivals g n →
            Holds self.new.arrivals (with_reading peer (length (waiting_in g n)) r g) n }
        ensures owes { (owed : List ℕ) (r : Reading) → Reads (Ok shown.now) r → OwesFor self.old.tellings owed →
            OwesFor self.new.tellings (owed_by result (count_of r) self.old.moment owed) }
        ensures left { (more : List (List ℕ)) × (self.new.arrivals.parts ≡ self.old.arrivals.parts ++ more) }
        ensures others { self.new ≡ record self.old { arrivals = self.new.arrivals; tellings = self.new.tellings } }
    {
        let count = match shown.load {
            Load::Part { .. } => 1,
            Load::Empty | Load::Dummy { .. } | Load::Correction => 0,
        };
        let took = self
            .arrivals
            .take(peer, shown.window, shown.floor, shown.load);
        match took {
            Took::Used => self.owe(count),
            Took::Ignored(_) => {}
        }
        took
    }

    /// Whether a part may be sent: one waits, the other end has a window, and there is a number for it.
    pub fn may_send(&self) -> bool
        ensures { result ≡ may_send self.now.parts self.now.arrivals.window self.now.next }
    {
        !self.parts.is_empty() && self.arrivals.window() > 0 && self.next < NUMBERS
    }

    /// Writes what is to be sent at the last moment to the front of `out`: the next part, or else what
    /// was accepted, where that has to be told alone.
    pub fn send(&mut self, peer: u64, delay: u64, out: &mut [u8; 1232]) -> Option<usize>
        requires peer { 1 ≤ peer }
        requires below { peer ≤ 2 ^ 32 }
        requires delay { delay ≤ 200 }
        ensures bound { IfSome result (λ n. n ≤ DATAGRAM) }
        ensures rest { drop (written result) out.new ≡ drop (written result) out.old }
        ensures bytes { (wait own : ℕ) (g : Got) (n : ℕ) (owed : List ℕ) →
            Holds self.old.arrivals g n → OwesFor self.old.tellings owed →
            let layout = first_layout wait delay own peer in
            option_map (λ n. take n out.new) result
            ≡ option_map layout.spell (meant_by layout g owed self.old.next self.old.parts self.old.moment) }
        ensures parts { self.new.parts ≡ (if may_send self.old.parts self.old.arrivals.window self.old.next then drop 1 self.old.parts else self.old.parts) }
        ensures next { self.new.next ≡ (if may_send self.old.parts self.old.arrivals.window self.old.next then self.old.next + 1 else self.old.next) }
        ensures owes { (owed : List ℕ) → OwesFor self.old.tellings owed →
            OwesFor self.new.tellings (if is_some result then [] else owed) }
        ensures others { self.new ≡ record self.old { parts = self.new.parts; next = self.new.next; tellings = self.new.tellings } }
    {
        if self.may_send() {
            return Some(self.send_part(peer, out));
        }
        self.tell(peer, delay, out)
    }

    /// Writes the datagram that carries the next part.
    fn send_part(&mut self, peer: u64, out: &mut [u8; 1232]) -> usize
        requires peer { 1 ≤ peer }
        requires below { peer ≤ 2 ^ 32 }
        requires may { may_send self.old.parts self.old.arrivals.window self.old.next ≡ true }
        ensures bound { result ≤ DATAGRAM }
        ensures rest { drop result out.new ≡ drop result out.old }
        ensures bytes { (wait delay own : ℕ) (g : Got) (n : ℕ) (owed : List ℕ) →
            Holds self.old.arrivals g n → OwesFor self.old.tellings owed →
            let layout = first_layout wait delay own peer in
            Some (take result out.new) ≡ option_map layout.spell (part_meant layout g owed self.old.next self.old.parts) }
        ensures parts { self.new.parts ≡ drop 1 self.old.parts }
        ensures next { self.new.next ≡ self.old.next + 1 }
        ensures owes { (owed : List ℕ) → OwesFor self.old.tellings owed → OwesFor self.new.tellings [] }
        ensures others { self.new ≡ record self.old { parts = self.new.parts; next = self.new.next; tellings = self.new.tellings } }
    {
        let tells = self.tellings.are_owed();
        let head = self.arrivals.head(peer, tells, Some(self.next), out);
        self.tellings.pay();
        self.next += 1;
        head + self.parts.pop(&mut out[head..])
    }

    /// Writes a datagram that only tells what was accepted, where that has to be told.
    fn tell(&mut self, peer: u64, delay: u64, out: &mut [u8; 1232]) -> Option<usize>
        requires peer { 1 ≤ peer }
        requires below { peer ≤ 2 ^ 32 }
        requires delay { delay ≤ 200 }
        ensures bound { IfSome result (λ n. n ≤ DATAGRAM) }
        ensures rest { drop (written result) out.new ≡ drop (written result) out.old }
        ensures bytes { (wait own : ℕ) (g : Got) (n : ℕ) (owed : List ℕ) →
            Holds self.old.arrivals g n → OwesFor self.old.tellings owed →
            let layout = first_layout wait delay own peer in
            option_map (λ n. take n out.new) result ≡ option_map layout.spell (bare_meant layout g owed self.old.moment) }
        ensures owes { (owed : List ℕ) → OwesFor self.old.tellings owed →
            OwesFor self.new.tellings (if is_some result then [] else owed) }
        ensures others { self.new ≡ record self.old { tellings = self.new.tellings } }
    {
        if !self.tellings.is_pressing(delay, self.moment) {
            return None;
        }
        self.tellings.pay();
        Some(self.arrivals.head(peer, true, None, out))
    }

    /// The least moment, from the last one on, at which something would be sent.
    pub fn next_due(&self, delay: u64) -> Option<u64>
        requires { delay ≤ 200 }
        ensures { (owed : List ℕ) → OwesFor self.now.tellings owed →
            result ≡ due_from (may_send self.now.parts self.now.arrivals.window self.now.next) self.now.moment (pressing_from delay owed) }
    {
        if self.may_send() {
            return Some(self.moment);
        }
        match self.tellings.deadline(delay) {
            Some(due) => Some(due.max(self.moment)),
            None => None,
        }
    }

    /// The last moment.
    pub fn moment(&self) -> u64
        ensures { result ≡ self.now.moment }
    {
        self.moment
    }
}

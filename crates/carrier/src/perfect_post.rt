//! A link of parts that needs no real one, for tests of what stands above links and for ends that
//! never have one.

ghost use Rattle.std.specs.Prelude.{◌≡◌, ◌<◌, ◌≤◌, ◌∷◌, [], true, Some, length, take, drop, IfOk};
ghost use Rattle.std.specs.VecDeque.{deque_capacity};
ghost use Rattle.mt_base.specs.Trace.{Start};
ghost use Rattle.carrier.specs.Perfect.{number_of, bytes_of, may_send};
ghost use Rattle.carrier.specs.PerfectThin.{first_spelled, part_answer, part_answer_by};
ghost use Rattle.carrier.specs.PerfectView.{PostStands, post_took, with_part, without_part};

use crate::lossy::{Post, PostRefusal};
use crate::perfect_datagram::{HEADER, read_number};
use crate::piece::{Piece, ROOM};
use crate::state::{LinkState, Reason, Took};
use byteorder::{ByteOrder, LittleEndian};
use mt_base::NoMemory;
use mt_windows::{NUMBERS, WINDOW};
use std::alloc::Global;
use std::collections::VecDeque;
use std::marker::Model;

/// A link of parts that is open from the start, never closes and sends each part once. It accepts
/// the parts whose numbers rise, and keeps [`WINDOW`] parts each way.
///
/// A datagram is the number of its part, from 0 on, in eight bytes, the lowest first, and the bytes
/// of the part. `poll` sends the next part that was posted, at any moment. `input` refuses a number
/// of 2^62 or more as `Beyond`, one that is not above those of all accepted parts as `Old`, and any
/// other as `Beyond` where no more parts can wait to be handed out.
#[derive(Drop)]
pub struct PerfectPost {
    waiting: VecDeque<Piece>,
    sent: u64,
    arrived: VecDeque<Piece>,
    least: u64,
    last: u64,
}

impl Model for PerfectPost {
    ghost use Rattle.std.specs.Prelude.{◌≤◌};
    ghost use Rattle.std.specs.VecDeque.{deque_capacity};
    ghost use Rattle.mt_windows.specs.declared.limits.TheConstants.{WINDOW};
    ghost use Rattle.carrier.specs.PerfectView.{KeptParts, IsSoundPost};

    ghost Value = { KeptParts };

    ghost view = { λ p. record { waiting = p.waiting.items; sent = p.sent; arrived = p.arrived.items; least = p.least; last = p.last } };

    ghost invariant = { λ p. record { sound : IsSoundPost (record { waiting = p.waiting.items; sent = p.sent; arrived = p.arrived.items; least = p.least; last = p.last }); room : WINDOW ≤ deque_capacity p.waiting; space : WINDOW ≤ deque_capacity p.arrived } };
}

impl PerfectPost {
    /// A link over which nothing was posted and nothing came.
    pub fn new(alloc: Global) -> Result<PerfectPost, NoMemory>
        ensures stands { IfOk result (λ p. PostStands p Start) }
        ensures left { IfOk result (λ p. p.arrived ≡ []) }
        ensures load { IfOk result (λ p. length p.waiting ≡ 0) }
    {
        let waiting = VecDeque::with_capacity(alloc, WINDOW as usize)?;
        let arrived = VecDeque::with_capacity(alloc, WINDOW as usize)?;
        Ok(PerfectPost {
            waiting,
            sent: 0,
            arrived,
            least: 0,
            last: 0,
        })
    }

    /// Whether a part can be sent.
    fn may_send(&self) -> bool
        ensures may { result ≡ may_send (length self.now.waiting) self.now.sent }
    {
        !self.waiting.is_empty() && self.sent < NUMBERS
    }

    /// What is answered to a part of this number.
    fn answer(&self, number: u64) -> Took
        ensures { result ≡ part_answer self.now.least (length self.now.arrived) number }
    {
        if number >= NUMBERS {
            return Took::Ignored(Reason::Beyond { limit: WINDOW });
        }
        if number < self.least {
            return Took::Ignored(Reason::Old);
        }
        if self.arrived.len() >= WINDOW as usize {
            return Took::Ignored(Reason::Beyond { limit: WINDOW });
        }
        Took::Used
    }

    /// Accepts a part.
    fn accept(&mut self, number: u64, bytes: &[u8])
        requires number { number < NUMBERS }
        requires rises { self.old.least ≤ number }
        requires room { length self.old.arrived < WINDOW }
        requires fits { length bytes.now ≤ ROOM }
        ensures { self.new ≡ with_part number bytes.now self.old }
    {
        match self.arrived.push_back(Piece::new(bytes)) {
            Ok(()) => {}
            Err(_) => unreachable!(),
        }
        self.least = number + 1;
    }

    /// Takes a datagram whose moment was noted.
    fn take(&mut self, datagram: &[u8]) -> Took
        ensures answer { result ≡ part_answer_by self.old.least (length self.old.arrived) (number_of datagram.now) }
        ensures kept { self.new ≡ post_took result (number_of datagram.now) (bytes_of datagram.now) self.old }
    {
        let number = match read_number(datagram) {
            Ok(number) => number,
            Err(why) => return Took::Ignored(why),
        };
        let answer = self.answer(number);
        if let Took::Used = answer {
            self.accept(number, &datagram[HEADER..]);
        }
        answer
    }

    /// Sends the next part.
    fn send(&mut self, out: &mut [u8; 1232]) -> usize
        requires { may_send (length self.old.waiting) self.old.sent ≡ true }
        ensures bound { result ≤ 1232 }
        ensures datagram { first_spelled self.old.sent self.old.waiting ≡ Some (take result out.new) }
        ensures rest { drop result out.new ≡ drop result out.old }
        ensures kept { self.new ≡ without_part self.old }
    {
        LittleEndian::write_u64(out, self.sent);
        let count = put_first(&mut self.waiting, &mut out[HEADER..]);
        self.sent += 1;
        HEADER + count
    }
}

/// Takes the first part, and writes its bytes to the front of `out`.
fn put_first(parts: &mut VecDeque<Piece>, out: &mut [u8]) -> usize
    requires some { 0 < length parts.old.items }
    requires room { ROOM ≤ length out.old }
    ensures bound { result ≤ ROOM }
    ensures bytes { parts.old.items ≡ take result out.new ∷ parts.new.items }
    ensures rest { drop result out.new ≡ drop result out.old }
    ensures capacity { deque_capacity parts.old ≤ deque_capacity parts.new }
{
    match parts.pop_front() {
        Some(piece) => {
            let bytes = piece.bytes();
            let count = bytes.len();
            out[..count].copy_from_slice(bytes);
            count
        }
        None => unreachable!(),
    }
}

impl Post for PerfectPost {
    ghost use Rattle.std.specs.Prelude.{length, ◌≡◌};
    ghost use Rattle.carrier.specs.declared.state.LinkState.TheVariants.{Open as IsOpen};
    ghost use Rattle.carrier.specs.PerfectThin.{PerfectThin, part_moment};
    ghost use Rattle.carrier.specs.PerfectView.{PostStands};

    ghost stands = { λ p t. PostStands p t };

    ghost law = { λ p t. PerfectThin t };

    ghost left = { λ p. p.arrived };

    ghost load = { λ p. length p.waiting };

    ghost condition = { λ p. IsOpen };

    ghost next = { λ p t due. due ≡ part_moment t };

    ghost keeps = { λ p t h. h.thin };

    fn post(&mut self, bytes: &[u8]) -> Result<(), PostRefusal> {
        let queued = self.waiting.len();
        if queued >= WINDOW as usize {
            return Err(PostRefusal::Full { queued });
        }
        match self.waiting.push_back(Piece::new(bytes)) {
            Ok(()) => {}
            Err(_) => unreachable!(),
        }
        Ok(())
    }

    fn next(&mut self, out: &mut [u8; 1232]) -> Option<usize> {
        if self.arrived.is_empty() {
            return None;
        }
        Some(put_first(&mut self.arrived, out))
    }

    fn input(&mut self, now: u64, datagram: &[u8]) -> Took {
        self.last = self.last.max(now);
        self.take(datagram)
    }

    fn poll(&mut self, now: u64, out: &mut [u8; 1232]) -> Option<usize> {
        self.last = self.last.max(now);
        if !self.may_send() {
            return None;
        }
        Some(self.send(out))
    }

    fn queued(&self) -> usize {
        self.waiting.len()
    }

    fn next_due(&self) -> Option<u64> {
        if self.may_send() {
            Some(self.last)
        } else {
            None
        }
    }

    fn state(&self) -> LinkState {
        LinkState::Open
    }
}

//! A reliable link that needs no real one, for tests of what stands above links.

ghost use Rattle.std.specs.Prelude.{◌≡◌, ◌+◌, ◌<◌, ◌≤◌, [], true, length, take, drop, IfOk};
ghost use Rattle.mt_base.specs.Trace.{Start};
ghost use Rattle.carrier.specs.Perfect.{spelled, may_send, answer_to, answer_by, number_of, bytes_of};
ghost use Rattle.carrier.specs.PerfectView.{CarrierStands, carrier_took, with_arrived, without_sent};

use crate::byte_queue::{append, take_front};
use crate::perfect_datagram::{HEADER, read_number};
use crate::reliable::{Carrier, GiveRefusal};
use crate::state::{LinkState, Reason, Took};
use byteorder::{ByteOrder, LittleEndian};
use mt_base::NoMemory;
use mt_windows::{DATAGRAM, NUMBERS, PART, QUEUE};
use std::alloc::Global;
use std::collections::VecDeque;
use std::marker::Model;

/// A link that is open from the start, never closes, sends each part once and accepts the parts in
/// order. It is for tests; over a network that loses datagrams it stops.
///
/// A datagram is the number of its part, from 0 on, in eight bytes, the lowest first, and the bytes
/// of the part. `poll` sends the next bytes that were given, [`PART`] at most, at any moment.
/// `input` takes the next part where its bytes fit beside those that were not pulled; it refuses a
/// part that came before as `Old`, and any other as `Beyond` with the number of the next one.
#[derive(Drop)]
pub struct PerfectCarrier {
    waiting: VecDeque<u8>,
    sent: u64,
    arrived: VecDeque<u8>,
    next: u64,
    last: u64,
}

impl Model for PerfectCarrier {
    ghost use Rattle.std.specs.Prelude.{◌≤◌};
    ghost use Rattle.std.specs.VecDeque.{deque_capacity};
    ghost use Rattle.mt_windows.specs.declared.limits.TheConstants.{QUEUE};
    ghost use Rattle.carrier.specs.PerfectView.{Kept, IsSoundCarrier};

    ghost Value = { Kept };

    ghost view = { λ c. record { waiting = c.waiting.items; sent = c.sent; arrived = c.arrived.items; next = c.next; last = c.last } };

    ghost invariant = { λ c. record { sound : IsSoundCarrier (record { waiting = c.waiting.items; sent = c.sent; arrived = c.arrived.items; next = c.next; last = c.last }); room : QUEUE ≤ deque_capacity c.waiting; space : QUEUE ≤ deque_capacity c.arrived } };
}

impl PerfectCarrier {
    /// A link over which nothing was given and nothing came.
    pub fn new(alloc: Global) -> Result<PerfectCarrier, NoMemory>
        ensures stands { IfOk result (λ c. CarrierStands c Start) }
        ensures left { IfOk result (λ c. c.arrived ≡ []) }
        ensures load { IfOk result (λ c. length c.waiting ≡ 0) }
    {
        let waiting = VecDeque::with_capacity(alloc, QUEUE)?;
        let arrived = VecDeque::with_capacity(alloc, QUEUE)?;
        Ok(PerfectCarrier {
            waiting,
            sent: 0,
            arrived,
            next: 0,
            last: 0,
        })
    }

    /// Whether a part can be sent.
    fn may_send(&self) -> bool
        ensures may { result ≡ may_send (length self.now.waiting) self.now.sent }
    {
        !self.waiting.is_empty() && self.sent < NUMBERS
    }

    /// What is answered to a part of this number with so many bytes.
    fn answer(&self, number: u64, count: usize) -> Took
        requires { count ≤ DATAGRAM }
        ensures { result ≡ answer_to self.now.next (length self.now.arrived) number count }
    {
        if number < self.next {
            return Took::Ignored(Reason::Old);
        }
        if number > self.next || number >= NUMBERS || self.arrived.len() + count > QUEUE {
            return Took::Ignored(Reason::Beyond { limit: self.next });
        }
        Took::Used
    }

    /// Accepts the next part.
    fn accept(&mut self, bytes: &[u8])
        requires number { self.old.next < NUMBERS }
        requires room { length self.old.arrived + length bytes.now ≤ QUEUE }
        ensures { self.new ≡ with_arrived bytes.now self.old }
    {
        append(&mut self.arrived, bytes);
        self.next += 1;
    }

    /// Takes a datagram whose moment was noted.
    fn take(&mut self, datagram: &[u8]) -> Took
        ensures answer { result ≡ answer_by self.old.next (length self.old.arrived) (number_of datagram.now) (length (bytes_of datagram.now)) }
        ensures kept { self.new ≡ carrier_took result (bytes_of datagram.now) self.old }
    {
        let number = match read_number(datagram) {
            Ok(number) => number,
            Err(why) => return Took::Ignored(why),
        };
        let bytes = &datagram[HEADER..];
        let answer = self.answer(number, bytes.len());
        if let Took::Used = answer {
            self.accept(bytes);
        }
        answer
    }

    /// Sends the next part.
    fn send(&mut self, out: &mut [u8; 1232]) -> usize
        requires { may_send (length self.old.waiting) self.old.sent ≡ true }
        ensures bound { result ≤ 1232 }
        ensures datagram { take result out.new ≡ spelled self.old.sent (take PART self.old.waiting) }
        ensures rest { drop result out.new ≡ drop result out.old }
        ensures kept { self.new ≡ without_sent self.old }
    {
        let count = self.waiting.len().min(PART);
        LittleEndian::write_u64(out, self.sent);
        take_front(&mut self.waiting, count, &mut out[HEADER..]);
        self.sent += 1;
        HEADER + count
    }
}

impl Carrier for PerfectCarrier {
    ghost use Rattle.std.specs.Prelude.{length, ◌≡◌};
    ghost use Rattle.carrier.specs.declared.state.LinkState.TheVariants.{Open as IsOpen};
    ghost use Rattle.carrier.specs.Perfect.{PerfectFaithful, due_moment};
    ghost use Rattle.carrier.specs.PerfectView.{CarrierStands};

    ghost stands = { λ c t. CarrierStands c t };

    ghost law = { λ c t. PerfectFaithful t };

    ghost left = { λ c. c.arrived };

    ghost load = { λ c. length c.waiting };

    ghost condition = { λ c. IsOpen };

    ghost next = { λ c t due. due ≡ due_moment t };

    ghost keeps = { λ c t h. h.faithful };

    fn input(&mut self, now: u64, datagram: &[u8]) -> Took {
        self.last = self.last.max(now);
        self.take(datagram)
    }

    fn poll(&mut self, now: u64, out: &mut [u8; 1232]) -> Option<usize> {
        self.last = self.last.max(now);
        if !self.may_send() {
            return None;
        }
        Some(self.send(out))
    }

    fn give(&mut self, bytes: &[u8]) -> Result<(), GiveRefusal> {
        let queued = self.waiting.len();
        if queued + bytes.len() > QUEUE {
            return Err(GiveRefusal::Full { queued });
        }
        append(&mut self.waiting, bytes);
        Ok(())
    }

    fn pull(&mut self, out: &mut [u8]) -> usize {
        let count = self.arrived.len().min(out.len());
        take_front(&mut self.arrived, count, out);
        count
    }

    fn queued(&self) -> usize {
        self.waiting.len()
    }

    fn next_due(&self) -> Option<u64> {
        if self.may_send() {
            Some(self.last)
        } else {
            None
        }
    }

    fn state(&self) -> LinkState {
        LinkState::Open
    }
}

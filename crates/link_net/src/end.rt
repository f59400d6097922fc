//! One end of a pair.

ghost use Rattle.std.specs.Prelude.{◌<◌, ◌^◌};

use crate::way::{Fate, Way, earlier};
use carrier::{Carrier, LinkState};
use mt_base::NoMemory;
use std::alloc::Global;

/// Datagrams that an end sends at one moment at most.
const BURST: usize = 1_000;

/// Pulls that an end makes at one moment at most.
const PULLS: usize = 10_000;

/// The bytes that an end writes, one after the other: 0 to 250, again and again.
#[derive(Clone, Copy)]
struct Pattern {
    next: u8,
}

impl Pattern {
    fn step(&mut self) -> u8 {
        let byte = self.next;
        self.next = if byte < 250 { byte + 1 } else { 0 };
        byte
    }
}

/// What happened at an end: how many bytes came, and whether they are those that the other end
/// wrote; how many datagrams were sent; how many bytes are not settled; and what the link is.
#[derive(Clone, Copy, Debug, PartialEq, Eq)]
pub struct Outcome {
    pub came: usize,
    pub is_intact: bool,
    pub sent: usize,
    pub queued: usize,
    pub state: LinkState,
}

/// One end, and the way of what it sends.
#[derive(Drop)]
pub struct End<'p, C: Drop> {
    pub link: C,
    way: Way<'p>,
    writes: Pattern,
    reads: Pattern,
    came: usize,
    is_intact: bool,
}

impl<'p, C: Carrier + Drop> End<'p, C> {
    /// An end at which nothing happened, and the plan of what happens to its datagrams.
    pub fn new(alloc: Global, link: C, plan: &'p [Fate]) -> End<'p, C> {
        End {
            link,
            way: Way::new(alloc, plan),
            writes: Pattern { next: 0 },
            reads: Pattern { next: 0 },
            came: 0,
            is_intact: true,
        }
    }

    /// Gives the next so many thousand bytes; whether the link takes all of them.
    pub fn write(&mut self, thousands: usize) -> bool {
        let mut bytes = [0; 1000];
        for _thousand in 0..thousands {
            for byte in bytes.iter_mut() {
                *byte = self.writes.step();
            }
            if self.link.give(&bytes).is_err() {
                return false;
            }
        }
        true
    }

    /// Pulls all bytes that are there, and compares them with those that the other end writes.
    pub fn read(&mut self) {
        let mut out = [0; 1000];
        for _pull in 0..PULLS {
            let count = self.link.pull(&mut out);
            for byte in &out[..count] {
                self.is_intact &= *byte == self.reads.step();
            }
            self.came = self.came.saturating_add(count);
            if count == 0 {
                return;
            }
        }
    }

    /// Sends all that is due at this moment.
    pub fn send(&mut self, now: u64) -> Result<(), NoMemory>
        requires { now < 2 ^ 62 }
    {
        let mut out = [0; 1232];
        for _datagram in 0..BURST {
            match self.link.poll(now, &mut out) {
                Some(length) => self.way.carry(&out[..length], now)?,
                None => return Ok(()),
            }
        }
        Ok(())
    }

    /// Takes what the other end sent and has arrived at this moment.
    pub fn receive<D: Carrier + Drop>(&mut self, other: &mut End<'p, D>, now: u64)
        requires { now < 2 ^ 62 }
    {
        for _datagram in 0..BURST {
            match other.way.arrived(now) {
                Some(datagram) => {
                    let _took = self.link.input(now, &datagram);
                }
                None => return,
            }
        }
    }

    /// The moment at which this end sends something, or a datagram that it sent arrives.
    pub fn next_moment(&self) -> Option<u64> {
        earlier(self.link.next_due(), self.way.next_arrival())
    }

    /// What happened at this end.
    pub fn outcome(&self) -> Outcome {
        Outcome {
            came: self.came,
            is_intact: self.is_intact,
            sent: self.way.sent(),
            queued: self.link.queued(),
            state: self.link.state(),
        }
    }
}

//! Two ends, and the clock between them.

ghost use Rattle.std.specs.Prelude.{◌<◌, ◌^◌};

use crate::end::End;
use crate::way::{Fate, earlier};
use carrier::Carrier;
use mt_base::NoMemory;
use std::alloc::Global;

/// How many moments a run lasts at most.
const MOMENTS: usize = 20_000;

/// The last moment of any run.
const LAST: u64 = 1_000_000_000;

/// Two ends with a clock of their own.
#[derive(Drop)]
pub struct Pair<'p, C: Drop> {
    pub near: End<'p, C>,
    pub far: End<'p, C>,
    clock: u64,
}

impl<'p, C: Carrier + Drop> Pair<'p, C> {
    /// Two ends, with plans of what happens to the datagrams of the near one and of the far one.
    pub fn new(alloc: Global, near: C, far: C, there: &'p [Fate], back: &'p [Fate]) -> Pair<'p, C> {
        Pair {
            near: End::new(alloc, near, there),
            far: End::new(alloc, far, back),
            clock: 0,
        }
    }

    /// The moment.
    pub fn now(&self) -> u64
        ensures { result < 2 ^ 62 }
    {
        self.clock.min(LAST)
    }

    /// Lets time go on until no datagram is under way and nothing is due; whether that came.
    pub fn run(&mut self) -> Result<bool, NoMemory> {
        for _moment in 0..MOMENTS {
            self.exchange()?;
            match earlier(self.near.next_moment(), self.far.next_moment()) {
                Some(next) => self.clock = next,
                None => return Ok(true),
            }
        }
        Ok(false)
    }

    /// Does what there is to do at this moment.
    pub fn exchange(&mut self) -> Result<(), NoMemory> {
        let now = self.now();
        self.far.receive(&mut self.near, now);
        self.near.receive(&mut self.far, now);
        self.near.read();
        self.far.read();
        self.near.send(now)?;
        self.far.send(now)
    }
}

//! What happens to two links, and how it ended.

use crate::end::Outcome;
use crate::pair::Pair;
use crate::way::Fate;
use carrier::Carrier;
use mt_base::NoMemory;
use std::alloc::Global;

/// The plan by which each third datagram is lost.
pub const THIRD_LOST: [Fate; 3] = [Fate::Pass, Fate::Pass, Fate::Lose];

/// The plan by which no datagram arrives.
pub const ALL_LOST: [Fate; 1] = [Fate::Lose];

/// The plan by which each datagram arrives twice.
pub const ALL_TWICE: [Fate; 1] = [Fate::Twice];

/// The plan by which some datagrams arrive behind those that were sent after them.
pub const MIXED_UP: [Fate; 5] = [Fate::Later, Fate::Pass, Fate::Later, Fate::Pass, Fate::Pass];

/// The plan of all of this at once.
pub const UNRULY: [Fate; 7] = [
    Fate::Lose,
    Fate::Pass,
    Fate::Twice,
    Fate::Later,
    Fate::Lose,
    Fate::Pass,
    Fate::Later,
];

/// What happens to two links: the plans for the datagrams of the near one and of the far one, and how
/// many thousand bytes are written at each.
#[derive(Clone, Copy)]
pub struct Story<'p> {
    pub there: &'p [Fate],
    pub back: &'p [Fate],
    pub near: usize,
    pub far: usize,
}

impl Story<'_> {
    /// Lets it happen to these two links until nothing is under way and nothing is due, and tells how
    /// it ended.
    pub fn run<C: Carrier + Drop>(
        &self,
        alloc: Global,
        near: C,
        far: C,
    ) -> Result<Ending, NoMemory> {
        let mut pair = Pair::new(alloc, near, far, self.there, self.back);
        pair.near.write(self.near);
        pair.far.write(self.far);
        let is_over = pair.run()?;
        Ok(Ending {
            near: pair.near.outcome(),
            far: pair.far.outcome(),
            moment: pair.now(),
            is_over,
        })
    }
}

/// Stories in which all bytes arrive over any reliable link.
pub fn stories() -> [Story<'static>; 7] {
    [
        Story {
            there: &[],
            back: &[],
            near: 130,
            far: 70,
        },
        Story {
            there: &THIRD_LOST,
            back: &[],
            near: 130,
            far: 0,
        },
        Story {
            there: &[],
            back: &THIRD_LOST,
            near: 200,
            far: 0,
        },
        Story {
            there: &ALL_TWICE,
            back: &ALL_TWICE,
            near: 130,
            far: 0,
        },
        Story {
            there: &MIXED_UP,
            back: &MIXED_UP,
            near: 130,
            far: 0,
        },
        Story {
            there: &UNRULY,
            back: &THIRD_LOST,
            near: 130,
            far: 70,
        },
        Story {
            there: &UNRULY,
            back: &UNRULY,
            near: 70,
            far: 70,
        },
    ]
}

/// How a story ended: what happened at each end, when it was over, and whether nothing was under way
/// or due any more.
#[derive(Clone, Copy, Debug, PartialEq, Eq)]
pub struct Ending {
    pub near: Outcome,
    pub far: Outcome,
    pub moment: u64,
    pub is_over: bool,
}

impl Ending {
    /// Whether all that was written in the story came whole, and is settled where it was written.
    pub fn is_whole(&self, story: &Story) -> bool {
        self.is_over
            && crossed(&self.near, &self.far, story.near)
            && crossed(&self.far, &self.near, story.far)
    }
}

/// Whether so many thousand bytes came from one end at the other, and are settled.
fn crossed(from: &Outcome, to: &Outcome, thousands: usize) -> bool {
    to.came / 1000 == thousands && to.came % 1000 == 0 && to.is_intact && from.queued == 0
}

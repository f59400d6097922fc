//! The network between two ends: its clock, and the datagrams that it loses.

ghost use Rattle.std.specs.Prelude.{◌≡◌, ◌<◌, ◌^◌, []};
ghost use Rattle.link_bench.specs.Passing.{Passes};

use carrier::Carrier;
use link_net::earlier;

/// No moment of the clock is this one, or a later one.
const END: u64 = 4_611_686_018_427_387_904;

/// A clock, and how many datagrams go over until one is lost.
#[derive(Drop)]
pub(crate) struct Network {
    now: u64,
    lost: u64,
    left: u64,
    ghost within: { now < 2 ^ 62 },
}

impl Network {
    /// A network that loses each datagram whose number can be divided by `lost`, none where it is 0.
    pub(crate) fn new(lost: u64) -> Network {
        Network {
            now: 0,
            lost,
            left: lost,
        }
    }

    /// Counts a datagram, and says whether it is lost.
    fn loses(&mut self) -> bool {
        if self.lost == 0 {
            return false;
        }
        if self.left > 1 {
            self.left -= 1;
            return false;
        }
        self.left = self.lost;
        true
    }

    /// Takes the datagram that is due at one end to the other, or loses it, and says whether there
    /// was one.
    pub(crate) fn carry<C: Carrier>(&mut self, from: &mut C, to: &mut C) -> bool
        ensures from { Passes (C.stands from.old) (C.stands from.new) [] [] }
        ensures to { Passes (C.stands to.old) (C.stands to.new) [] [] }
    {
        let mut datagram = [0; 1232];
        let Some(length) = from.poll(self.now, &mut datagram) else {
            return false;
        };
        if !self.loses() {
            let _took = to.input(self.now, &datagram[..length]);
        }
        true
    }

    /// Waits until one of two ends has a datagram to send, and says whether there is such a moment.
    pub(crate) fn wait<C: Carrier>(&mut self, one: &C, other: &C) -> bool {
        match earlier(one.next_due(), other.next_due()) {
            Some(moment) if moment < END => {
                self.now = moment;
                true
            }
            _ => false,
        }
    }
}

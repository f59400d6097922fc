//! The timer of a link, and of its opening: its wait doubles at each expiry.

ghost use Rattle.std.specs.Prelude.{◌≡◌, ◌<◌, ◌≤◌, ◌^◌, nat_lt};
ghost use Rattle.carrier.specs.Layout.{Layout};
ghost use Rattle.carrier.specs.Sending.{expiry, is_over};
ghost use Rattle.carrier.specs.ClockView.{expiry_of, timer_of};

use crate::limits::EXPIRIES;

/// The moment from which on a timer runs, in milliseconds, and its expiries in a row.
#[derive(Clone, Copy, Debug, PartialEq, Eq)]
pub struct Clock {
    pub start: u64,
    pub expiries: u32,
}

impl Clock {
    /// Whether more expiries came in a row than a link survives.
    pub fn is_over(self) -> bool
        ensures value { result ≡ nat_lt EXPIRIES self.expiries }
        ensures link { (layout : Layout) → layout.bounds.expiries ≡ EXPIRIES → result ≡ is_over layout (timer_of self) }
    {
        EXPIRIES < self.expiries
    }

    /// The moment of the next expiry, where the shortest wait is so many milliseconds: each expiry in
    /// a row doubles the wait, four times at most.
    pub fn expiry(self, wait: u64) -> u64
        requires start { self.start < 2 ^ 62 }
        requires wait { wait ≤ 500 }
        ensures moment { result ≡ expiry_of wait (timer_of self) }
        ensures link { (layout : Layout) → layout.wait ≡ wait → result ≡ expiry layout (timer_of self) }
        ensures bound { result < 2 ^ 63 }
    {
        self.start + (wait << self.expiries.min(4))
    }
}

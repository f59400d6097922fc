//! The timer of a SYN that is not answered.

ghost use Rattle.std.specs.Prelude.{◌≡◌, ◌<◌, ◌^◌, ◌≤◌, nat_lt};
ghost use Rattle.udp_open.specs.Handshake.{expiry};

/// The wait before the first expiry, in milliseconds.
const WAIT: u64 = 500;

/// Expiries in a row that an opening survives.
const EXPIRIES: u32 = 16;

/// A timer that runs: the moment at which it was started last, and the expiries in a row.
#[derive(Clone, Copy, Debug, PartialEq, Eq)]
pub struct Timer {
    pub start: u64,
    pub expiries: u32,
}

impl Timer {
    /// Whether more expiries came in a row than an opening survives.
    pub fn is_over(self) -> bool
        ensures { result ≡ nat_lt 16 self.expiries }
    {
        EXPIRIES < self.expiries
    }

    /// The moment of the next expiry. Each expiry in a row doubles its wait, four times at most.
    pub fn expiry(self) -> u64
        requires { self.start < 2 ^ 62 }
        ensures moment { result ≡ expiry self }
        ensures bound { result < 2 ^ 63 }
    {
        self.start + (WAIT << self.expiries.min(4))
    }
}

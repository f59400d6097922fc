//! The number that a datagram shows.

ghost use Rattle.std.specs.Prelude.{◌≡◌};
ghost use Rattle.udp1_packets.specs.Views.{body_of as first_body};
ghost use Rattle.udp2_packets.specs.Layout.{number_in};
ghost use Rattle.udp2_packets.specs.Views.{body_of as second_body};
ghost use Rattle.capture_check.specs.Tellings.{start_in};
ghost use Rattle.capture_check.specs.TellingsSoFar.{ShowsJust};

use crate::layout::{GREATEST, Layout};
use udp1_packets::{Body1, read1};
use udp2_packets::{Body2, read2};

impl Layout {
    /// The number that a datagram shows.
    pub(crate) fn shown(self, datagram: &[u8]) -> Option<u64>
        ensures { ShowsJust self datagram.now result }
    {
        match self {
            Layout::First => first_shown(datagram),
            Layout::Second => second_shown(datagram),
        }
    }
}

/// The number that a datagram of the first layout shows.
fn first_shown(datagram: &[u8]) -> Option<u64>
    ensures { ShowsJust Layout.First datagram.now result }
{
    match read1(datagram) {
        Ok(packet) => start(&packet.body),
        Err(_) => None,
    }
}

/// The number of the part in a packet of the first layout.
fn start(body: &Body1<'_>) -> Option<u64>
    ensures { result ≡ start_in (first_body body.now) }
{
    match *body {
        Body1::Syn(_) => None,
        Body1::Data { start, .. } => Some(u64::from(start)),
        Body1::Fec { start, .. } => Some(u64::from(start)),
        Body1::Bare { .. } => None,
    }
}

/// The number that a datagram of the second layout shows.
fn second_shown(datagram: &[u8]) -> Option<u64>
    ensures { ShowsJust Layout.Second datagram.now result }
{
    if datagram.len() > GREATEST {
        return None;
    }
    let mut scratch = [0; GREATEST];
    match read2(datagram, &mut scratch) {
        Ok(packet) => transmission(&packet.body),
        Err(_) => None,
    }
}

/// The number of the transmission in a packet of the second layout.
fn transmission(body: &Body2<'_>) -> Option<u64>
    ensures { result ≡ number_in (second_body body.now) }
{
    match *body {
        Body2::Nothing => None,
        Body2::Data { number, .. } => Some(u64::from(number)),
        Body2::Dummy { number, .. } => number.map(u64::from),
    }
}

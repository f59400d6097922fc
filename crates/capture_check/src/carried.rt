//! The data that a datagram carries.

ghost use Rattle.std.specs.Prelude.{◌≡◌, option_copied};
ghost use Rattle.udp1_packets.specs.Views.{body_of as first_body};
ghost use Rattle.udp2_packets.specs.Views.{body_of as second_body};
ghost use Rattle.capture_check.specs.Requests.{data_in, second_data_in};
ghost use Rattle.capture_check.specs.RequestsSoFar.{CarriesJust};

use crate::layout::{GREATEST, Layout};
use udp1_packets::{Body1, read1};
use udp2_packets::{Body2, read2};

impl Layout {
    /// The data that a datagram carries. Those of the second layout are borrowed from `scratch`.
    pub(crate) fn carried<'a>(
        self,
        datagram: &'a [u8],
        scratch: &'a mut [u8; GREATEST],
    ) -> Option<&'a [u8]>
        ensures { CarriesJust self datagram.now (option_copied result) }
    {
        match self {
            Layout::First => first_carried(datagram),
            Layout::Second => second_carried(datagram, scratch),
        }
    }
}

/// The data that a datagram of the first layout carries.
fn first_carried(datagram: &[u8]) -> Option<&[u8]>
    ensures { CarriesJust Layout.First datagram.now (option_copied result) }
{
    match read1(datagram) {
        Ok(packet) => first_data(&packet.body),
        Err(_) => None,
    }
}

/// The data in a packet of the first layout.
fn first_data<'a>(body: &Body1<'a>) -> Option<&'a [u8]>
    ensures { option_copied result ≡ data_in (first_body body.now) }
{
    match *body {
        Body1::Syn(_) => None,
        Body1::Data { bytes, .. } => Some(bytes),
        Body1::Fec { .. } => None,
        Body1::Bare { .. } => None,
    }
}

/// The data that a datagram of the second layout carries.
fn second_carried<'a>(datagram: &[u8], scratch: &'a mut [u8; GREATEST]) -> Option<&'a [u8]>
    ensures { CarriesJust Layout.Second datagram.now (option_copied result) }
{
    if datagram.len() > GREATEST {
        return None;
    }
    match read2(datagram, scratch) {
        Ok(packet) => second_data(&packet.body),
        Err(_) => None,
    }
}

/// The data in a packet of the second layout.
fn second_data<'a>(body: &Body2<'a>) -> Option<&'a [u8]>
    ensures { option_copied result ≡ second_data_in (second_body body.now) }
{
    match *body {
        Body2::Nothing => None,
        Body2::Data { bytes, .. } => Some(bytes),
        Body2::Dummy { .. } => None,
    }
}

//! What a datagram of an open link shows (MS-RDPEUDP section 2.2).

ghost use Rattle.std.specs.Prelude.{◌≡◌, ◌<◌, ◌≤◌, ◌^◌, length, Ok, IfOk, IfSome};
ghost use Rattle.udp1_packets.specs.Layout.{IsPacket};
ghost use Rattle.udp1_packets.specs.Views.{packet_of};
ghost use Rattle.udp1_core.specs.FirstLayout.{packet_shows, shows};
ghost use Rattle.udp1_core.specs.ContentsView.{BodyFits};
ghost use Rattle.lossy_mode.specs.LossyView.{IsFit, Reads};

use carrier::Reason;
use link_machine::Load;
use mt_windows::DATAGRAM;
use udp1_packets::{Body1, Packet1, read1};

/// What a datagram shows that a lossy link looks at: the window of its sender, the floor, and what it
/// carries.
#[derive(Clone, Copy)]
pub struct Shown<'a> {
    pub window: u64,
    pub floor: Option<u64>,
    pub load: Load<'a>,
}

/// What a datagram shows, or why it is refused.
pub fn read_shown(datagram: &[u8]) -> Result<Shown<'_>, Reason>
    requires { length datagram.now ≤ DATAGRAM }
    ensures shows { Reads result (shows datagram.now) }
    ensures fit { IfOk result IsFit }
{
    match read1(datagram) {
        Ok(packet) => shown_by(&packet),
        Err(refusal) => Err(Reason::First(refusal)),
    }
}

/// What the packet shows.
fn shown_by<'a>(packet: &Packet1<'a>) -> Result<Shown<'a>, Reason>
    ensures shows { Reads result (packet_shows (Ok (packet_of packet.now))) }
    ensures fit { IsPacket (packet_of packet.now) → BodyFits (packet_of packet.now).body →
        IfOk result IsFit }
{
    let window = u64::from(packet.window);
    match packet.body {
        Body1::Syn(_) => Err(Reason::NotOurs),
        Body1::Data {
            aoa,
            coded,
            start,
            bytes,
            ..
        } => Ok(Shown {
            window,
            floor: floor_of(aoa),
            load: Load::Part {
                part: u64::from(start),
                transmission: u64::from(coded),
                bytes,
            },
        }),
        Body1::Fec { aoa, .. } => Ok(Shown {
            window,
            floor: floor_of(aoa),
            load: Load::Correction,
        }),
        Body1::Bare { aoa, .. } => Ok(Shown {
            window,
            floor: floor_of(aoa),
            load: Load::Empty,
        }),
    }
}

/// A floor.
fn floor_of(aoa: Option<u32>) -> Option<u64>
    ensures same { result ≡ aoa }
    ensures low { IfSome result (λ low. low < 2 ^ 32) }
{
    aoa.map(u64::from)
}

//! What a datagram of an open link shows (MS-RDPEUDP section 2.2).

ghost use Rattle.std.specs.Prelude.{◌≡◌, ◌<◌, ◌≤◌, ◌^◌, All, length, option_copied, Ok, IfOk, IfSome};
ghost use Rattle.udp1_packets.specs.Layout.{IsPacket};
ghost use Rattle.udp1_packets.specs.Views.{packet_of};
ghost use Rattle.udp1_core.specs.FirstLayout.{first_wire, packet_shows, shows, telling_in as vector_tells};
ghost use Rattle.udp1_core.specs.ContentsView.{BodyFits, CanTell};
ghost use Rattle.ack_vector.specs.Elements.{IsGood, flags_of};
ghost use Rattle.link_machine.specs.Wire.{telling_in};
ghost use Rattle.link_machine.specs.ContentsView.{reading_of, IsFit};

use carrier::Reason;
use link_machine::{Contents, Load, Told};
use mt_windows::DATAGRAM;
use udp1_packets::{Body1, Packet1, read1};

/// What a datagram shows, or why it is refused.
pub fn read_contents(datagram: &[u8]) -> Result<Contents<'_>, Reason>
    requires { length datagram.now ≤ DATAGRAM }
    ensures shows { shows datagram.now ≡ reading_of first_wire.flags result }
    ensures fit { IfOk result (λ c. IsFit CanTell (2 ^ 32) c) }
{
    match read1(datagram) {
        Ok(packet) => contents_of(&packet),
        Err(refusal) => Err(Reason::First(refusal)),
    }
}

/// What the packet shows.
fn contents_of<'a>(packet: &Packet1<'a>) -> Result<Contents<'a>, Reason>
    ensures shows { packet_shows (Ok (packet_of packet.now)) ≡ reading_of first_wire.flags result }
    ensures fit { IsPacket (packet_of packet.now) → BodyFits (packet_of packet.now).body →
        IfOk result (λ c. IsFit CanTell (2 ^ 32) c) }
{
    let window = u64::from(packet.window);
    match packet.body {
        Body1::Syn(_) => Err(Reason::NotOurs),
        Body1::Data {
            vector,
            aoa,
            coded,
            start,
            bytes,
        } => Ok(Contents {
            window,
            told: told_by(packet.ack, vector),
            floor: floor_of(aoa),
            load: Load::Part {
                part: u64::from(start),
                transmission: u64::from(coded),
                bytes,
            },
        }),
        Body1::Fec { vector, aoa, .. } => Ok(Contents {
            window,
            told: told_by(packet.ack, vector),
            floor: floor_of(aoa),
            load: Load::Correction,
        }),
        Body1::Bare { vector, aoa, .. } => Ok(Contents {
            window,
            told: told_by(packet.ack, vector),
            floor: floor_of(aoa),
            load: Load::Empty,
        }),
    }
}

/// What a vector tells up to a number.
fn told_by(ack: u32, vector: Option<&[u8]>) -> Told<'_>
    ensures tells { telling_in flags_of result ≡ vector_tells ack (option_copied vector.entry) }
    ensures can { IfSome (option_copied vector.entry) (λ elements. All IsGood elements) →
        CanTell result }
{
    match vector {
        Some(bytes) => Told::Upto {
            named: u64::from(ack),
            bytes,
        },
        None => Told::Nothing,
    }
}

/// A floor.
fn floor_of(aoa: Option<u32>) -> Option<u64>
    ensures same { result ≡ aoa }
    ensures low { IfSome result (λ low. low < 2 ^ 32) }
{
    aoa.map(u64::from)
}

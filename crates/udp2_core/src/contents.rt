//! What a datagram of an open link shows (MS-RDPEUDP2 section 2.2).

ghost use Rattle.std.specs.Prelude.{◌≡◌, ◌≤◌, ◌^◌, length, Ok, IfOk, IfSome};
ghost use Rattle.coded_vector.specs.CodedBytes.{flags_of};
ghost use Rattle.carrier.specs.Layout.Reading.{Shows};
ghost use Rattle.udp2_packets.specs.Layout.{IsAck, IsPacket, IsVector, ack_in, vector_in};
ghost use Rattle.udp2_packets.specs.Views.{body_of, packet_of, telling_of};
ghost use Rattle.link_machine.specs.Wire.{telling_in};
ghost use Rattle.link_machine.specs.ContentsView.{reading_of, shown_by, IsFit};
ghost use Rattle.link_machine.specs.ReceiverView.{load_of, Fits};
ghost use Rattle.udp2_core.specs.SecondLayout.{load_in, packet_shows, second_wire, shows, telling_in as telling_shown};
ghost use Rattle.udp2_core.specs.ContentsView.{BodyFits, CanTell};

use carrier::Reason;
use link_machine::{Contents, Load, Told};
use mt_windows::DATAGRAM;
use udp2_packets::{Body2, Packet2, Telling2, read2};

/// What a datagram shows, or why it is refused.
pub fn read_contents<'a>(
    datagram: &[u8],
    scratch: &'a mut [u8; 1232],
) -> Result<Contents<'a>, Reason>
    requires { length datagram.now ≤ DATAGRAM }
    ensures shows { shows datagram.now ≡ reading_of second_wire.flags result }
    ensures fit { IfOk result (λ c. IsFit CanTell (2 ^ 16) c) }
{
    match read2(datagram, scratch) {
        Ok(packet) => Ok(contents_of(&packet)),
        Err(refusal) => Err(Reason::Second(refusal)),
    }
}

/// What the packet shows.
fn contents_of<'a>(packet: &Packet2<'a>) -> Contents<'a>
    requires { IsPacket (packet_of packet.now) }
    ensures shows { packet_shows (Ok (packet_of packet.now)) ≡ Shows (shown_by second_wire.flags result) }
    ensures fit { BodyFits (packet_of packet.now).body → IsFit CanTell (2 ^ 16) result }
{
    Contents {
        window: 2_u64.pow(u32::from(packet.log_window)),
        told: told_by(&packet.telling),
        floor: packet.aoa.map(u64::from),
        load: load_of(&packet.body),
    }
}

/// What a packet tells: so many numbers up to one, or coded bytes from one on.
fn told_by<'a>(telling: &Telling2<'a>) -> Told<'a>
    requires ack { IfSome (ack_in (telling_of telling.now)) IsAck }
    requires vector { IfSome (vector_in (telling_of telling.now)) IsVector }
    ensures tells { telling_in flags_of result ≡ telling_shown (telling_of telling.now) }
    ensures can { CanTell result }
{
    match *telling {
        Telling2::Nothing => Told::Nothing,
        Telling2::Ack(ack) => Told::Last {
            named: u64::from(ack.number),
            count: ack.delays.len() as u64 + 1,
        },
        Telling2::Vector(vector) => Told::From {
            named: u64::from(vector.base),
            bytes: vector.coded,
        },
    }
}

/// What a packet with this body carries.
fn load_of<'a>(body: &Body2<'a>) -> Load<'a>
    ensures load { load_of result ≡ load_in (body_of body.now) }
    ensures fits { BodyFits (body_of body.now) → Fits (2 ^ 16) result }
{
    match *body {
        Body2::Nothing | Body2::Dummy { number: None, .. } => Load::Empty,
        Body2::Data {
            number,
            part,
            bytes,
        } => Load::Part {
            part: u64::from(part),
            transmission: u64::from(number),
            bytes,
        },
        Body2::Dummy {
            number: Some(transmission),
            ..
        } => Load::Dummy {
            transmission: u64::from(transmission),
        },
    }
}

//! Writing packets.

ghost use Rattle.std.specs.Prelude.{◌≡◌, ◌+◌, ◌<◌, ◌≤◌, ◌++◌, [], ◌∷◌, length, drop, IfOk, IfErr, IfSome, OnOk, OnErr, Err, is_some};
ghost use Rattle.std.specs.Option.{option_map};
ghost use Rattle.mt_base.specs.Filling.{Fills, fills};
ghost use Rattle.mt_base.specs.Writing.{puts};
ghost use Rattle.mt_base.specs.Parts.{where_some};
ghost use Rattle.udp2_packets.specs.Layout.{ack_in, vector_in, number_in, part_in, rest_in, flag_if, flags, byte_field, number_field, ack_fields, stamp_fields, vector_fields, delay_fields, announced_fields, text, IsAck, IsStamp, IsVector, IsPacket, all_fields, plain_fields, written_fields, spelled};
ghost use Rattle.udp2_packets.specs.Views.{ack_of, stamp_of, vector_of, telling_of, delay_of, body_of, packet_of};

use crate::finish::finish2;
use crate::flags;
use crate::packet::{Ack2, Body2, DelayInfo, Packet2, Stamp2, Telling2, Vector2};
use mt_base::{NoRoom, Place, Spell, write};

fn put_byte<P: Place>(place: &mut P, byte: Option<u8>) -> Result<(), NoRoom>
    ensures same { P.lent place.new ≡ P.lent place.old }
    ensures filled { Fills (P.filling place.new) result
        (fills (where_some byte_field byte) (P.filling place.old)) }
{
    match byte {
        None => Ok(()),
        Some(byte) => place.put(&[byte]),
    }
}

fn put_number<P: Place>(place: &mut P, number: Option<u16>) -> Result<(), NoRoom>
    ensures same { P.lent place.new ≡ P.lent place.old }
    ensures filled { Fills (P.filling place.new) result
        (fills (where_some number_field number) (P.filling place.old)) }
{
    match number {
        None => Ok(()),
        Some(number) => place.put_u16_le(number),
    }
}

fn put_delay<P: Place>(place: &mut P, delay: Option<DelayInfo>) -> Result<(), NoRoom>
    ensures same { P.lent place.new ≡ P.lent place.old }
    ensures filled { Fills (P.filling place.new) result
        (fills (where_some delay_fields (option_map delay_of delay)) (P.filling place.old)) }
{
    match delay {
        None => Ok(()),
        Some(delay) => {
            place.put(&[delay.most])?;
            place.put_u16_le(delay.timeout)
        }
    }
}

fn put_ack<P: Place>(place: &mut P, ack: &Ack2<'_>) -> Result<(), NoRoom>
    requires { IsAck (ack_of ack.now) }
    ensures same { P.lent place.new ≡ P.lent place.old }
    ensures filled { Fills (P.filling place.new) result
        (fills (ack_fields (ack_of ack.now)) (P.filling place.old)) }
{
    place.put_u16_le(ack.number)?;
    place.put_u24_le(ack.received_ts)?;
    place.put(&[ack.gap])?;
    place.put(&[ack.delays.len() as u8 + 16 * ack.scale])?;
    place.put(ack.delays)
}

fn put_stamp<P: Place>(place: &mut P, stamp: Option<Stamp2>) -> Result<(), NoRoom>
    requires { IfSome (option_map stamp_of stamp) IsStamp }
    ensures same { P.lent place.new ≡ P.lent place.old }
    ensures filled { Fills (P.filling place.new) result
        (fills (where_some stamp_fields (option_map stamp_of stamp)) (P.filling place.old)) }
{
    match stamp {
        None => Ok(()),
        Some(stamp) => {
            place.put_u24_le(stamp.time)?;
            place.put(&[stamp.gap])
        }
    }
}

#[tactic(auto, using(mt_base::proofs::Steps::by_parts))]
fn put_vector<P: Place>(place: &mut P, vector: &Vector2<'_>) -> Result<(), NoRoom>
    requires { IsVector (vector_of vector.now) }
    ensures same { P.lent place.new ≡ P.lent place.old }
    ensures filled { Fills (P.filling place.new) result
        (fills (vector_fields (vector_of vector.now)) (P.filling place.old)) }
{
    let highest = if vector.stamp.is_some() { 128 } else { 0 };
    place.put_u16_le(vector.base)?;
    place.put(&[vector.coded.len() as u8 + highest])?;
    put_stamp(place, vector.stamp)?;
    place.put(vector.coded)
}

fn put_told_ack<P: Place>(place: &mut P, telling: &Telling2<'_>) -> Result<(), NoRoom>
    requires { IfSome (ack_in (telling_of telling.now)) IsAck }
    ensures same { P.lent place.new ≡ P.lent place.old }
    ensures filled { Fills (P.filling place.new) result
        (fills (where_some ack_fields (ack_in (telling_of telling.now))) (P.filling place.old)) }
{
    match telling {
        Telling2::Ack(ack) => put_ack(place, ack),
        Telling2::Nothing | Telling2::Vector(_) => Ok(()),
    }
}

fn put_told_vector<P: Place>(place: &mut P, telling: &Telling2<'_>) -> Result<(), NoRoom>
    requires { IfSome (vector_in (telling_of telling.now)) IsVector }
    ensures same { P.lent place.new ≡ P.lent place.old }
    ensures filled { let fields = where_some vector_fields (vector_in (telling_of telling.now)) in
        Fills (P.filling place.new) result (fills fields (P.filling place.old)) }
{
    match telling {
        Telling2::Vector(vector) => put_vector(place, vector),
        Telling2::Nothing | Telling2::Ack(_) => Ok(()),
    }
}

fn number_in(body: &Body2<'_>) -> Option<u16>
    ensures { result ≡ number_in (body_of body.now) }
{
    match *body {
        Body2::Nothing => None,
        Body2::Data { number, .. } => Some(number),
        Body2::Dummy { number, .. } => number,
    }
}

fn part_in(body: &Body2<'_>) -> Option<u16>
    ensures { result ≡ part_in (body_of body.now) }
{
    match *body {
        Body2::Data { part, .. } => Some(part),
        Body2::Nothing | Body2::Dummy { .. } => None,
    }
}

/// Writes the fields behind the header.
#[tactic(auto, using(mt_base::proofs::Steps::by_parts))]
fn put_announced<P: Place>(place: &mut P, packet: &Packet2<'_>) -> Result<(), NoRoom>
    requires { IsPacket (packet_of packet.now) }
    ensures same { P.lent place.new ≡ P.lent place.old }
    ensures filled { Fills (P.filling place.new) result
        (fills (announced_fields (packet_of packet.now)) (P.filling place.old)) }
{
    put_told_ack(place, &packet.telling)?;
    put_byte(place, packet.overhead)?;
    put_delay(place, packet.delay)?;
    put_number(place, packet.aoa)?;
    put_number(place, number_in(&packet.body))?;
    put_told_vector(place, &packet.telling)?;
    put_number(place, part_in(&packet.body))
}

/// A flag, where something is so.
fn flag_if(set: bool, flag: u16) -> u16
    ensures { result ≡ flag_if set flag }
{
    if set { flag } else { 0 }
}

fn told_flag(telling: &Telling2<'_>) -> u16
    ensures { result ≡ flag_if (is_some (ack_in (telling_of telling.now))) 0x001
        + flag_if (is_some (vector_in (telling_of telling.now))) 0x008 }
{
    match telling {
        Telling2::Nothing => 0,
        Telling2::Ack(_) => flags::ACK,
        Telling2::Vector(_) => flags::ACKVEC,
    }
}

/// The flags of the fields that are there.
fn flags_of(packet: &Packet2<'_>) -> u16
    ensures { result ≡ flags (packet_of packet.now) }
{
    told_flag(&packet.telling)
        + flag_if(number_in(&packet.body).is_some(), flags::DATA)
        + flag_if(packet.aoa.is_some(), flags::AOA)
        + flag_if(packet.overhead.is_some(), flags::OVERHEADSIZE)
        + flag_if(packet.delay.is_some(), flags::DELAYACKINFO)
}

fn put_rest<P: Place>(place: &mut P, body: &Body2<'_>) -> Result<(), NoRoom>
    ensures same { P.lent place.new ≡ P.lent place.old }
    ensures filled { Fills (P.filling place.new) result
        (fills (rest_in (body_of body.now) ∷ []) (P.filling place.old)) }
{
    match *body {
        Body2::Nothing => place.put(&[]),
        Body2::Data { bytes, .. } => place.put(bytes),
        Body2::Dummy { rest, .. } => place.put(rest),
    }
}

/// Writes the header, the fields behind it, and the bytes that end the packet.
#[tactic(auto, using(mt_base::proofs::Steps::by_parts))]
fn put_packet<P: Place>(place: &mut P, packet: &Packet2<'_>) -> Result<(), NoRoom>
    requires { IsPacket (packet_of packet.now) }
    ensures same { P.lent place.new ≡ P.lent place.old }
    ensures filled { Fills (P.filling place.new) result
        (fills (all_fields (packet_of packet.now)) (P.filling place.old)) }
{
    let window = u16::from(packet.log_window);
    place.put_u16_le(flags_of(packet) + 0x1000 * window)?;
    put_announced(place, packet)?;
    put_rest(place, &packet.body)
}

/// The fields of a packet, behind a zero in the place of the prefix byte.
impl Spell for Packet2<'_> {
    ghost use Rattle.udp2_packets.specs.Layout.{IsPacket, plain_fields};
    ghost use Rattle.udp2_packets.specs.Views.{packet_of};

    ghost fields = { λ p. plain_fields (packet_of p) };

    ghost fits = { λ p. IsPacket (packet_of p) };

    #[tactic(auto, unfolding(crate::specs::Layout::plain_fields))]
    fn spell<P: Place>(&self, place: &mut P) -> Result<(), NoRoom> {
        place.put(&[0])?;
        put_packet(place, self)
    }
}

/// Writes a zero in the place of the prefix byte and the fields of a packet behind it at the front
/// of `out`, and gives where they end. [`finish2`] makes a datagram of them.
///
/// Where a field does not fit it is [`NoRoom`], with that field's place and length, and `out` stays
/// as it was.
#[tactic(auto, unfolding(crate::specs::Layout::plain_fields))]
pub fn write_fields2(packet: &Packet2<'_>, out: &mut [u8; 1232]) -> Result<usize, NoRoom>
    requires { IsPacket (packet_of packet.now) }
    ensures ok { let bytes = 0 ∷ text (packet_of packet.now) in
        IfOk result (λ end. (end ≡ length bytes) × (out.new ≡ bytes ++ drop end out.old)) }
    ensures no_room { IfErr result (λ e. puts (plain_fields (packet_of packet.now))
        (record { before = []; after = out.old }) ≡ Err e) }
    ensures unchanged { OnErr result (out.new ≡ out.old) }
{
    write(packet, out)
}

/// Writes the datagram of a packet at the front of `out`, and gives the number of its bytes
/// (MS-RDPEUDP2 section 2.2). The packet is one that the layout has. The reserved bit is 0, and
/// zeros fill a datagram up to eight bytes.
///
/// Where the datagram would have more than 1,232 bytes it is [`NoRoom`], with the place and length
/// of the first field that does not fit, and `out` stays as it was.
#[tactic(auto, using(crate::proofs::WriterLemmas::no_room, crate::proofs::WriterLemmas::too_long))]
pub fn write2(packet: &Packet2<'_>, out: &mut [u8; 1232]) -> Result<usize, NoRoom>
    requires { IsPacket (packet_of packet.now) }
    ensures ok { let datagram = spelled (packet_of packet.now) in
        IfOk result (λ n. (n ≡ length datagram) × (out.new ≡ datagram ++ drop n out.old)) }
    ensures no_room { IfErr result (λ e. puts (written_fields (packet_of packet.now))
        (record { before = []; after = out.old }) ≡ Err e) }
    ensures fits { OnOk result (length (spelled (packet_of packet.now)) ≤ 1232) }
    ensures too_long { OnErr result (1232 < length (spelled (packet_of packet.now))) }
    ensures unchanged { OnErr result (out.new ≡ out.old) }
{
    let end = write_fields2(packet, out)?;
    Ok(finish2(&packet.body, end, out))
}

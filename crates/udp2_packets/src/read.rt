//! Reading packets.

ghost use Rattle.std.specs.Prelude.{◌≡◌, ◌+◌, ◌≤◌, ◌<◌, length, IfOk, IfErr, IsOkAnd, OnOk};
ghost use Rattle.std.specs.Option.{option_map};
ghost use Rattle.mt_base.specs.CursorView.{left};
ghost use Rattle.udp2_packets.specs.Value.{Packet};
ghost use Rattle.udp2_packets.specs.Layout.{exchanged, has, Spells};
ghost use Rattle.udp2_packets.specs.Faults.{Refused};
ghost use Rattle.udp2_packets.specs.Reading.{Reads, Answers, byte_where, number_where, ack_at, ack_where, stamp_at, stamp_where, vector_at, vector_where, delay_at, delay_where, announced_at, telling, body_at, fields_at, checked, header_at, end_of, is_dummy, packet_at, reading};
ghost use Rattle.udp2_packets.specs.Views.{ack_of, stamp_of, vector_of, telling_of, delay_of, body_of, packet_of, announced_of};

use crate::exchange::exchange;
use crate::flags;
use crate::packet::{Ack2, Body2, DelayInfo, Packet2, Stamp2, Telling2, Vector2};
use carrier::Refusal2;
use mt_base::{Cursor, Short};

/// The least length of a datagram.
const LEAST: usize = 8;

#[tactic(auto, unfolding(crate::specs::Reading::byte_where))]
fn byte_where(from: &mut Cursor<'_>, there: bool) -> Result<Option<u8>, Refusal2>
    ensures { Reads (λ x. x) (left from.new) result (byte_where there (left from.old)) }
{
    if !there {
        return Ok(None);
    }
    Ok(Some(from.u8()?))
}

#[tactic(auto, unfolding(crate::specs::Reading::number_where))]
fn number_where(from: &mut Cursor<'_>, there: bool) -> Result<Option<u16>, Refusal2>
    ensures { Reads (λ x. x) (left from.new) result (number_where there (left from.old)) }
{
    if !there {
        return Ok(None);
    }
    Ok(Some(from.u16_le()?))
}

#[tactic(auto, unfolding(crate::specs::Reading::ack_at))]
fn ack<'a>(from: &mut Cursor<'a>) -> Result<Ack2<'a>, Refusal2>
    ensures { Reads ack_of (left from.new) result (ack_at (left from.old)) }
{
    let number = from.u16_le()?;
    let received_ts = from.u24_le()?;
    let gap = from.u8()?;
    let sizes = from.u8()?;
    let delays = from.take(usize::from(sizes % 16))?;
    Ok(Ack2 {
        number,
        received_ts,
        gap,
        scale: sizes / 16,
        delays,
    })
}

#[tactic(auto, unfolding(crate::specs::Reading::ack_where))]
fn ack_where<'a>(from: &mut Cursor<'a>, there: bool) -> Result<Option<Ack2<'a>>, Refusal2>
    ensures { Reads (option_map ack_of) (left from.new) result (ack_where there (left from.old)) }
{
    if !there {
        return Ok(None);
    }
    Ok(Some(ack(from)?))
}

#[tactic(auto, unfolding(crate::specs::Reading::stamp_at))]
fn stamp(from: &mut Cursor<'_>) -> Result<Stamp2, Refusal2>
    ensures { Reads stamp_of (left from.new) result (stamp_at (left from.old)) }
{
    let time = from.u24_le()?;
    let gap = from.u8()?;
    Ok(Stamp2 { time, gap })
}

#[tactic(auto, unfolding(crate::specs::Reading::stamp_where))]
fn stamp_where(from: &mut Cursor<'_>, there: bool) -> Result<Option<Stamp2>, Refusal2>
    ensures { Reads (option_map stamp_of) (left from.new) result
        (stamp_where there (left from.old)) }
{
    if !there {
        return Ok(None);
    }
    Ok(Some(stamp(from)?))
}

#[tactic(auto, unfolding(crate::specs::Reading::vector_at))]
fn vector<'a>(from: &mut Cursor<'a>) -> Result<Vector2<'a>, Refusal2>
    ensures { Reads vector_of (left from.new) result (vector_at (left from.old)) }
{
    let base = from.u16_le()?;
    let size = from.u8()?;
    let stamp = stamp_where(from, size >= 128)?;
    let coded = from.take(usize::from(size % 128))?;
    Ok(Vector2 { base, stamp, coded })
}

#[tactic(auto, unfolding(crate::specs::Reading::vector_where))]
fn vector_where<'a>(from: &mut Cursor<'a>, there: bool) -> Result<Option<Vector2<'a>>, Refusal2>
    ensures { Reads
        (option_map vector_of) (left from.new) result (vector_where there (left from.old)) }
{
    if !there {
        return Ok(None);
    }
    Ok(Some(vector(from)?))
}

#[tactic(auto, unfolding(crate::specs::Reading::delay_at))]
fn delay(from: &mut Cursor<'_>) -> Result<DelayInfo, Refusal2>
    ensures { Reads delay_of (left from.new) result (delay_at (left from.old)) }
{
    let most = from.u8()?;
    let timeout = from.u16_le()?;
    Ok(DelayInfo { most, timeout })
}

#[tactic(auto, unfolding(crate::specs::Reading::delay_where))]
fn delay_where(from: &mut Cursor<'_>, there: bool) -> Result<Option<DelayInfo>, Refusal2>
    ensures { Reads (option_map delay_of) (left from.new) result
        (delay_where there (left from.old)) }
{
    if !there {
        return Ok(None);
    }
    Ok(Some(delay(from)?))
}

/// What the flags announce, in the order of the fields.
#[derive(Clone, Copy)]
struct Parts<'a> {
    ack: Option<Ack2<'a>>,
    overhead: Option<u8>,
    delay: Option<DelayInfo>,
    aoa: Option<u16>,
    number: Option<u16>,
    vector: Option<Vector2<'a>>,
    part: Option<u16>,
}

#[tactic(auto, unfolding(crate::specs::Reading::announced_at))]
fn announced<'a>(from: &mut Cursor<'a>, dummy: bool, flags: u16) -> Result<Parts<'a>, Refusal2>
    ensures { Reads announced_of (left from.new) result
        (announced_at dummy flags (left from.old)) }
{
    let ack = ack_where(from, flags::has(flags, flags::ACK))?;
    let overhead = byte_where(from, flags::has(flags, flags::OVERHEADSIZE))?;
    let delay = delay_where(from, flags::has(flags, flags::DELAYACKINFO))?;
    let aoa = number_where(from, flags::has(flags, flags::AOA))?;
    let number = number_where(from, flags::has(flags, flags::DATA))?;
    let vector = vector_where(from, flags::has(flags, flags::ACKVEC))?;
    let part = number_where(from, flags::has(flags, flags::DATA) && !dummy)?;
    Ok(Parts {
        ack,
        overhead,
        delay,
        aoa,
        number,
        vector,
        part,
    })
}

fn telling<'a>(ack: Option<Ack2<'a>>, vector: Option<Vector2<'a>>) -> Telling2<'a>
    ensures { telling_of result ≡ telling (option_map ack_of ack.entry)
        (option_map vector_of vector.entry) }
{
    match (ack, vector) {
        (Some(ack), _) => Telling2::Ack(ack),
        (None, Some(vector)) => Telling2::Vector(vector),
        (None, None) => Telling2::Nothing,
    }
}

/// What stands behind the fields.
#[tactic(auto, unfolding(crate::specs::Reading::body_at))]
fn body<'a>(
    from: &Cursor<'a>,
    dummy: bool,
    number: Option<u16>,
    part: Option<u16>,
) -> Result<Body2<'a>, Refusal2>
    ensures { Answers body_of result (body_at dummy number part (left from.now)) }
{
    let rest = from.rest();
    if dummy {
        return Ok(Body2::Dummy { number, rest });
    }
    if let (Some(number), Some(part)) = (number, part) {
        return Ok(Body2::Data {
            number,
            part,
            bytes: rest,
        });
    }
    if !rest.is_empty() {
        return Err(Refusal2::Trailing { at: from.at() });
    }
    Ok(Body2::Nothing)
}

#[tactic(auto, unfolding(crate::specs::Reading::fields_at))]
fn fields<'a>(
    from: &mut Cursor<'a>,
    dummy: bool,
    flags: u16,
    log_window: u8,
) -> Result<Packet2<'a>, Refusal2>
    ensures { Answers packet_of result (fields_at dummy flags log_window (left from.old)) }
{
    let fields = announced(from, dummy, flags)?;
    let body = body(from, dummy, fields.number, fields.part)?;
    Ok(Packet2 {
        log_window,
        telling: telling(fields.ack, fields.vector),
        overhead: fields.overhead,
        delay: fields.delay,
        aoa: fields.aoa,
        body,
    })
}

/// The flags, where they are known and announce at most one telling.
#[tactic(auto, unfolding(crate::specs::Reading::checked))]
fn checked(flags: u16) -> Result<u16, Refusal2>
    ensures { Answers (λ x. x) result (checked flags) }
{
    if flags::has(flags, flags::UNKNOWN) {
        return Err(Refusal2::UnknownFlag { at: 1 });
    }
    if flags::has(flags, flags::ACK) && flags::has(flags, flags::ACKVEC) {
        return Err(Refusal2::AckAndVector { at: 1 });
    }
    Ok(flags)
}

#[tactic(auto, unfolding(crate::specs::Reading::header_at))]
fn header<'a>(from: &mut Cursor<'a>, dummy: bool) -> Result<Packet2<'a>, Refusal2>
    ensures { Answers packet_of result (header_at dummy (left from.old)) }
{
    let word = from.u16_le()?;
    let flags = checked(word % 0x1000)?;
    fields(from, dummy, flags, (word / 0x1000) as u8)
}

/// Where the packet ends in a datagram of this length, by the prefix byte's short length.
#[tactic(auto, unfolding(crate::specs::Reading::end_of))]
fn end_of(prefix: u8, length: usize) -> Result<usize, Refusal2>
    requires { 8 ≤ length }
    ensures exact { Answers (λ x. x) result (end_of prefix length) }
    ensures within { IfOk result (λ end. end ≤ length) }
{
    let short = prefix / 32;
    if short < 2 || short < 7 && length > LEAST {
        return Err(Refusal2::ShortLength { at: 0 });
    }
    if short < 7 {
        return Ok(1 + usize::from(short));
    }
    Ok(length)
}

/// Whether the packet is a dummy, by the prefix byte's packet type.
#[tactic(auto, unfolding(crate::specs::Reading::is_dummy))]
fn is_dummy(prefix: u8) -> Result<bool, Refusal2>
    ensures { Answers (λ x. x) result (is_dummy prefix) }
{
    match prefix / 2 % 16 {
        0 => Ok(false),
        8 => Ok(true),
        _ => Err(Refusal2::BadType { at: 0 }),
    }
}

/// The packet, where the two bytes stand in their own places.
#[tactic(auto, unfolding(crate::specs::Reading::packet_at))]
fn packet(bytes: &[u8]) -> Result<Packet2<'_>, Refusal2>
    requires { 8 ≤ length bytes.now }
    ensures { Answers packet_of result (packet_at bytes.now) }
{
    let prefix = bytes[0];
    let end = end_of(prefix, bytes.len())?;
    let dummy = is_dummy(prefix)?;
    let mut from = Cursor::new(&bytes[..end]);
    from.u8()?;
    header(&mut from, dummy)
}

/// The datagram in `scratch`, with the two bytes back in their own places.
fn unexchanged<'a>(datagram: &[u8], scratch: &'a mut [u8; 1232]) -> &'a [u8]
    requires long { 8 ≤ length datagram.now }
    requires fits { length datagram.now ≤ 1232 }
    ensures { result.now ≡ exchanged datagram.now }
{
    let packet = &mut scratch[..datagram.len()];
    packet.copy_from_slice(datagram);
    exchange(packet);
    packet
}

#[tactic(auto, unfolding(crate::specs::Reading::reading))]
fn answer<'a>(datagram: &[u8], scratch: &'a mut [u8; 1232]) -> Result<Packet2<'a>, Refusal2>
    requires { length datagram.now ≤ 1232 }
    ensures { Answers packet_of result (reading datagram.now) }
{
    if datagram.len() < LEAST {
        return Err(Refusal2::Short(Short { at: 0, need: LEAST }));
    }
    packet(unexchanged(datagram, scratch))
}

/// Reads the packet of a datagram (MS-RDPEUDP2 section 2.2), which has at most 1,232 bytes.
///
/// The datagram is copied into `scratch`, where the bytes at 0 and 7 get their own places, and the
/// packet borrows its parts from there. Places in a refusal count in `scratch`: the prefix byte is
/// at 0. The checks run in this order: [`Refusal2::Short`] where there are fewer than 8 bytes,
/// `ShortLength`, `BadType`, `UnknownFlag`, `AckAndVector`, the fields, `Trailing`.
pub fn read2<'a>(datagram: &[u8], scratch: &'a mut [u8; 1232]) -> Result<Packet2<'a>, Refusal2>
    requires { length datagram.now ≤ 1232 }
    // The datagram spells the packet that is read.
    ensures found { IfOk result (λ p. Spells datagram.now (packet_of p)) }
    // Where the datagram spells a packet, it is read.
    ensures only { (p : Packet) → Spells datagram.now p
        → IsOkAnd result (λ answer. packet_of answer ≡ p) }
    // A refusal is the first fault.
    ensures refused { IfErr result (λ refusal. Refused datagram.now refusal) }
    // The same as a function of the bytes.
    ensures exact { Answers packet_of result (reading datagram.now) }
{
    answer(datagram, scratch)
}

//! Reading packets.

ghost use Rattle.std.specs.Prelude.{◌≡◌, ◌<◌, ◌≤◌, length, not, IfSome, IfOk, IfErr, IsOkAnd};
ghost use Rattle.std.specs.List.{position_from};
ghost use Rattle.std.specs.Option.{option_copied};
ghost use Rattle.mt_base.specs.CursorView.{left};
ghost use Rattle.udp1_packets.specs.Faults.{Refused};
ghost use Rattle.udp1_packets.specs.Layout.{Spells};
ghost use Rattle.udp1_packets.specs.Reading.{Reads, Answers, is_state, elements_at, size_at, vector_at, vector_where, number_where, data_at, fec_at, rest_at, told_at, marks_in, body_at, packet_at};
ghost use Rattle.udp1_packets.specs.Value.{Packet};
ghost use Rattle.udp1_packets.specs.Views.{body_of, packet_of};

use crate::flags;
use crate::opening::opening;
use crate::packet::{Body1, Packet1};
use ack_vector::read_runs;
use carrier::Refusal1;
use mt_base::Cursor;

/// The elements that a vector has at most.
const ELEMENTS: u16 = 2048;

/// The place of the first element with another state than received and not received.
fn bad_state(elements: &[u8]) -> Option<usize>
    ensures first { result ≡ position_from (λ e. not (is_state e)) 0 elements.now }
    ensures within { IfSome result (λ i. i < length elements.now) }
{
    match read_runs(elements) {
        Ok(_) => None,
        Err(at) => Some(at),
    }
}

#[tactic(auto, unfolding(crate::specs::Reading::elements_at))]
fn elements<'a>(from: &mut Cursor<'a>, size: usize) -> Result<&'a [u8], Refusal1>
    ensures { Reads (λ x. x.now) (left from.new) result (elements_at size (left from.old)) }
{
    let at = from.at();
    let elements = from.take(size)?;
    match bad_state(elements) {
        None => Ok(elements),
        Some(i) => Err(Refusal1::BadState { at: at + i }),
    }
}

#[tactic(auto, unfolding(crate::specs::Reading::size_at))]
fn size(from: &mut Cursor<'_>) -> Result<usize, Refusal1>
    ensures read { Reads (λ x. x) (left from.new) result (size_at (left from.old)) }
    ensures small { IfOk result (λ size. size ≤ 2048) }
{
    let at = from.at();
    let size = from.u16_be()?;
    if ELEMENTS < size {
        return Err(Refusal1::VectorTooLong { at });
    }
    Ok(usize::from(size))
}

/// The elements of a vector, and past the bytes that fill its last unit.
#[tactic(auto, unfolding(crate::specs::Reading::vector_at))]
fn vector<'a>(from: &mut Cursor<'a>) -> Result<&'a [u8], Refusal1>
    ensures { Reads (λ x. x.now) (left from.new) result (vector_at (left from.old)) }
{
    let size = size(from)?;
    let elements = elements(from, size)?;
    from.take((4 - (2 + size) % 4) % 4)?;
    Ok(elements)
}

#[tactic(auto, unfolding(crate::specs::Reading::vector_where))]
fn vector_where<'a>(from: &mut Cursor<'a>, there: bool) -> Result<Option<&'a [u8]>, Refusal1>
    ensures { Reads option_copied (left from.new) result (vector_where there (left from.old)) }
{
    if !there {
        return Ok(None);
    }
    Ok(Some(vector(from)?))
}

#[tactic(auto, unfolding(crate::specs::Reading::number_where))]
fn number_where(from: &mut Cursor<'_>, there: bool) -> Result<Option<u32>, Refusal1>
    ensures { Reads (λ x. x) (left from.new) result (number_where there (left from.old)) }
{
    if !there {
        return Ok(None);
    }
    Ok(Some(from.u32_be()?))
}

#[tactic(auto, unfolding(crate::specs::Reading::data_at))]
fn data<'a>(
    from: &mut Cursor<'a>,
    vector: Option<&'a [u8]>,
    aoa: Option<u32>,
) -> Result<Body1<'a>, Refusal1>
    ensures { Answers body_of result (data_at (option_copied vector.entry) aoa (left from.old)) }
{
    let coded = from.u32_be()?;
    let start = from.u32_be()?;
    Ok(Body1::Data {
        vector,
        aoa,
        coded,
        start,
        bytes: from.rest(),
    })
}

#[tactic(auto, unfolding(crate::specs::Reading::fec_at))]
fn fec<'a>(
    from: &mut Cursor<'a>,
    vector: Option<&'a [u8]>,
    aoa: Option<u32>,
) -> Result<Body1<'a>, Refusal1>
    ensures { Answers body_of result (fec_at (option_copied vector.entry) aoa (left from.old)) }
{
    let coded = from.u32_be()?;
    let start = from.u32_be()?;
    let range = from.u8()?;
    let index = from.u8()?;
    from.take(2)?;
    Ok(Body1::Fec {
        vector,
        aoa,
        coded,
        start,
        range,
        index,
        bytes: from.rest(),
    })
}

#[tactic(auto, unfolding(crate::specs::Reading::rest_at))]
fn rest<'a>(
    from: &mut Cursor<'a>,
    flags: u16,
    vector: Option<&'a [u8]>,
    aoa: Option<u32>,
) -> Result<Body1<'a>, Refusal1>
    ensures { let read = rest_at flags (option_copied vector.entry) aoa (left from.old) in
        Answers body_of result read }
{
    if !flags::has(flags, flags::DATA) {
        return Ok(Body1::Bare {
            vector,
            aoa,
            rest: from.rest(),
        });
    }
    if flags::has(flags, flags::FEC) {
        return fec(from, vector, aoa);
    }
    data(from, vector, aoa)
}

#[tactic(auto, unfolding(crate::specs::Reading::told_at))]
fn told<'a>(from: &mut Cursor<'a>, flags: u16) -> Result<Body1<'a>, Refusal1>
    ensures { Answers body_of result (told_at flags (left from.old)) }
{
    let vector = vector_where(from, flags::has(flags, flags::ACK))?;
    let aoa = number_where(from, flags::has(flags, flags::ACK_OF_ACKS))?;
    rest(from, flags, vector, aoa)
}

/// The flags that announce nothing.
fn marks(flags: u16) -> u16
    ensures { result ≡ marks_in flags }
{
    if flags::has(flags, flags::SYN) {
        return flags & flags::SYN_MARKS;
    }
    if flags::has(flags, flags::DATA) {
        return flags & flags::DATA_MARKS;
    }
    flags & flags::BARE_MARKS
}

#[tactic(auto, unfolding(crate::specs::Reading::body_at))]
fn body<'a>(from: &mut Cursor<'a>, flags: u16) -> Result<Body1<'a>, Refusal1>
    ensures { Answers body_of result (body_at flags (left from.old)) }
{
    if flags::has(flags, flags::SYN) {
        return opening(from, flags);
    }
    told(from, flags)
}

#[tactic(auto, unfolding(crate::specs::Reading::packet_at))]
fn packet<'a>(from: &mut Cursor<'a>) -> Result<Packet1<'a>, Refusal1>
    ensures { Answers packet_of result (packet_at (left from.old)) }
{
    let ack = from.u32_be()?;
    let window = from.u16_be()?;
    let flags = from.u16_be()?;
    let body = body(from, flags)?;
    Ok(Packet1 {
        ack,
        window,
        marks: marks(flags),
        body,
    })
}

/// Reads the packet that `bytes` spell (MS-RDPEUDP section 2.2). Its parts are borrowed from them.
///
/// The fields are taken in order, and the first that is cut short or breaks its rule is the
/// refusal. A field that is cut short is [`Refusal1::Short`] with its place and its whole length.
pub fn read1(bytes: &[u8]) -> Result<Packet1<'_>, Refusal1>
    // What is read was spelled.
    ensures found { IfOk result (λ p. Spells bytes.now (packet_of p)) }
    // What is spelled is read.
    ensures only { (p : Packet) → Spells bytes.now p → IsOkAnd result (λ q. packet_of q ≡ p) }
    // A refusal is the first fault.
    ensures refused { IfErr result (Refused bytes.now) }
{
    packet(&mut Cursor::new(bytes))
}

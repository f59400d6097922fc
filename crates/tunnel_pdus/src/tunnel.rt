//! Reading tunnel PDUs.

ghost use Rattle.std.specs.Prelude.{◌≡◌, ◌+◌, ◌<◌, ◌≤◌, ◌^◌, length, IfOk, Result, ℕ};
ghost use Rattle.tunnel_pdus.specs.declared.part.Part.{Part};
ghost use Rattle.tunnel_pdus.specs.declared.part.TunnelRefusal.{TunnelRefusal};
ghost use Rattle.tunnel_pdus.specs.Layout.{Spells};
ghost use Rattle.tunnel_pdus.specs.Faults.{Refused};
ghost use Rattle.tunnel_pdus.specs.Streams.{Front};
ghost use Rattle.tunnel_pdus.specs.Reading.{Sees, seen, action_at, length_at, header_at, sub_header_at, sub_headers_at, pdu_in, pdu_at, reading};
ghost use Rattle.tunnel_pdus.specs.Value.{Pdu, IsLengthOf};
ghost use Rattle.tunnel_pdus.specs.Views.{pdu_of};

use crate::action::Action;
use crate::part::{Part, TunnelReason, TunnelRefusal};
use crate::stop::{Stop, byte, number, refused, window};
use crate::value::TunnelPdu;
use byteorder::{ByteOrder, LittleEndian};

/// The length of the fixed fields of the header.
const HEADER: usize = 4;

/// The bytes that a payload has at most.
const LIMIT: usize = 1600;

/// The action, where the flags beside it are zero.
#[tactic(auto, unfolding(crate::specs::Reading::action_at))]
fn action(bytes: &[u8]) -> Result<Action, Stop>
    ensures { Sees (λ x. x) result (action_at bytes.now) }
{
    let first = byte(bytes, 0)?;
    let Some(action) = Action::of(first % 16) else {
        return Err(refused(0, TunnelReason::BadAction));
    };
    if first / 16 != 0 {
        return Err(refused(0, TunnelReason::BadFlags));
    }
    Ok(action)
}

/// The length of the payload, where it is one of this action.
#[tactic(auto, unfolding(crate::specs::Reading::length_at))]
fn payload_length(bytes: &[u8], action: Action) -> Result<usize, Stop>
    ensures seen { Sees (λ x. x) result (length_at action bytes.now) }
    ensures known { IfOk result (λ n. IsLengthOf action n) }
{
    let length = number(bytes, 1)?;
    match action {
        Action::CreateRequest if length != 24 => Err(refused(1, TunnelReason::WrongLength)),
        Action::CreateResponse if length != 4 => Err(refused(1, TunnelReason::WrongLength)),
        Action::Data if length > LIMIT => Err(refused(1, TunnelReason::TooLong)),
        _ => Ok(length),
    }
}

/// The length of the header with its sub-headers.
#[tactic(auto, unfolding(crate::specs::Reading::header_at))]
fn header_length(bytes: &[u8]) -> Result<usize, Stop>
    ensures seen { Sees (λ x. x) result (header_at bytes.now) }
    ensures within { IfOk result (λ n. n < 2 ^ 8) }
{
    let length = usize::from(byte(bytes, 3)?);
    if length < HEADER {
        return Err(refused(3, TunnelReason::BadHeaderLength));
    }
    Ok(length)
}

/// The length of the sub-header at a place before the header's end, by its first two bytes.
#[tactic(auto, unfolding(crate::specs::Reading::sub_header_at))]
fn sub_header(bytes: &[u8], at: usize, end: usize) -> Result<usize, Stop>
    requires before { at < end }
    requires end { end < 2 ^ 8 }
    ensures seen { Sees (λ x. x) result (sub_header_at at end bytes.now) }
    ensures some { IfOk result (λ n. 2 ≤ n) }
    ensures within { IfOk result (λ n. at + n ≤ end) }
{
    let length = usize::from(byte(bytes, at)?);
    if length < 2 || length > end - at {
        return Err(refused(at, TunnelReason::BadSubHeader));
    }
    if byte(bytes, at + 1)? > 1 {
        return Err(refused(at, TunnelReason::BadSubHeader));
    }
    Ok(length)
}

/// Passes over the sub-headers, to the header's end.
fn pass_sub_headers(bytes: &[u8], end: usize) -> Result<usize, Stop>
    requires { end < 2 ^ 8 }
    ensures seen { Sees (λ x. x) result (sub_headers_at 4 end bytes.now) }
    ensures within { IfOk result (λ at. at < 2 ^ 16) }
{
    let mut at = HEADER;
    while at < end {
        at += sub_header(bytes, at, end)?;
    }
    Ok(at)
}

/// The PDU with this payload.
#[tactic(auto, unfolding(crate::specs::Reading::pdu_in))]
fn pdu_in<'a>(action: Action, payload: &'a [u8]) -> TunnelPdu<'a>
    requires { IsLengthOf action (length payload.now) }
    ensures { pdu_of result ≡ pdu_in action payload.entry.now }
{
    match action {
        Action::CreateRequest => TunnelPdu::CreateRequest {
            id: LittleEndian::read_u32(payload),
            cookie: &payload[8..],
        },
        Action::CreateResponse => TunnelPdu::CreateResponse {
            hr: LittleEndian::read_u32(payload),
        },
        Action::Data => TunnelPdu::Data { payload },
    }
}

/// The PDU, and the number of its bytes.
#[tactic(auto, unfolding(crate::specs::Reading::pdu_at))]
fn pdu(bytes: &[u8]) -> Result<(TunnelPdu<'_>, usize), Stop>
    ensures { Sees (λ x. (pdu_of x.0, x.1)) result (pdu_at bytes.now) }
{
    let action = action(bytes)?;
    let length = payload_length(bytes, action)?;
    let end = header_length(bytes)?;
    let at = pass_sub_headers(bytes, end)?;
    let payload = window(bytes, at, length)?;
    Ok((pdu_in(action, payload), at + length))
}

/// Reads the tunnel PDU that a stream begins with (MS-RDPEMT section 2.2).
///
/// Sub-headers are passed over. `02 03 00 04 61 62 63` and any further bytes are
/// `Whole { value: TunnelPdu::Data { payload: b"abc" }, used: 7 }`; the first five bytes of them
/// are `More { need: 7 }`.
#[tactic(auto, unfolding(crate::specs::Reading::reading))]
pub fn read_tunnel(bytes: &[u8]) -> Result<Part<TunnelPdu<'_>>, TunnelRefusal>
    // What is told is what the bytes begin with.
    ensures found { Front Spells Refused bytes.now (seen pdu_of result) }
    // What the bytes begin with is told.
    ensures only { (answer : Result (Part Pdu) TunnelRefusal) → Front Spells Refused bytes.now answer → seen pdu_of result ≡ answer }
    // The same as a function of the bytes.
    ensures exact { seen pdu_of result ≡ reading bytes.now }
{
    match pdu(bytes) {
        Ok((value, used)) => Ok(Part::Whole { value, used }),
        Err(Stop::More { need }) => Ok(Part::More { need }),
        Err(Stop::Refused(refusal)) => Err(refusal),
    }
}

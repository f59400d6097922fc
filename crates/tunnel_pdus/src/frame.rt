//! Reading frames of the main stream.

ghost use Rattle.std.specs.Prelude.{◌≡◌, ◌+◌, ◌<◌, ◌≤◌, ◌^◌, length, IfOk, Result, ℕ};
ghost use Rattle.tunnel_pdus.specs.declared.part.Part.{Part};
ghost use Rattle.tunnel_pdus.specs.declared.part.TunnelRefusal.{TunnelRefusal};
ghost use Rattle.tunnel_pdus.specs.Layout.{SpellsFrame};
ghost use Rattle.tunnel_pdus.specs.Faults.{RefusedFrame};
ghost use Rattle.tunnel_pdus.specs.Streams.{Front};
ghost use Rattle.tunnel_pdus.specs.Reading.{Sees, seen, kind_at, frame_length_at, request_at, response_at, channel_at, body_at, frame_at, frame_reading};
ghost use Rattle.tunnel_pdus.specs.Value.{Frame, IsFrameLength};
ghost use Rattle.tunnel_pdus.specs.Views.{frame_of};

use crate::kind::{FrameKind, protocol_of};
use crate::part::{Part, TunnelReason, TunnelRefusal};
use crate::stop::{Stop, byte, number, refused, window};
use crate::value::MainFrame;
use byteorder::{ByteOrder, LittleEndian};

/// The bytes that a body has at most.
const LIMIT: usize = 1600;

/// The kind of the frame.
#[tactic(auto, unfolding(crate::specs::Reading::kind_at))]
fn kind(bytes: &[u8]) -> Result<FrameKind, Stop>
    ensures { Sees (λ x. x) result (kind_at bytes.now) }
{
    FrameKind::of(byte(bytes, 0)?).ok_or(refused(0, TunnelReason::BadKind))
}

/// The length of the body, where it is one of this kind.
#[tactic(auto, unfolding(crate::specs::Reading::frame_length_at))]
fn body_length(bytes: &[u8], kind: FrameKind) -> Result<usize, Stop>
    ensures seen { Sees (λ x. x) result (frame_length_at kind bytes.now) }
    ensures known { IfOk result (λ n. IsFrameLength kind n) }
{
    let length = number(bytes, 1)?;
    if length > LIMIT {
        return Err(refused(1, TunnelReason::TooLong));
    }
    match kind {
        FrameKind::Request if length != 24 => Err(refused(1, TunnelReason::WrongLength)),
        FrameKind::Response if length != 8 => Err(refused(1, TunnelReason::WrongLength)),
        FrameKind::Channel if length == 0 => Err(refused(1, TunnelReason::WrongLength)),
        _ => Ok(length),
    }
}

/// A request for a tunnel: its id and protocol, then what is reserved and the cookie.
#[tactic(auto, unfolding(crate::specs::Reading::request_at))]
fn request(bytes: &[u8]) -> Result<(MainFrame<'_>, usize), Stop>
    ensures { Sees (λ x. (frame_of x.0, x.1)) result (request_at bytes.now) }
{
    let front = window(bytes, 3, 6)?;
    let Some(kind) = protocol_of(LittleEndian::read_u16(&front[4..])) else {
        return Err(refused(7, TunnelReason::BadProtocol));
    };
    let rest = window(bytes, 9, 18)?;
    let id = LittleEndian::read_u32(front);
    let cookie = &rest[2..];
    Ok((MainFrame::Request { id, kind, cookie }, 27))
}

/// What became of a request.
#[tactic(auto, unfolding(crate::specs::Reading::response_at))]
fn response(bytes: &[u8]) -> Result<(MainFrame<'_>, usize), Stop>
    ensures { Sees (λ x. (frame_of x.0, x.1)) result (response_at bytes.now) }
{
    let body = window(bytes, 3, 8)?;
    let id = LittleEndian::read_u32(body);
    let hr = LittleEndian::read_u32(&body[4..]);
    Ok((MainFrame::Response { id, hr }, 11))
}

/// A channel PDU of this length.
#[tactic(auto, unfolding(crate::specs::Reading::channel_at))]
fn channel(bytes: &[u8], length: usize) -> Result<(MainFrame<'_>, usize), Stop>
    requires { length < 2 ^ 16 }
    ensures { Sees (λ x. (frame_of x.0, x.1)) result (channel_at length bytes.now) }
{
    let pdu = window(bytes, 3, length)?;
    Ok((MainFrame::Channel { pdu }, 3 + length))
}

/// The frame, and the number of its bytes.
#[tactic(auto, unfolding(crate::specs::Reading::frame_at))]
fn frame(bytes: &[u8]) -> Result<(MainFrame<'_>, usize), Stop>
    ensures { Sees (λ x. (frame_of x.0, x.1)) result (frame_at bytes.now) }
{
    let kind = kind(bytes)?;
    let length = body_length(bytes, kind)?;
    match kind {
        FrameKind::Request => request(bytes),
        FrameKind::Response => response(bytes),
        FrameKind::Channel => channel(bytes, length),
    }
}

/// Reads the frame that the main stream begins with.
///
/// `03 01 00 30` and any further bytes are `Whole { value: MainFrame::Channel { pdu: &[0x30] },
/// used: 4 }`; the first three bytes of them are `More { need: 4 }`.
#[tactic(auto, unfolding(crate::specs::Reading::frame_reading))]
pub fn read_frame(bytes: &[u8]) -> Result<Part<MainFrame<'_>>, TunnelRefusal>
    // What is told is what the bytes begin with.
    ensures found { Front SpellsFrame RefusedFrame bytes.now (seen frame_of result) }
    // What the bytes begin with is told.
    ensures only { (answer : Result (Part Frame) TunnelRefusal) → Front SpellsFrame RefusedFrame bytes.now answer → seen frame_of result ≡ answer }
    // The same as a function of the bytes.
    ensures exact { seen frame_of result ≡ frame_reading bytes.now }
{
    match frame(bytes) {
        Ok((value, used)) => Ok(Part::Whole { value, used }),
        Err(Stop::More { need }) => Ok(Part::More { need }),
        Err(Stop::Refused(refusal)) => Err(refusal),
    }
}

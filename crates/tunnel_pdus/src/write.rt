//! Writing tunnel PDUs and main frames.

ghost use Rattle.std.specs.Prelude.{◌≡◌, ◌+◌, ◌<◌, ◌≤◌, ◌^◌, ◌++◌, ◌∷◌, [], length, drop, IfOk, IfErr, OnErr, Err, ℕ};
ghost use Rattle.mt_base.specs.Writing.{puts, joined};
ghost use Rattle.tunnel_pdus.specs.Value.{FitsPdu, FitsFrame, pdu_fields, frame_fields};
ghost use Rattle.tunnel_pdus.specs.Views.{pdu_of, frame_of};

use crate::action::{CREATE_REQUEST, CREATE_RESPONSE, DATA};
use crate::kind::{CHANNEL, REQUEST, RESPONSE, protocol_code};
use crate::value::{MainFrame, TunnelPdu};
use mt_base::{NoRoom, Place, Spell};

/// The length of a tunnel header without sub-headers.
const HEADER: u8 = 4;

impl Spell for TunnelPdu<'_> {
    ghost use Rattle.tunnel_pdus.specs.Value.{FitsPdu, pdu_fields};
    ghost use Rattle.tunnel_pdus.specs.Views.{pdu_of};

    ghost fields = { λ pdu. pdu_fields (pdu_of pdu) };

    ghost fits = { λ pdu. FitsPdu (pdu_of pdu) };

    fn spell<P: Place>(&self, place: &mut P) -> Result<(), NoRoom> {
        match *self {
            TunnelPdu::CreateRequest { id, cookie } => {
                place.put(&[CREATE_REQUEST])?;
                place.put_u16_le(24)?;
                place.put(&[HEADER])?;
                place.put_u32_le(id)?;
                place.put(&[0, 0, 0, 0])?;
                place.put(cookie)
            }
            TunnelPdu::CreateResponse { hr } => {
                place.put(&[CREATE_RESPONSE])?;
                place.put_u16_le(4)?;
                place.put(&[HEADER])?;
                place.put_u32_le(hr)
            }
            TunnelPdu::Data { payload } => {
                place.put(&[DATA])?;
                place.put_u16_le(payload.len() as u16)?;
                place.put(&[HEADER])?;
                place.put(payload)
            }
        }
    }
}

impl Spell for MainFrame<'_> {
    ghost use Rattle.tunnel_pdus.specs.Value.{FitsFrame, frame_fields};
    ghost use Rattle.tunnel_pdus.specs.Views.{frame_of};

    ghost fields = { λ frame. frame_fields (frame_of frame) };

    ghost fits = { λ frame. FitsFrame (frame_of frame) };

    fn spell<P: Place>(&self, place: &mut P) -> Result<(), NoRoom> {
        match *self {
            MainFrame::Request { id, kind, cookie } => {
                place.put(&[REQUEST])?;
                place.put_u16_le(24)?;
                place.put_u32_le(id)?;
                place.put_u16_le(protocol_code(kind))?;
                place.put(&[0, 0])?;
                place.put(cookie)
            }
            MainFrame::Response { id, hr } => {
                place.put(&[RESPONSE])?;
                place.put_u16_le(8)?;
                place.put_u32_le(id)?;
                place.put_u32_le(hr)
            }
            MainFrame::Channel { pdu } => {
                place.put(&[CHANNEL])?;
                place.put_u16_le(pdu.len() as u16)?;
                place.put(pdu)
            }
        }
    }
}

/// Writes a tunnel PDU at the front of `out`, and gives the number of its bytes (MS-RDPEMT section
/// 2.2). No sub-headers are written, and what is reserved is zero.
///
/// Where a field does not fit it is [`NoRoom`], with that field's place and length, and `out`
/// stays as it was. `TunnelPdu::CreateResponse { hr: 0 }` is written as `01 04 00 04 00 00 00 00`.
pub fn write_tunnel(pdu: &TunnelPdu<'_>, out: &mut [u8]) -> Result<usize, NoRoom>
    requires { FitsPdu (pdu_of pdu.now) }
    ensures ok { let text = joined (pdu_fields (pdu_of pdu.now)) in IfOk result (λ n. (n ≡ length text) × (out.new ≡ text ++ drop n out.old)) }
    ensures no_room { IfErr result (λ e. puts (pdu_fields (pdu_of pdu.now)) (record { before = []; after = out.old }) ≡ Err e) }
    ensures unchanged { OnErr result (out.new ≡ out.old) }
{
    mt_base::write(pdu, out)
}

/// Writes a main frame at the front of `out`, and gives the number of its bytes. What is reserved
/// is zero.
///
/// Where a field does not fit it is [`NoRoom`], with that field's place and length, and `out`
/// stays as it was. `MainFrame::Channel { pdu: &[0x30] }` is written as `03 01 00 30`.
pub fn write_frame(frame: &MainFrame<'_>, out: &mut [u8]) -> Result<usize, NoRoom>
    requires { FitsFrame (frame_of frame.now) }
    ensures ok { let text = joined (frame_fields (frame_of frame.now)) in IfOk result (λ n. (n ≡ length text) × (out.new ≡ text ++ drop n out.old)) }
    ensures no_room { IfErr result (λ e. puts (frame_fields (frame_of frame.now)) (record { before = []; after = out.old }) ≡ Err e) }
    ensures unchanged { OnErr result (out.new ≡ out.old) }
{
    mt_base::write(frame, out)
}

//! Tunnel PDUs and main frames, shown.

ghost use Rattle.std.specs.Prelude.{◌≡◌, OnOk, [], ◌∷◌, codes};
ghost use Rattle.std.specs.Fmt.{decimal};
ghost use Rattle.tunnel_pdus.specs.Views.{pdu_of, frame_of};
ghost use Rattle.tunnel_pdus.specs.Reading.{seen};
ghost use Rattle.mt_show.specs.StreamWords.{create_words, pdu_words, kind_word, frame_words, then_words, front_words};
ghost use Rattle.mt_show.specs.Words.{fault_words};
ghost use Rattle.mt_show.specs.Steps.{AddsWords};

use crate::output::Output;
use mt_base::{Kind, NoMemory};
use tunnel_pdus::{MainFrame, Part, TunnelPdu, TunnelRefusal};

/// The words of what so many bytes of a link's stream begin with.
pub(crate) fn tunnel_front(
    out: &mut Output,
    long: usize,
    front: Result<Part<TunnelPdu<'_>>, TunnelRefusal>,
) -> Result<(), NoMemory>
    ensures { OnOk result (AddsWords (front_words pdu_words long (seen pdu_of front.entry)) out.old.bytes.items out.new.bytes.items) }
{
    match front {
        Ok(Part::Whole { value, used }) => {
            pdu(out, value)?;
            behind(out, long.saturating_sub(used))?;
            Ok(())
        }
        Ok(Part::More { need }) => more(out, need),
        Err(fault) => out.fault(fault.name(), fault.place()),
    }
}

/// The words of what so many bytes of the main stream begin with.
pub(crate) fn frame_front(
    out: &mut Output,
    long: usize,
    front: Result<Part<MainFrame<'_>>, TunnelRefusal>,
) -> Result<(), NoMemory>
    ensures { OnOk result (AddsWords (front_words frame_words long (seen frame_of front.entry)) out.old.bytes.items out.new.bytes.items) }
{
    match front {
        Ok(Part::Whole { value, used }) => {
            frame(out, value)?;
            behind(out, long.saturating_sub(used))?;
            Ok(())
        }
        Ok(Part::More { need }) => more(out, need),
        Err(fault) => out.fault(fault.name(), fault.place()),
    }
}

fn pdu(out: &mut Output, pdu: TunnelPdu<'_>) -> Result<(), NoMemory>
    ensures { OnOk result (AddsWords (pdu_words (pdu_of pdu.entry)) out.old.bytes.items out.new.bytes.items) }
{
    match pdu {
        TunnelPdu::CreateRequest { id, cookie } => create(out, id, cookie),
        TunnelPdu::CreateResponse { hr } => {
            out.word(b"answer")?;
            out.wide_digits(b"hr=", hr)
        }
        TunnelPdu::Data { payload } => {
            out.word(b"data")?;
            out.hex(b"bytes=", payload)
        }
    }
}

fn create(out: &mut Output, id: u32, cookie: &[u8]) -> Result<(), NoMemory>
    ensures { OnOk result (AddsWords (create_words id cookie.now) out.old.bytes.items out.new.bytes.items) }
{
    out.word(b"create")?;
    out.number(b"id=", u64::from(id))?;
    out.hex(b"cookie=", cookie)?;
    Ok(())
}

fn frame(out: &mut Output, frame: MainFrame<'_>) -> Result<(), NoMemory>
    ensures { OnOk result (AddsWords (frame_words (frame_of frame.entry)) out.old.bytes.items out.new.bytes.items) }
{
    match frame {
        MainFrame::Request { id, kind, cookie } => {
            out.word(b"request")?;
            out.number(b"id=", u64::from(id))?;
            out.word(kind_word(kind))?;
            out.hex(b"cookie=", cookie)
        }
        MainFrame::Response { id, hr } => {
            out.word(b"response")?;
            out.number(b"id=", u64::from(id))?;
            out.wide_digits(b"hr=", hr)
        }
        MainFrame::Channel { pdu } => {
            out.word(b"channel")?;
            out.hex(b"bytes=", pdu)
        }
    }
}

fn kind_word(kind: Kind) -> &'static [u8]
    ensures { result.now ≡ kind_word kind }
{
    match kind {
        Kind::Reliable => b"kind=reliable",
        Kind::Lossy => b"kind=lossy",
    }
}

/// How many bytes stand behind a value, where any do.
fn behind(out: &mut Output, count: usize) -> Result<(), NoMemory>
    ensures { OnOk result (AddsWords (then_words count) out.old.bytes.items out.new.bytes.items) }
{
    if count == 0 {
        return Ok(());
    }
    out.word(b"then")?;
    out.number(b"", count as u64)
}

/// The least length at which there can be a value.
fn more(out: &mut Output, need: usize) -> Result<(), NoMemory>
    ensures { OnOk result (AddsWords (codes "more" ∷ decimal need ∷ []) out.old.bytes.items out.new.bytes.items) }
{
    out.word(b"more")?;
    out.number(b"", need as u64)
}

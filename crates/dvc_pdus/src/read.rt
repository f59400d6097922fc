//! Reading PDUs.

ghost use Rattle.std.specs.Prelude.{◌≡◌, ◌+◌, ◌<◌, ◌≤◌, ◌^◌, length, take, IfSome, IfOk, IfErr, IsOkAnd, ℕ, not};
ghost use Rattle.std.specs.List.{position_from};
ghost use Rattle.mt_base.specs.CursorView.{left};
ghost use Rattle.dvc_pdus.specs.Reading.{Reads, Answers, is_name_byte, name_to, name_at, charges_at, capabilities_at, create_request_at, create_response_at, within, data_first_at, data_at, compressed_first_at, compressed_at, close_at, body_at, pdu_at, reading};
ghost use Rattle.dvc_pdus.specs.Value.{Pdu};
ghost use Rattle.dvc_pdus.specs.Layout.{Encodes};
ghost use Rattle.dvc_pdus.specs.Faults.{Refused};
ghost use Rattle.dvc_pdus.specs.Views.{pdu_of};

use crate::command::Command;
use crate::fields::{ended, id, leading_id, length};
use crate::pdu::{DvcPdu, DvcRefusal};
use crate::sync::{sync_request, sync_response};
use mt_base::{Cursor, Role};

/// The bytes that a PDU has at most.
const LIMIT: usize = 1600;

/// The bytes that a name has at most, with the zero byte that ends it.
const NAME_LIMIT: usize = 256;

/// The place of the first byte that is none of a name, among those where a name can end.
fn name_end(bytes: &[u8]) -> Option<usize>
    ensures end { result ≡ position_from (λ b. not (is_name_byte b)) 0 (take 256 bytes.now) }
    ensures within { IfSome result (λ end. end < length bytes.now) }
{
    bytes
        .iter()
        .take(NAME_LIMIT)
        .position(|byte| *byte < 0x20 || *byte > 0x7e)
}

/// A name and its zero byte, by the place of the first byte that is none of the name.
#[tactic(auto, unfolding(crate::specs::Reading::name_to))]
fn name_to<'a>(from: &mut Cursor<'a>, end: Option<usize>) -> Result<&'a [u8], DvcRefusal>
    requires { IfSome end (λ end. end < length (left from.old).bytes) }
    ensures { Reads (λ x. x.now) (left from.new) result (name_to end (left from.old)) }
{
    let at = from.at();
    let rest = from.rest();
    match end {
        Some(end) => {
            if end == 0 || rest[end] != 0 {
                return Err(DvcRefusal::BadName { at: at + end });
            }
            let name = from.take(end)?;
            from.u8()?;
            Ok(name)
        }
        None => {
            if rest.len() < NAME_LIMIT {
                return Err(DvcRefusal::NameNotEnded {
                    at: at + rest.len(),
                });
            }
            Err(DvcRefusal::BadName {
                at: at + (NAME_LIMIT - 1),
            })
        }
    }
}

/// A name and the zero byte that ends it.
#[tactic(auto, unfolding(crate::specs::Reading::name_at))]
fn name<'a>(from: &mut Cursor<'a>) -> Result<&'a [u8], DvcRefusal>
    ensures { Reads (λ x. x.now) (left from.new) result (name_at (left from.old)) }
{
    let end = name_end(from.rest());
    name_to(from, end)
}

/// The four priority charges, or nothing where no byte is left.
#[tactic(auto, unfolding(crate::specs::Reading::charges_at))]
fn charges(from: &mut Cursor<'_>) -> Result<Option<[u16; 4]>, DvcRefusal>
    ensures { Reads (λ x. x) (left from.new) result (charges_at (left from.old)) }
{
    if from.rest().is_empty() {
        return Ok(None);
    }
    let first = from.u16_le()?;
    let second = from.u16_le()?;
    let third = from.u16_le()?;
    let fourth = from.u16_le()?;
    Ok(Some([first, second, third, fourth]))
}

/// What follows the header byte of capabilities.
#[tactic(auto, unfolding(crate::specs::Reading::capabilities_at))]
fn capabilities<'a>(from: &mut Cursor<'a>) -> Result<DvcPdu<'a>, DvcRefusal>
    ensures { Answers pdu_of result (capabilities_at (left from.old)) }
{
    from.u8()?;
    let version = from.u16_le()?;
    let charges = charges(from)?;
    ended(from, DvcPdu::Caps { version, charges })
}

/// What follows the header byte of a create request.
#[tactic(auto, unfolding(crate::specs::Reading::create_request_at))]
fn create_request<'a>(
    from: &mut Cursor<'a>,
    priority: u8,
    size: u8,
) -> Result<DvcPdu<'a>, DvcRefusal>
    ensures { Answers pdu_of result (create_request_at priority size (left from.old)) }
{
    let id = id(from, size)?;
    let name = name(from)?;
    ended(from, DvcPdu::CreateRequest { id, priority, name })
}

/// What follows the header byte of the answer to a create request.
#[tactic(auto, unfolding(crate::specs::Reading::create_response_at))]
fn create_response<'a>(from: &mut Cursor<'a>, size: u8) -> Result<DvcPdu<'a>, DvcRefusal>
    ensures { Answers pdu_of result (create_response_at size (left from.old)) }
{
    let id = id(from, size)?;
    let status = from.u32_le()?;
    ended(from, DvcPdu::CreateResponse { id, status })
}

/// The first bytes of a message, where they are no more than it has. Its length stands at `at`.
#[tactic(auto, unfolding(crate::specs::Reading::within))]
fn within(at: usize, id: u32, length: u32, bytes: &[u8]) -> Result<DvcPdu<'_>, DvcRefusal>
    ensures { Answers pdu_of result (within at id length bytes.now) }
{
    if bytes.len() as u64 > u64::from(length) {
        return Err(DvcRefusal::LengthTooSmall { at });
    }
    Ok(DvcPdu::DataFirst { id, length, bytes })
}

/// What follows the header byte of the first bytes of a message.
#[tactic(auto, unfolding(crate::specs::Reading::data_first_at))]
fn data_first<'a>(from: &mut Cursor<'a>, wide: u8, size: u8) -> Result<DvcPdu<'a>, DvcRefusal>
    ensures { Answers pdu_of result (data_first_at wide size (left from.old)) }
{
    let id = leading_id(from, wide, size)?;
    let at = from.at();
    let length = length(from, wide)?;
    within(at, id, length, from.rest())
}

/// What follows the header byte of data.
#[tactic(auto, unfolding(crate::specs::Reading::data_at))]
fn data<'a>(from: &mut Cursor<'a>, size: u8) -> Result<DvcPdu<'a>, DvcRefusal>
    ensures { Answers pdu_of result (data_at size (left from.old)) }
{
    let id = id(from, size)?;
    Ok(DvcPdu::Data {
        id,
        bytes: from.rest(),
    })
}

/// What follows the header byte of the first bytes of a compressed message.
#[tactic(auto, unfolding(crate::specs::Reading::compressed_first_at))]
fn compressed_first<'a>(from: &mut Cursor<'a>, wide: u8, size: u8) -> Result<DvcPdu<'a>, DvcRefusal>
    ensures { Answers pdu_of result (compressed_first_at wide size (left from.old)) }
{
    let id = leading_id(from, wide, size)?;
    let length = length(from, wide)?;
    Ok(DvcPdu::CompressedFirst {
        id,
        length,
        bytes: from.rest(),
    })
}

/// What follows the header byte of compressed data.
#[tactic(auto, unfolding(crate::specs::Reading::compressed_at))]
fn compressed<'a>(from: &mut Cursor<'a>, size: u8) -> Result<DvcPdu<'a>, DvcRefusal>
    ensures { Answers pdu_of result (compressed_at size (left from.old)) }
{
    let id = id(from, size)?;
    Ok(DvcPdu::Compressed {
        id,
        bytes: from.rest(),
    })
}

/// What follows the header byte of a close.
#[tactic(auto, unfolding(crate::specs::Reading::close_at))]
fn close<'a>(from: &mut Cursor<'a>, size: u8) -> Result<DvcPdu<'a>, DvcRefusal>
    ensures { Answers pdu_of result (close_at size (left from.old)) }
{
    let id = id(from, size)?;
    ended(from, DvcPdu::Close { id })
}

/// What follows the header byte. `own` are its two bits of the command's own.
#[tactic(auto, unfolding(crate::specs::Reading::body_at))]
fn body<'a>(
    from: &mut Cursor<'a>,
    writer: Role,
    command: Option<Command>,
    own: u8,
    size: u8,
) -> Result<DvcPdu<'a>, DvcRefusal>
    ensures { Answers pdu_of result (body_at writer command own size (left from.old)) }
{
    match (command, writer) {
        (None, _) => Err(DvcRefusal::UnknownCommand { at: 0 }),
        (Some(Command::Create), Role::Server) => create_request(from, own, size),
        (Some(Command::Create), Role::Client) => create_response(from, size),
        (Some(Command::DataFirst), _) => data_first(from, own, size),
        (Some(Command::Data), _) => data(from, size),
        (Some(Command::Close), _) => close(from, size),
        (Some(Command::Capabilities), _) => capabilities(from),
        (Some(Command::CompressedFirst), _) => compressed_first(from, own, size),
        (Some(Command::Compressed), _) => compressed(from, size),
        (Some(Command::SyncRequest), _) => sync_request(from),
        (Some(Command::SyncResponse), _) => sync_response(from),
    }
}

/// The header byte, and what follows it.
#[tactic(auto, unfolding(crate::specs::Reading::pdu_at))]
fn pdu<'a>(from: &mut Cursor<'a>, writer: Role) -> Result<DvcPdu<'a>, DvcRefusal>
    ensures { Answers pdu_of result (pdu_at writer (left from.old)) }
{
    let first = from.u8()?;
    body(
        from,
        writer,
        Command::of(first / 16),
        first / 4 % 4,
        first % 4,
    )
}

/// Reads a channel PDU that fills `bytes`, written by the end `from` (MS-RDPEDYC section 2.2).
///
/// A PDU of more than 1,600 bytes is [`DvcRefusal::TooLong`] before anything else; else the first
/// fault in the order of the fields is the refusal. `30 01 61 62 63` is
/// `DvcPdu::Data { id: 1, bytes: b"abc" }`, and `30` alone is `Short` at 1, which wants 1.
#[tactic(auto, unfolding(crate::specs::Reading::reading))]
pub fn read_dvc(from: Role, bytes: &[u8]) -> Result<DvcPdu<'_>, DvcRefusal>
    // The bytes are the PDU that is read.
    ensures found { IfOk result (λ pdu. Encodes from bytes.now (pdu_of pdu)) }
    // Where the bytes are a PDU, it is read.
    ensures only { (pdu : Pdu) → Encodes from bytes.now pdu → IsOkAnd result (λ answer. pdu_of answer ≡ pdu) }
    // A refusal is the first fault.
    ensures refused { IfErr result (λ refusal. Refused from bytes.now refusal) }
    // The same as a function of the bytes.
    ensures exact { Answers pdu_of result (reading from bytes.now) }
{
    if bytes.len() > LIMIT {
        return Err(DvcRefusal::TooLong { at: LIMIT });
    }
    pdu(&mut Cursor::new(bytes), from)
}

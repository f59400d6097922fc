//! Reading Soft-Sync PDUs (MS-RDPEDYC section 2.2.5).

ghost use Rattle.std.specs.Prelude.{◌≡◌, ◌+◌, ◌<◌, ◌^◌, length};
ghost use Rattle.mt_base.specs.CursorView.{left};
ghost use Rattle.dvc_pdus.specs.Value.{list_count, lists_follow};
ghost use Rattle.dvc_pdus.specs.Reading.{Reads, Answers, number_at, kind_of, known_kind, kind_at, list_at, items_at, sync_length_at, sync_request_at, sync_response_at};
ghost use Rattle.dvc_pdus.specs.ListViews.{ids_left, list_of, lists_left, types_left};
ghost use Rattle.dvc_pdus.specs.Views.{pdu_of};

use crate::fields::ended;
use crate::lists::{Ids, SyncList, SyncLists, SyncTypes};
use crate::pdu::{DvcPdu, DvcRefusal};
use mt_base::{Cursor, Kind};

/// The flag that says that lists follow.
const CHANNEL_LIST_PRESENT: u16 = 0x02;

/// The kind of tunnel that a code names.
pub(crate) fn kind_of(code: u32) -> Option<Kind>
    ensures { result ≡ kind_of code }
{
    match code {
        1 => Some(Kind::Reliable),
        3 => Some(Kind::Lossy),
        _ => None,
    }
}

/// The kind of a tunnel.
#[tactic(auto, unfolding(crate::specs::Reading::kind_at))]
pub(crate) fn kind(from: &mut Cursor<'_>) -> Result<Kind, DvcRefusal>
    ensures { Reads (λ x. x) (left from.new) result (kind_at (left from.old)) }
{
    let at = from.at();
    let code = from.u32_le()?;
    match kind_of(code) {
        Some(kind) => Ok(kind),
        None => Err(DvcRefusal::BadTunnelType { at }),
    }
}

/// A channel id of a list.
#[tactic(auto, unfolding(crate::specs::Reading::number_at))]
fn number(from: &mut Cursor<'_>) -> Result<u32, DvcRefusal>
    ensures { Reads (λ x. x) (left from.new) result (number_at (left from.old)) }
{
    Ok(from.u32_le()?)
}

/// So many channel ids.
fn ids<'a>(from: &mut Cursor<'a>, count: u16) -> Result<Ids<'a>, DvcRefusal>
    ensures { Reads ids_left (left from.new) result (items_at number_at count (left from.old)) }
{
    let at = from.at();
    let bytes = from.rest();
    for _ in 0..count {
        number(from)?;
    }
    Ok(Ids::new(count, &bytes[..from.at() - at]))
}

/// A list of channels.
#[tactic(auto, unfolding(crate::specs::Reading::list_at))]
pub(crate) fn list<'a>(from: &mut Cursor<'a>) -> Result<SyncList<'a>, DvcRefusal>
    ensures { Reads list_of (left from.new) result (list_at (left from.old)) }
{
    let kind = kind(from)?;
    let count = from.u16_le()?;
    let ids = ids(from, count)?;
    Ok(SyncList { kind, ids })
}

/// So many lists.
fn lists<'a>(from: &mut Cursor<'a>, count: u16) -> Result<SyncLists<'a>, DvcRefusal>
    ensures { Reads lists_left (left from.new) result (items_at list_at count (left from.old)) }
{
    let at = from.at();
    let bytes = from.rest();
    for _ in 0..count {
        list(from)?;
    }
    Ok(SyncLists::new(count, &bytes[..from.at() - at]))
}

/// So many types of tunnels.
fn types<'a>(from: &mut Cursor<'a>, count: u32) -> Result<SyncTypes<'a>, DvcRefusal>
    ensures { Reads types_left (left from.new) result (items_at kind_at count (left from.old)) }
{
    let at = from.at();
    let bytes = from.rest();
    for _ in 0..count {
        kind(from)?;
    }
    Ok(SyncTypes::new(count, &bytes[..from.at() - at]))
}

/// The Length of a request, which counts its own four bytes and all that follows.
#[tactic(auto, unfolding(crate::specs::Reading::sync_length_at))]
fn sync_length(from: &mut Cursor<'_>) -> Result<u32, DvcRefusal>
    ensures { Reads (λ x. x) (left from.new) result (sync_length_at (left from.old)) }
{
    let at = from.at();
    let told = from.u32_le()?;
    if u64::from(told) != 4 + from.rest().len() as u64 {
        return Err(DvcRefusal::SyncLength { at });
    }
    Ok(told)
}

/// How many lists a request has.
fn list_count(flags: u16, tunnels: u16) -> u16
    ensures { result ≡ list_count flags tunnels }
{
    if flags & CHANNEL_LIST_PRESENT != 0 {
        tunnels
    } else {
        0
    }
}

/// What follows the header byte of a Soft-Sync request.
#[tactic(auto, unfolding(crate::specs::Reading::sync_request_at))]
pub(crate) fn sync_request<'a>(from: &mut Cursor<'a>) -> Result<DvcPdu<'a>, DvcRefusal>
    ensures { Answers pdu_of result (sync_request_at (left from.old)) }
{
    from.u8()?;
    sync_length(from)?;
    let flags = from.u16_le()?;
    let tunnels = from.u16_le()?;
    let lists = lists(from, list_count(flags, tunnels))?;
    ended(
        from,
        DvcPdu::SyncRequest {
            flags,
            tunnels,
            lists,
        },
    )
}

/// What follows the header byte of a Soft-Sync response.
#[tactic(auto, unfolding(crate::specs::Reading::sync_response_at))]
pub(crate) fn sync_response<'a>(from: &mut Cursor<'a>) -> Result<DvcPdu<'a>, DvcRefusal>
    ensures { Answers pdu_of result (sync_response_at (left from.old)) }
{
    from.u8()?;
    let count = from.u32_le()?;
    let types = types(from, count)?;
    ended(from, DvcPdu::SyncResponse { types })
}

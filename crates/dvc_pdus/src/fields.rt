//! Reading the fields that several PDUs have: the id, a message's length, and the end.

ghost use Rattle.std.specs.Prelude.{◌≡◌};
ghost use Rattle.mt_base.specs.CursorView.{left};
ghost use Rattle.dvc_pdus.specs.Reading.{Reads, Answers, id_at, leading_id_at, length_at, ended};
ghost use Rattle.dvc_pdus.specs.Views.{pdu_of};

use crate::pdu::{DvcPdu, DvcRefusal};
use mt_base::Cursor;

/// A channel id, in the size that the header byte tells.
#[tactic(auto, unfolding(crate::specs::Reading::id_at))]
pub(crate) fn id(from: &mut Cursor<'_>, size: u8) -> Result<u32, DvcRefusal>
    ensures { Reads (λ x. x) (left from.new) result (id_at size (left from.old)) }
{
    match size {
        0 => Ok(u32::from(from.u8()?)),
        1 => Ok(u32::from(from.u16_le()?)),
        2 => Ok(from.u32_le()?),
        _ => Err(DvcRefusal::BadCbId { at: 0 }),
    }
}

/// A channel id that a message's length stands behind. A length of no size is told before the id
/// is read.
#[tactic(auto, unfolding(crate::specs::Reading::leading_id_at))]
pub(crate) fn leading_id(from: &mut Cursor<'_>, wide: u8, size: u8) -> Result<u32, DvcRefusal>
    ensures { Reads (λ x. x) (left from.new) result (leading_id_at wide size (left from.old)) }
{
    if size < 3 && wide == 3 {
        return Err(DvcRefusal::BadLen { at: 0 });
    }
    id(from, size)
}

/// The length of a message, in the size that the header byte tells.
#[tactic(auto, unfolding(crate::specs::Reading::length_at))]
pub(crate) fn length(from: &mut Cursor<'_>, wide: u8) -> Result<u32, DvcRefusal>
    ensures { Reads (λ x. x) (left from.new) result (length_at wide (left from.old)) }
{
    match wide {
        0 => Ok(u32::from(from.u8()?)),
        1 => Ok(u32::from(from.u16_le()?)),
        2 => Ok(from.u32_le()?),
        _ => Err(DvcRefusal::BadLen { at: 0 }),
    }
}

/// The PDU, where nothing stands behind its last field.
#[tactic(auto, unfolding(crate::specs::Reading::ended))]
pub(crate) fn ended<'a>(from: &Cursor<'a>, pdu: DvcPdu<'a>) -> Result<DvcPdu<'a>, DvcRefusal>
    ensures { Answers pdu_of result (ended (pdu_of pdu.entry) (left from.now)) }
{
    if !from.rest().is_empty() {
        return Err(DvcRefusal::Trailing { at: from.at() });
    }
    Ok(pdu)
}

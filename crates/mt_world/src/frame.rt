//! Frames of the main stream: kind 3, the length of a channel PDU in two bytes, the lowest first,
//! and the PDU.

ghost use Rattle.std.specs.Prelude.{◌≡◌, ◌≤◌, ◌++◌, length, true, IfSome, OnOk};
ghost use Rattle.std.specs.Option.{option_map};
ghost use Rattle.mt_base.specs.declared.kinds.Role.{Role};
ghost use Rattle.dvc_pdus.specs.Value.{Fits, spelled};
ghost use Rattle.dvc_pdus.specs.Views.{pdu_of};
ghost use Rattle.mt_world.specs.Frames.{framed, frame_of, is_spoken};

use byteorder::{ByteOrder, LittleEndian};
use dvc_pdus::{DvcPdu, read_dvc, write_dvc};
use mt_base::{NoMemory, Role};

/// The kind of a frame that holds a channel PDU.
const CHANNEL_PDU: u8 = 3;

/// The PDU of the one whole frame that these bytes of the end `from` are, if they are one.
#[tactic(auto, unfolding(crate::specs::Frames::frame_of))]
pub(crate) fn read_frame(from: Role, bytes: &[u8]) -> Option<DvcPdu<'_>>
    ensures frame { option_map pdu_of result ≡ frame_of from bytes.now }
    ensures spoken { IfSome result (λ pdu. is_spoken (pdu_of pdu) ≡ true) }
{
    match bytes {
        [kind, low, high, pdu @ ..] => {
            let length = usize::from(*low) + 256 * usize::from(*high);
            if *kind != CHANNEL_PDU || length != pdu.len() {
                return None;
            }
            read_dvc(from, pdu).ok().filter(is_spoken)
        }
        _ => None,
    }
}

/// Whether the ends of this session exchange this PDU.
fn is_spoken(pdu: &DvcPdu<'_>) -> bool
    ensures { result ≡ is_spoken (pdu_of pdu.now) }
{
    matches!(
        pdu,
        DvcPdu::Caps { .. }
            | DvcPdu::CreateRequest { .. }
            | DvcPdu::CreateResponse { .. }
            | DvcPdu::Data { .. }
    )
}

/// Writes a PDU's frame at the end of a queue. Where memory runs out a part of it may stand there.
#[tactic(auto, unfolding(crate::specs::Frames::framed))]
pub(crate) fn write_frame(queue: &mut Vec<u8>, pdu: &DvcPdu<'_>) -> Result<(), NoMemory>
    requires fits { (from : Role) × Fits from (pdu_of pdu.now) }
    requires short { length (spelled (pdu_of pdu.now)) ≤ 1600 }
    ensures { OnOk result (queue.new.items ≡ queue.old.items ++ framed (pdu_of pdu.now)) }
{
    let mut bytes = [0; 1600];
    let Ok(length) = write_dvc(pdu, &mut bytes) else {
        unreachable!()
    };
    let mut size = [0; 2];
    LittleEndian::write_u16(&mut size, length as u16);
    queue.push(CHANNEL_PDU)?;
    queue.extend_from_slice(&size)?;
    queue.extend_from_slice(&bytes[..length])?;
    Ok(())
}

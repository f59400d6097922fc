//! Messages cut into PDUs.

ghost use Rattle.std.specs.Prelude.{◌≡◌, ◌<◌, ◌≤◌, ℕ, List, length, take, drop, flat_map, slice_get, Some};
ghost use Rattle.dvc_pdus.specs.Value.{Pdu, smallest, spelled};
ghost use Rattle.dvc_pdus.specs.Views.{pdu_of};
ghost use Rattle.dvc_channels.specs.Fragments.{fragments_of, room};

use dvc_pdus::{DvcPdu, write_dvc};

/// The bytes that a PDU has at most.
const PDU: usize = 1600;

/// The bytes that an id or a length takes.
fn size(number: u32) -> usize
    ensures { result ≡ length (smallest number) }
{
    if number < 0x100 {
        1
    } else if number < 0x1_0000 {
        2
    } else {
        4
    }
}

/// The bytes of a message for which a Data PDU of this channel has room.
fn room(id: u32) -> usize
    ensures { result ≡ room id }
{
    PDU - 1 - size(id)
}

/// How many PDUs a message of so many bytes takes on this channel.
pub fn fragments(id: u32, total: u32) -> u32
    ensures { (message : List ℕ) → length message ≡ total → result ≡ length (fragments_of id message) }
{
    let room = room(id);
    if total as usize <= room {
        return 1;
    }
    let rest = total as usize - (room - size(total));
    1 + rest.div_ceil(room) as u32
}

/// How many bytes the PDUs of a message of so many bytes have on this channel, all of them together.
pub fn fragments_size(id: u32, total: u32) -> usize
    ensures { (message : List ℕ) → length message ≡ total → result ≡ length (flat_map spelled (fragments_of id message)) }
{
    let headers = fragments(id, total) as usize * (1 + size(id));
    if total as usize <= room(id) {
        return headers + total as usize;
    }
    headers + size(total) + total as usize
}

/// The bytes of a message from a place on, but at most so many.
fn bytes_from<'a>(message: &'a [u8], start: usize, most: usize) -> &'a [u8]
    requires { start ≤ length message.now }
    ensures { result.now ≡ take most (drop start message.now) }
{
    let rest = &message[start..];
    &rest[..rest.len().min(most)]
}

/// The PDU of this number, counted from 0, of a message on this channel.
fn fragment<'a>(id: u32, message: &'a [u8], k: u32) -> DvcPdu<'a>
    requires message { length message.now ≤ 1048576 }
    requires number { k < length (fragments_of id message.now) }
    ensures { slice_get (fragments_of id message.now) k ≡ Some (pdu_of result) }
{
    let room = room(id);
    if message.len() <= room {
        return DvcPdu::Data { id, bytes: message };
    }
    let length = message.len() as u32;
    let first = room - size(length);
    if k == 0 {
        let bytes = &message[..first];
        return DvcPdu::DataFirst { id, length, bytes };
    }
    let bytes = bytes_from(message, first + (k as usize - 1) * room, room);
    DvcPdu::Data { id, bytes }
}

/// Writes the PDU of this number, counted from 0, of a message of at most 1,048,576 bytes on this
/// channel (MS-RDPEDYC sections 2.2.3.1 and 2.2.3.2), and answers its length. `k` is below
/// [`fragments`] of the message's length.
pub fn fragment_of(id: u32, message: &[u8], k: u32, out: &mut [u8; 1600]) -> usize
    requires message { length message.now ≤ 1048576 }
    requires number { k < length (fragments_of id message.now) }
    ensures spelled { (pdu : Pdu) → slice_get (fragments_of id message.now) k ≡ Some pdu → take result out.new ≡ spelled pdu }
    ensures bound { result ≤ 1600 }
    ensures rest { drop result out.new ≡ drop result out.old }
{
    let pdu = fragment(id, message, k);
    match write_dvc(&pdu, out) {
        Ok(written) => written,
        Err(_) => unreachable!(),
    }
}

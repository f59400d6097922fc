//! Writing PDUs.

ghost use Rattle.std.specs.Prelude.{◌≡◌, ◌+◌, ◌*◌, ◌<◌, ◌≤◌, ◌^◌, ◌++◌, ◌∷◌, [], length, drop, IfOk, IfErr, OnErr, Err, ℕ};
ghost use Rattle.mt_base.specs.Filling.{Fills, fill, fills};
ghost use Rattle.mt_base.specs.Writing.{puts, joined};
ghost use Rattle.mt_base.specs.declared.kinds.Role.{Role};
ghost use Rattle.dvc_pdus.specs.Value.{Caps, Fits, fields, spelled, header, smallest, size_code};
ghost use Rattle.dvc_pdus.specs.Views.{pdu_of};

use crate::command::{CAPABILITIES, CLOSE, COMPRESSED, COMPRESSED_FIRST, CREATE, DATA, DATA_FIRST};
use crate::pdu::DvcPdu;
use crate::sync_write::{put_request, put_response};
use mt_base::{NoRoom, Place, Spell};

/// The code of the smallest size that an id or a length fits.
fn size_code(number: u32) -> u8
    ensures { result ≡ size_code number }
{
    if number < 0x100 {
        0
    } else if number < 0x1_0000 {
        1
    } else {
        2
    }
}

/// Puts a header byte: the command, two bits of its own, and the code of the id's size.
fn put_header<P: Place>(place: &mut P, command: u8, own: u8, id: u32) -> Result<(), NoRoom>
    requires command { command < 16 }
    requires own { own < 4 }
    ensures same { P.lent place.new ≡ P.lent place.old }
    ensures filled { Fills (P.filling place.new) result (fill (header command own id) (P.filling place.old)) }
{
    place.put(&[command * 16 + own * 4 + size_code(id)])
}

/// Puts an id or a length in the smallest size that it fits.
fn put_smallest<P: Place>(place: &mut P, number: u32) -> Result<(), NoRoom>
    ensures same { P.lent place.new ≡ P.lent place.old }
    ensures filled { Fills (P.filling place.new) result (fill (smallest number) (P.filling place.old)) }
{
    if number < 0x100 {
        place.put_u8(number as u8)
    } else if number < 0x1_0000 {
        place.put_u16_le(number as u16)
    } else {
        place.put_u32_le(number)
    }
}

/// Puts capabilities. There are priority charges or none.
fn put_caps<P: Place>(place: &mut P, version: u16, charges: Option<[u16; 4]>) -> Result<(), NoRoom>
    ensures same { P.lent place.new ≡ P.lent place.old }
    ensures filled { Fills (P.filling place.new) result (fills (fields (Caps version charges)) (P.filling place.old)) }
{
    place.put(&[CAPABILITIES * 16])?;
    place.put(&[0])?;
    place.put_u16_le(version)?;
    let Some(charges) = charges else {
        return Ok(());
    };
    let [first, second, third, fourth] = charges;
    place.put_u16_le(first)?;
    place.put_u16_le(second)?;
    place.put_u16_le(third)?;
    place.put_u16_le(fourth)
}

/// Puts the first bytes of a message, whose header byte has the code of its length's size.
fn put_first<P: Place>(
    place: &mut P,
    command: u8,
    id: u32,
    length: u32,
    bytes: &[u8],
) -> Result<(), NoRoom>
    requires command { command < 16 }
    ensures same { P.lent place.new ≡ P.lent place.old }
    ensures filled { Fills (P.filling place.new) result (fills (header command (size_code length) id ∷ smallest id ∷ smallest length ∷ bytes.now ∷ []) (P.filling place.old)) }
{
    put_header(place, command, size_code(length), id)?;
    put_smallest(place, id)?;
    put_smallest(place, length)?;
    place.put(bytes)
}

/// Puts bytes of a message.
fn put_data<P: Place>(place: &mut P, command: u8, id: u32, bytes: &[u8]) -> Result<(), NoRoom>
    requires command { command < 16 }
    ensures same { P.lent place.new ≡ P.lent place.old }
    ensures filled { Fills (P.filling place.new) result (fills (header command 0 id ∷ smallest id ∷ bytes.now ∷ []) (P.filling place.old)) }
{
    put_header(place, command, 0, id)?;
    put_smallest(place, id)?;
    place.put(bytes)
}

impl Spell for DvcPdu<'_> {
    ghost fields = { λ pdu. fields (pdu_of pdu) };

    ghost fits = { λ pdu. (from : Role) × Fits from (pdu_of pdu) };

    fn spell<P: Place>(&self, place: &mut P) -> Result<(), NoRoom> {
        match *self {
            DvcPdu::Caps { version, charges } => put_caps(place, version, charges),
            DvcPdu::CreateRequest { id, priority, name } => {
                put_header(place, CREATE, priority, id)?;
                put_smallest(place, id)?;
                place.put(name)?;
                place.put(&[0])
            }
            DvcPdu::CreateResponse { id, status } => {
                put_header(place, CREATE, 0, id)?;
                put_smallest(place, id)?;
                place.put_u32_le(status)
            }
            DvcPdu::DataFirst { id, length, bytes } => {
                put_first(place, DATA_FIRST, id, length, bytes)
            }
            DvcPdu::Data { id, bytes } => put_data(place, DATA, id, bytes),
            DvcPdu::CompressedFirst { id, length, bytes } => {
                put_first(place, COMPRESSED_FIRST, id, length, bytes)
            }
            DvcPdu::Compressed { id, bytes } => put_data(place, COMPRESSED, id, bytes),
            DvcPdu::Close { id } => {
                put_header(place, CLOSE, 0, id)?;
                put_smallest(place, id)
            }
            DvcPdu::SyncRequest {
                flags,
                tunnels,
                lists,
            } => put_request(place, flags, tunnels, lists),
            DvcPdu::SyncResponse { types } => put_response(place, types),
        }
    }
}

/// Writes a PDU at the front of `out`, and gives the number of its bytes (MS-RDPEDYC section 2.2).
/// Ids and lengths have the smallest size that they fit, and the bits and bytes without a meaning
/// are zero.
///
/// Where a field does not fit it is [`NoRoom`], with that field's place and length, and `out`
/// stays as it was. `DvcPdu::Data { id: 1, bytes: b"abc" }` is written as `30 01 61 62 63`.
pub fn write_dvc(pdu: &DvcPdu<'_>, out: &mut [u8]) -> Result<usize, NoRoom>
    requires { (from : Role) × Fits from (pdu_of pdu.now) }
    ensures ok { let text = spelled (pdu_of pdu.now) in IfOk result (λ n. (n ≡ length text) × (out.new ≡ text ++ drop n out.old)) }
    ensures no_room { IfErr result (λ e. puts (fields (pdu_of pdu.now)) (record { before = []; after = out.old }) ≡ Err e) }
    ensures unchanged { OnErr result (out.new ≡ out.old) }
{
    mt_base::write(pdu, out)
}

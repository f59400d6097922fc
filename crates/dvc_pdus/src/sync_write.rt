//! Writing Soft-Sync PDUs (MS-RDPEDYC section 2.2.5).

ghost use Rattle.std.specs.Prelude.{◌≡◌, ◌+◌, ◌<◌, ◌^◌, ◌++◌, ◌∷◌, [], length, drop, All, IfOk, IfErr, OnOk, OnErr, Err};
ghost use Rattle.byteorder.specs.Endian.{little_bytes};
ghost use Rattle.mt_base.specs.Filling.{Fills, fills};
ghost use Rattle.mt_base.specs.Writing.{joined};
ghost use Rattle.mt_base.specs.declared.kinds.Role.{Role};
ghost use Rattle.mt_base.specs.declared.kinds.Role.TheVariants.{Server};
ghost use Rattle.mt_base.specs.declared.kinds.Kind.TheVariants.{Reliable, Lossy};
ghost use Rattle.dvc_pdus.specs.Value.{SyncRequest, SyncResponse, Fits, IsList, fields, spelled, tunnel_type, type_field, type_fields, id_fields, list_fields, lists_fields, sync_length, list_to, lists_of, sync_request};
ghost use Rattle.dvc_pdus.specs.ListViews.{ids_left, list_of, lists_left, types_left};

use crate::command::{SYNC_REQUEST, SYNC_RESPONSE};
use crate::lists::{Ids, SyncList, SyncLists, SyncTypes};
use mt_base::{Kind, NoRoom, Place};

/// The code of a kind of tunnel.
pub(crate) fn tunnel_type(kind: Kind) -> u32
    ensures { result ≡ tunnel_type kind }
{
    match kind {
        Kind::Reliable => 1,
        Kind::Lossy => 3,
    }
}

/// The bytes of lists.
fn lists_length(lists: SyncLists<'_>) -> usize
    requires { sync_length (lists_left lists) < 2 ^ 32 }
    ensures { result ≡ length (joined (lists_fields (lists_left lists.entry))) }
{
    let mut length = 0;
    for list in lists {
        length += 6 + 4 * list.ids.len();
    }
    length
}

/// Puts channel ids.
fn put_ids<P: Place>(place: &mut P, ids: Ids<'_>) -> Result<(), NoRoom>
    ensures same { P.lent place.new ≡ P.lent place.old }
    ensures filled { Fills (P.filling place.new) result (fills (id_fields (ids_left ids.entry)) (P.filling place.old)) }
{
    for id in ids {
        place.put_u32_le(id)?;
    }
    Ok(())
}

/// Puts a list of channels.
fn put_list<P: Place>(place: &mut P, list: SyncList<'_>) -> Result<(), NoRoom>
    requires { IsList (list_of list) }
    ensures same { P.lent place.new ≡ P.lent place.old }
    ensures filled { Fills (P.filling place.new) result (fills (list_fields (list_of list.entry)) (P.filling place.old)) }
{
    place.put_u32_le(tunnel_type(list.kind))?;
    place.put_u16_le(list.ids.len() as u16)?;
    put_ids(place, list.ids)
}

/// Puts lists of channels.
fn put_lists<P: Place>(place: &mut P, lists: SyncLists<'_>) -> Result<(), NoRoom>
    requires { All IsList (lists_left lists) }
    ensures same { P.lent place.new ≡ P.lent place.old }
    ensures filled { Fills (P.filling place.new) result (fills (lists_fields (lists_left lists.entry)) (P.filling place.old)) }
{
    for list in lists {
        put_list(place, list)?;
    }
    Ok(())
}

/// Puts the fields of a request in order.
pub(crate) fn put_request<P: Place>(
    place: &mut P,
    flags: u16,
    tunnels: u16,
    lists: SyncLists<'_>,
) -> Result<(), NoRoom>
    requires { (from : Role) × Fits from (SyncRequest flags tunnels (lists_left lists)) }
    ensures same { P.lent place.new ≡ P.lent place.old }
    ensures filled { Fills (P.filling place.new) result (fills (fields (SyncRequest flags tunnels (lists_left lists.entry))) (P.filling place.old)) }
{
    put_front(place, 8 + lists_length(lists), flags, tunnels)?;
    put_lists(place, lists)
}

/// Puts what stands before the lists of a request, of which its Length counts so many bytes.
pub(crate) fn put_front<P: Place>(
    place: &mut P,
    length: usize,
    flags: u16,
    tunnels: u16,
) -> Result<(), NoRoom>
    requires { length < 2 ^ 32 }
    ensures same { P.lent place.new ≡ P.lent place.old }
    ensures filled { Fills (P.filling place.new) result (fills ((0x80 ∷ []) ∷ (0 ∷ []) ∷ little_bytes 4 length ∷ little_bytes 2 flags ∷ little_bytes 2 tunnels ∷ []) (P.filling place.old)) }
{
    place.put(&[SYNC_REQUEST * 16])?;
    place.put(&[0])?;
    place.put_u32_le(length as u32)?;
    place.put_u16_le(flags)?;
    place.put_u16_le(tunnels)
}

/// Puts the types of tunnels.
fn put_types<P: Place>(place: &mut P, types: SyncTypes<'_>) -> Result<(), NoRoom>
    ensures same { P.lent place.new ≡ P.lent place.old }
    ensures filled { Fills (P.filling place.new) result (fills (type_fields (types_left types.entry)) (P.filling place.old)) }
{
    for kind in types {
        place.put_u32_le(tunnel_type(kind))?;
    }
    Ok(())
}

/// Puts the fields of a response in order.
pub(crate) fn put_response<P: Place>(place: &mut P, types: SyncTypes<'_>) -> Result<(), NoRoom>
    requires { (from : Role) × Fits from (SyncResponse (types_left types)) }
    ensures same { P.lent place.new ≡ P.lent place.old }
    ensures filled { Fills (P.filling place.new) result (fills (fields (SyncResponse (types_left types.entry))) (P.filling place.old)) }
{
    place.put(&[SYNC_RESPONSE * 16])?;
    place.put(&[0])?;
    place.put_u32_le(types.len() as u32)?;
    put_types(place, types)
}

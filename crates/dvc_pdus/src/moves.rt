//! Writing the Soft-Sync request that moves channels, and its answer (MS-RDPEDYC sections 2.2.5.1 and
//! 2.2.5.2).

ghost use Rattle.std.specs.Prelude.{◌≡◌, ◌+◌, ◌<◌, ◌≤◌, ◌^◌, ◌++◌, [], length, drop, IfOk, IfErr, OnErr, Err};
ghost use Rattle.mt_base.specs.Filling.{Fills, fills};
ghost use Rattle.mt_base.specs.Writing.{puts, joined};
ghost use Rattle.mt_base.specs.declared.kinds.Kind.{Kind};
ghost use Rattle.mt_base.specs.declared.kinds.Kind.TheVariants.{Reliable, Lossy};
ghost use Rattle.mt_base.specs.declared.kinds.Role.TheVariants.{Server, Client};
ghost use Rattle.dvc_pdus.specs.Moves.{channels_length};
ghost use Rattle.dvc_pdus.specs.Value.{Fits, SyncResponse, fields, spelled, id_fields, type_fields, lists_fields, list_to, lists_of, sync_length, sync_request};

use crate::command::SYNC_RESPONSE;
use crate::sync_write::{put_front, tunnel_type};
use mt_base::{Kind, NoRoom, Place, Spell};

/// The flags TCP_FLUSHED and CHANNEL_LIST_PRESENT.
const FLAGS: u16 = 0x03;

/// How many lists of these lengths there are: one for each kind of tunnel that gets a channel.
fn list_count(reliable: &[u32], lossy: &[u32]) -> u16
    ensures { result ≡ length (lists_of reliable.now lossy.now) }
{
    u16::from(!reliable.is_empty()) + u16::from(!lossy.is_empty())
}

/// The bytes of the list of these channels, where there are some.
fn channels_length(ids: &[u32]) -> usize
    ensures { result ≡ channels_length ids.now }
{
    if ids.is_empty() { 0 } else { 6 + 4 * ids.len() }
}

/// Puts channel ids.
fn put_each<P: Place>(place: &mut P, ids: &[u32]) -> Result<(), NoRoom>
    ensures same { P.lent place.new ≡ P.lent place.old }
    ensures filled { Fills (P.filling place.new) result (fills (id_fields ids.now) (P.filling place.old)) }
{
    for id in ids.iter() {
        place.put_u32_le(*id)?;
    }
    Ok(())
}

/// Puts the list of these channels, where there are some.
#[tactic(auto, using(crate::proofs::SyncMoves::channels_none, crate::proofs::SyncMoves::channels_some))]
fn put_channels<P: Place>(place: &mut P, kind: Kind, ids: &[u32]) -> Result<(), NoRoom>
    requires { length ids.now < 2 ^ 16 }
    ensures same { P.lent place.new ≡ P.lent place.old }
    ensures filled { Fills (P.filling place.new) result (fills (lists_fields (list_to kind ids.now)) (P.filling place.old)) }
{
    if ids.is_empty() {
        return Ok(());
    }
    place.put_u32_le(tunnel_type(kind))?;
    place.put_u16_le(ids.len() as u16)?;
    put_each(place, ids)
}

/// Puts the lists of the request.
#[tactic(auto, using(crate::proofs::SyncMoves::both_filled))]
fn put_lists<P: Place>(place: &mut P, reliable: &[u32], lossy: &[u32]) -> Result<(), NoRoom>
    requires reliable { length reliable.now < 2 ^ 16 }
    requires lossy { length lossy.now < 2 ^ 16 }
    ensures same { P.lent place.new ≡ P.lent place.old }
    ensures filled { Fills (P.filling place.new) result (fills (lists_fields (lists_of reliable.now lossy.now)) (P.filling place.old)) }
{
    put_channels(place, Kind::Reliable, reliable)?;
    put_channels(place, Kind::Lossy, lossy)
}

/// The Length that the request tells.
#[tactic(auto, using(crate::proofs::SyncMoves::both_bytes))]
fn sync_length(reliable: &[u32], lossy: &[u32]) -> usize
    requires { sync_length (lists_of reliable.now lossy.now) < 2 ^ 32 }
    ensures { result ≡ sync_length (lists_of reliable.now lossy.now) }
{
    8 + channels_length(reliable) + channels_length(lossy)
}

/// The request that moves these channels to a reliable and to a lossy tunnel.
#[derive(Clone, Copy)]
struct Moves<'a> {
    reliable: &'a [u32],
    lossy: &'a [u32],
}

impl Spell for Moves<'_> {
    ghost fields = { λ moves. fields (sync_request moves.reliable.now moves.lossy.now) };

    ghost fits = { λ moves. Fits Server (sync_request moves.reliable.now moves.lossy.now) };

    #[tactic(auto, using(crate::proofs::SyncMoves::short_lists))]
    fn spell<P: Place>(&self, place: &mut P) -> Result<(), NoRoom> {
        let tunnels = list_count(self.reliable, self.lossy);
        let length = sync_length(self.reliable, self.lossy);
        put_front(place, length, FLAGS, tunnels)?;
        put_lists(place, self.reliable, self.lossy)
    }
}

/// Writes at the front of `out` the Soft-Sync request that moves channels to a reliable and to a
/// lossy tunnel, and gives the number of its bytes. It has both flags and a list for each kind of
/// tunnel that gets a channel, the reliable one first.
///
/// Where a field does not fit it is [`NoRoom`], with that field's place and length, and `out`
/// stays as it was. Channel 7 and no other on a reliable tunnel is
/// `80 00 12 00 00 00 03 00 01 00 01 00 00 00 01 00 07 00 00 00`.
pub fn write_sync(reliable: &[u32], lossy: &[u32], out: &mut [u8]) -> Result<usize, NoRoom>
    requires { Fits Server (sync_request reliable.now lossy.now) }
    ensures ok { let text = spelled (sync_request reliable.now lossy.now) in IfOk result (λ n. (n ≡ length text) × (out.new ≡ text ++ drop n out.old)) }
    ensures no_room { IfErr result (λ e. puts (fields (sync_request reliable.now lossy.now)) (record { before = []; after = out.old }) ≡ Err e) }
    ensures unchanged { OnErr result (out.new ≡ out.old) }
{
    mt_base::write(&Moves { reliable, lossy }, out)
}

/// Puts the types of tunnels.
fn put_kinds<P: Place>(place: &mut P, kinds: &[Kind]) -> Result<(), NoRoom>
    ensures same { P.lent place.new ≡ P.lent place.old }
    ensures filled { Fills (P.filling place.new) result (fills (type_fields kinds.now) (P.filling place.old)) }
{
    for kind in kinds.iter() {
        place.put_u32_le(tunnel_type(*kind))?;
    }
    Ok(())
}

/// The answer to a request, which names these kinds of tunnel.
#[derive(Clone, Copy)]
struct Moved<'a> {
    kinds: &'a [Kind],
}

impl Spell for Moved<'_> {
    ghost fields = { λ moved. fields (SyncResponse moved.kinds.now) };

    ghost fits = { λ moved. Fits Client (SyncResponse moved.kinds.now) };

    fn spell<P: Place>(&self, place: &mut P) -> Result<(), NoRoom> {
        place.put(&[SYNC_RESPONSE * 16])?;
        place.put(&[0])?;
        place.put_u32_le(self.kinds.len() as u32)?;
        put_kinds(place, self.kinds)
    }
}

/// Writes at the front of `out` the Soft-Sync response that names these kinds of tunnel, in this
/// order, and gives the number of its bytes.
///
/// Where a field does not fit it is [`NoRoom`], with that field's place and length, and `out`
/// stays as it was. The answer that names a reliable tunnel and no other is
/// `90 00 01 00 00 00 01 00 00 00`.
pub fn write_sync_response(kinds: &[Kind], out: &mut [u8]) -> Result<usize, NoRoom>
    requires { Fits Client (SyncResponse kinds.now) }
    ensures ok { let text = spelled (SyncResponse kinds.now) in IfOk result (λ n. (n ≡ length text) × (out.new ≡ text ++ drop n out.old)) }
    ensures no_room { IfErr result (λ e. puts (fields (SyncResponse kinds.now)) (record { before = []; after = out.old }) ≡ Err e) }
    ensures unchanged { OnErr result (out.new ≡ out.old) }
{
    mt_base::write(&Moved { kinds }, out)
}

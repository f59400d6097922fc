//! A channel PDU is written on its path.

ghost use Rattle.std.specs.Prelude.{◌≡◌, ◌≤◌, length};
ghost use Rattle.end_session.specs.Closing.{HasRoom, written_on};

use crate::outgoing::Outgoing;
use soft_sync::Path;

/// Writes the bytes of a channel PDU on a path: as a frame of the main stream, or as data for the link
/// of a tunnel.
pub(crate) fn write_on(outgoing: &mut Outgoing, path: Path, pdu: &[u8])
    requires size { (1 ≤ length pdu.now) × (length pdu.now ≤ 1600) }
    requires room { HasRoom path (length pdu.now) outgoing.old }
    ensures { outgoing.new ≡ written_on path pdu.now outgoing.old }
{
    match path {
        Path::Main => outgoing.say(pdu),
        Path::Tunnel(kind) => outgoing.carry(kind, pdu),
    }
}

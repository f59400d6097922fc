//! What makes a datagram of a packet's fields.

ghost use Rattle.std.specs.Prelude.{◌≡◌, ◌+◌, ◌-◌, ◌≤◌, ◌++◌, length, take, drop, replicate};
ghost use Rattle.udp2_packets.specs.Layout.{kind, prefix, finished};
ghost use Rattle.udp2_packets.specs.Views.{body_of};

use crate::exchange::exchange;
use crate::packet::Body2;

/// The bytes that a datagram has at least.
const LEAST: usize = 8;

/// The prefix byte of a packet with so many bytes behind it.
fn prefix(body: &Body2<'_>, long: usize) -> u8
    ensures { result ≡ prefix 0 (kind (body_of body.now)) long }
{
    let kind = match body {
        Body2::Nothing | Body2::Data { .. } => 0,
        Body2::Dummy { .. } => 8,
    };
    2 * kind + 32 * long.min(7) as u8
}

/// Writes zeros up to eight bytes.
fn fill_up(end: usize, out: &mut [u8; 1232])
    requires { end ≤ 1232 }
    ensures { let zeros = replicate (8 - end) 0 in
        out.new ≡ take end out.old ++ (zeros ++ drop (end + (8 - end)) out.old) }
{
    if end < LEAST {
        out[end..LEAST].fill(0);
    }
}

/// Makes a datagram of the fields of a packet with this body, which stand in `out` up to `end`
/// behind the place of the prefix byte: writes the prefix byte, zeros up to eight bytes, and the
/// bytes at 0 and at 7 in each other's place (MS-RDPEUDP2 section 2.2). Gives the length of the
/// datagram.
pub fn finish2(body: &Body2<'_>, end: usize, out: &mut [u8; 1232]) -> usize
    requires some { 1 ≤ end }
    requires within { end ≤ 1232 }
    ensures { let datagram = finished (kind (body_of body.now)) (drop 1 (take end out.old)) in
        (result ≡ length datagram) × (out.new ≡ datagram ++ drop result out.old) }
{
    out[0] = prefix(body, end - 1);
    fill_up(end, out);
    exchange(out);
    end.max(LEAST)
}

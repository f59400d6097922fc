//! The exchange of two bytes of a datagram.

ghost use Rattle.std.specs.Prelude.{◌≡◌, ◌≤◌, length};
ghost use Rattle.udp2_packets.specs.Layout.{exchanged};

/// Puts the bytes at 0 and at 7 in each other's place.
pub fn exchange(bytes: &mut [u8])
    requires { 8 ≤ length bytes.old }
    ensures { bytes.new ≡ exchanged bytes.old }
{
    bytes.swap(0, 7);
}

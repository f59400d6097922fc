//! The flags of a packet's header (MS-RDPEUDP2 section 2.2).

ghost use Rattle.std.specs.Prelude.{◌≡◌};
ghost use Rattle.udp2_packets.specs.Layout.{has};

pub const ACK: u16 = 0x001;

pub const DATA: u16 = 0x004;

pub const ACKVEC: u16 = 0x008;

pub const AOA: u16 = 0x010;

pub const OVERHEADSIZE: u16 = 0x040;

pub const DELAYACKINFO: u16 = 0x100;

/// All others.
pub const UNKNOWN: u16 = 0xea2;

/// Whether one of these flags is set.
pub fn has(flags: u16, mask: u16) -> bool
    ensures { result ≡ has flags mask }
{
    flags & mask != 0
}

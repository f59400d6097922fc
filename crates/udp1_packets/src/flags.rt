//! The flags of a packet's header (MS-RDPEUDP section 2.2).

ghost use Rattle.std.specs.Prelude.{◌≡◌};
ghost use Rattle.udp1_packets.specs.Layout.{has};

pub const SYN: u16 = 0x0001;

pub const ACK: u16 = 0x0004;

pub const DATA: u16 = 0x0008;

pub const FEC: u16 = 0x0010;

pub const ACK_OF_ACKS: u16 = 0x0100;

pub const CORRELATION_ID: u16 = 0x0800;

pub const SYNEX: u16 = 0x1000;

/// What no opening carries: FIN, DATA, FEC, CN, CWR, SACK_OPTION and ACK_OF_ACKS.
pub const NOT_WITH_SYN: u16 = 0x01fa;

/// The flags that announce nothing in an opening, in a packet with data, and in any other.
pub const SYN_MARKS: u16 = 0xe600;

pub const DATA_MARKS: u16 = 0xfee2;

pub const BARE_MARKS: u16 = 0xfef2;

/// Whether one of these flags is set.
pub fn has(flags: u16, mask: u16) -> bool
    ensures { result ≡ has flags mask }
{
    flags & mask != 0
}

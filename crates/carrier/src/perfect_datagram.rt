//! The datagrams of perfect links: the number of a part in eight bytes, the lowest first, and the
//! part's bytes.

ghost use Rattle.std.specs.Prelude.{◌≡◌, ◌≤◌, length, IfOk};
ghost use Rattle.carrier.specs.Perfect.{number_of};

use crate::first_layout::Refusal1;
use crate::state::Reason;
use byteorder::{ByteOrder, LittleEndian};
use mt_base::Short;
use mt_windows::DATAGRAM;

/// How many bytes the number of a part has.
pub const HEADER: usize = 8;

/// The number of the part that a datagram shows.
pub fn read_number(datagram: &[u8]) -> Result<u64, Reason>
    ensures number { result ≡ number_of datagram.now }
    ensures long { IfOk result (λ n. HEADER ≤ length datagram.now) }
    ensures short { IfOk result (λ n. length datagram.now ≤ DATAGRAM) }
{
    if datagram.len() > DATAGRAM {
        return Err(Reason::TooLong);
    }
    if datagram.len() < HEADER {
        let short = Short {
            at: 0,
            need: HEADER,
        };
        return Err(Reason::First(Refusal1::Short(short)));
    }
    Ok(LittleEndian::read_u64(datagram))
}

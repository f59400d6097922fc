//! Fields at a place of a stream's front, which need not be whole.

ghost use Rattle.std.specs.Prelude.{◌≡◌, ◌+◌, ◌<◌, ◌≤◌, ◌^◌, length, IfOk, Ok, Err};
ghost use Rattle.byteorder.specs.Endian.{little_number};
ghost use Rattle.tunnel_pdus.specs.Reading.{Sees, byte, window, number, refused};

use crate::part::{TunnelReason, TunnelRefusal};
use byteorder::{ByteOrder, LittleEndian};

/// Why reading stops before the end of a value.
#[derive(Clone, Copy, Debug, PartialEq, Eq)]
pub(crate) enum Stop {
    /// The next field ends at this length, and is not there in full.
    More { need: usize },
    Refused(TunnelRefusal),
}

/// The stop at a fault.
pub(crate) fn refused(at: usize, reason: TunnelReason) -> Stop
    ensures { result ≡ refused at reason }
{
    Stop::Refused(TunnelRefusal { at, reason })
}

/// The `n` bytes at a place.
pub(crate) fn window(bytes: &[u8], at: usize, n: usize) -> Result<&[u8], Stop>
    requires { at + n < 2 ^ 32 }
    ensures seen { Sees (λ x. x.now) result (window at n bytes.now) }
    ensures long { IfOk result (λ x. length x.now ≡ n) }
{
    if bytes.len() < at + n {
        return Err(Stop::More { need: at + n });
    }
    Ok(&bytes[at..at + n])
}

/// The byte at a place.
pub(crate) fn byte(bytes: &[u8], at: usize) -> Result<u8, Stop>
    requires { at < 2 ^ 16 }
    ensures { Sees (λ x. x) result (byte at bytes.now) }
{
    let field = window(bytes, at, 1)?;
    Ok(field[0])
}

/// The number in two bytes at a place, the lowest byte first.
pub(crate) fn number(bytes: &[u8], at: usize) -> Result<usize, Stop>
    requires { at < 2 ^ 16 }
    ensures seen { Sees (λ x. x) result (number at bytes.now) }
    ensures small { IfOk result (λ n. n < 2 ^ 16) }
{
    let field = window(bytes, at, 2)?;
    Ok(usize::from(LittleEndian::read_u16(field)))
}

//! Bytes that are copied.

ghost use Rattle.std.specs.Prelude.{◌≡◌, length, OnOk};

use crate::crossing::PIECE;
use crate::fault::Fault;

/// Copies the bytes piece by piece, so many times, and looks at what arrived.
pub(crate) fn copy(bytes: &[u8], out: &mut [u8], times: u64) -> Result<(), Fault>
    requires { length out.old ≡ length bytes.now }
    ensures { OnOk result (out.new ≡ bytes.now) }
{
    for _time in 0..times {
        copy_once(bytes, out);
    }
    if *out == *bytes {
        Ok(())
    } else {
        Err(Fault::Wrong)
    }
}

/// Copies the bytes piece by piece.
fn copy_once(bytes: &[u8], out: &mut [u8])
    requires { length out.old ≡ length bytes.now }
    ensures { length out.new ≡ length bytes.now }
{
    let mut start = 0;
    while start < bytes.len() {
        let count = (bytes.len() - start).min(PIECE);
        out[start..start + count].copy_from_slice(&bytes[start..start + count]);
        start += count;
    }
}

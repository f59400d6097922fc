//! The flag of a number.

ghost use Rattle.std.specs.Prelude.{◌≡◌};
ghost use Rattle.coded_vector.specs.CodedBytes.{flags_of};
ghost use Rattle.coded_vector.specs.Numbers.{flag_told};

use crate::bytes::{flag_at, flag_count};

/// Whether `number` was received, told by coded bytes whose first flag is that of `base`; `None`
/// where no flag tells of it.
///
/// The bytes `c3 82` with the base 5 tell that 5 to 7 were received, and 8 and 9 not.
pub fn told_coded(bytes: &[u8], base: u64, number: u64) -> Option<bool>
    ensures { result ≡ flag_told (flags_of bytes.now) base number }
{
    let mut before = number.checked_sub(base)?;
    for byte in bytes {
        let count = u64::from(flag_count(*byte));
        if before < count {
            return flag_at(*byte, before as u8);
        }
        before -= count;
    }
    None
}

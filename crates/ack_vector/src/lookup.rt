//! The flag of a number.

ghost use Rattle.std.specs.Prelude.{◌≡◌, All};
ghost use Rattle.ack_vector.specs.Elements.{IsGood, flags_of};
ghost use Rattle.ack_vector.specs.Numbers.{flag_told};

/// Whether datagram `number` was received, told by good elements whose last flag is that of
/// datagram `last`; `None` where no flag tells of it.
///
/// The elements `02 c3` with the last number 10 tell that 6 and 7 were received, and 8 to 10 not.
pub fn told(elements: &[u8], last: u64, number: u64) -> Option<bool>
    requires { All IsGood elements.now }
    ensures { result ≡ flag_told (flags_of elements.now) last number }
{
    let mut after = last.checked_sub(number)?;
    let mut rest = elements;
    while let Some((element, before)) = rest.split_last() {
        let count = u64::from(element & 0x3f);
        if after < count {
            return Some(element >> 6 == 0);
        }
        after -= count;
        rest = before;
    }
    None
}

//! One coded byte.

ghost use Rattle.std.specs.Prelude.{◌≡◌, ◌<◌, ◌≤◌, OnSome, length, slice_get};
ghost use Rattle.coded_vector.specs.CodedBytes.{flags_in};

/// How many flags a byte has.
pub(crate) fn flag_count(byte: u8) -> u8
    ensures exact { result ≡ length (flags_in byte) }
    ensures short { result ≤ 63 }
{
    if byte < 0x80 { 7 } else { byte & 0x3f }
}

/// The flag of a byte that so many flags come before.
pub(crate) fn flag_at(byte: u8, index: u8) -> Option<bool>
    ensures flag { result ≡ slice_get (flags_in byte) index }
    ensures within { OnSome result (index < 63) }
{
    if index >= flag_count(byte) {
        None
    } else if byte < 0x80 {
        Some(byte >> index & 1 == 1)
    } else {
        Some(byte >= 0xc0)
    }
}

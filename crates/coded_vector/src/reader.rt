//! Coded bytes as flags.

ghost use Rattle.std.specs.Prelude.{◌≡◌, ◌^◌, ◌<◌, length};
ghost use Rattle.std.specs.List.{enumerate_from};
ghost use Rattle.coded_vector.specs.CodedBytes.{flags_of};
ghost use Rattle.coded_vector.specs.CodedView.{coded_left};

use crate::flags::Coded;

/// The flags of coded bytes, each with its offset from 0 on.
///
/// The bytes `c3 05` are three flags of a run and seven of a byte: four were received, one was
/// not, one was, four were not. Every list of bytes is a coded vector.
pub fn read_coded(bytes: &[u8]) -> Coded<'_>
    requires { length bytes.now < 2 ^ 58 }
    ensures { coded_left result ≡ enumerate_from 0 (flags_of bytes.now) }
{
    Coded::new(bytes)
}

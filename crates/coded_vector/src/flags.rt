//! An iterator over the flags of coded bytes.

ghost use Rattle.std.specs.Prelude.{◌≡◌, ◌+◌, ◌*◌, ◌^◌, ◌<◌, ◌≤◌, length};

use crate::bytes::flag_at;

/// The flags of coded bytes, the lowest number first, each with its offset from the base number.
#[derive(Debug, Drop)]
pub struct Coded<'a> {
    bytes: &'a [u8],
    /// How many flags of the first byte were given.
    taken: u8,
    /// How many flags were given.
    offset: u64,
    ghost in_byte: { taken ≤ 63 },
    ghost few: { offset + 63 * length bytes.now ≤ 63 * 2 ^ 58 + taken },
}

impl<'a> Coded<'a> {
    ghost use Rattle.std.specs.List.{enumerate_from};
    ghost use Rattle.coded_vector.specs.CodedBytes.{flags_of};
    ghost use Rattle.coded_vector.specs.CodedView.{coded_left};

    pub(crate) fn new(bytes: &'a [u8]) -> Coded<'a>
        requires { length bytes.now < 2 ^ 58 }
        ensures { coded_left result ≡ enumerate_from 0 (flags_of bytes.entry.now) }
    {
        Coded {
            bytes,
            taken: 0,
            offset: 0,
        }
    }
}

impl<'a> Iterator for Coded<'a> {
    ghost use Rattle.std.specs.Iterator.{YieldsFirst, item_count};
    ghost use Rattle.coded_vector.specs.CodedView.{coded_left};

    type Item = (u64, bool);

    ghost next_gives = { YieldsFirst coded_left };

    ghost remaining = { item_count coded_left };

    fn next(&mut self) -> Option<(u64, bool)> {
        while let Some((byte, rest)) = self.bytes.split_first() {
            if let Some(received) = flag_at(*byte, self.taken) {
                let offset = self.offset;
                self.taken += 1;
                self.offset += 1;
                return Some((offset, received));
            }
            self.bytes = rest;
            self.taken = 0;
        }
        None
    }
}

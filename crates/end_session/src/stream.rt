//! The value under way in a stream.

use std::marker::Model;

/// How far a stream was read: the place at which the value under way begins, the greatest `u64` where
/// it is above that, and its bytes so far. They are at most 1,855: a tunnel PDU has a header of at most
/// 255 bytes with its sub-headers, and 1,600 bytes of data; a frame has fewer.
#[derive(Drop)]
pub struct Stream {
    at: u64,
    bytes: [u8; 1855],
    length: usize,
}

impl Model for Stream {
    ghost use Rattle.std.specs.Prelude.{◌≤◌, take};
    ghost use Rattle.end_calls.specs.Streams.{Under};

    ghost Value = { Under };

    ghost view = { λ s. record { at = s.at; bytes = take s.length s.bytes } };

    ghost invariant = { λ s. s.length ≤ 1855 };
}

impl Stream {
    ghost use Rattle.std.specs.Prelude.{◌≡◌, ◌+◌, ◌≤◌, ◌++◌, [], length, take, min};
    ghost use Rattle.end_calls.specs.Streams.{none_yet, told_place};

    /// A stream of which nothing was read.
    pub fn new() -> Stream
        ensures { result ≡ none_yet }
    {
        Stream {
            at: 0,
            bytes: [0; 1855],
            length: 0,
        }
    }

    /// Where the value under way begins.
    pub fn at(&self) -> u64
        ensures { result ≡ self.now.at }
    {
        self.at
    }

    /// The bytes of the value under way.
    pub fn bytes(&self) -> &[u8]
        ensures bytes { result.now ≡ self.now.bytes }
        ensures bound { length result.now ≤ 1855 }
    {
        &self.bytes[..self.length]
    }

    /// Takes as many of these bytes as are wanted, and gives their number.
    pub fn take(&mut self, bytes: &[u8], wanted: usize) -> usize
        requires { length self.old.bytes + wanted ≤ 1855 }
        ensures count { result ≡ min (length bytes.now) wanted }
        ensures bytes { self.new ≡ record self.old { bytes = self.old.bytes ++ take result bytes.now } }
    {
        let count = bytes.len().min(wanted);
        let end = self.length + count;
        self.bytes[self.length..end].copy_from_slice(&bytes[..count]);
        self.length = end;
        count
    }

    /// The value under way is read: the next one begins behind it.
    pub fn pass(&mut self)
        ensures { self.new ≡ record { at = told_place (self.old.at + length self.old.bytes); bytes = [] } }
    {
        self.at = self.at.saturating_add(self.length as u64);
        self.length = 0;
    }
}

//! A cursor over the bytes that are left to read.

ghost use Rattle.std.specs.Prelude.{◌≡◌, ◌+◌, ◌<◌, ◌^◌, length, ℕ};

use crate::errors::Short;
use byteorder::{BigEndian, ByteOrder, LittleEndian};

/// Reads fields from the front of a slice, one after the other.
///
/// A read gives the field and moves past it. Where fewer bytes are left than the field has, it is
/// [`Short`] with the field's place and length, and the cursor stays as it was.
#[derive(Drop)]
pub struct Cursor<'a> {
    bytes: &'a [u8],
    at: usize,
    ghost fits: { at + length bytes.now < 2 ^ 64 },
}

impl<'a> Cursor<'a> {
    ghost use Rattle.std.specs.Prelude.{◌≡◌};
    ghost use Rattle.mt_base.specs.Reading.{Gives, block, big, little};
    ghost use Rattle.mt_base.specs.CursorView.{left};

    /// A cursor at the first byte.
    pub fn new(bytes: &'a [u8]) -> Cursor<'a>
        ensures { left result ≡ record { at = 0; bytes = bytes.entry.now } }
    {
        Cursor { bytes, at: 0 }
    }

    /// The next `n` bytes, borrowed from the slice.
    pub fn take(&mut self, n: usize) -> Result<&'a [u8], Short>
        ensures { Gives (λ x. x.now) (left self.old) (left self.new) result (block n (left self.old)) }
    {
        if self.bytes.len() < n {
            return Err(Short {
                at: self.at,
                need: n,
            });
        }
        let (front, rest) = self.bytes.split_at(n);
        self.bytes = rest;
        self.at += n;
        Ok(front)
    }

    /// The next byte.
    pub fn u8(&mut self) -> Result<u8, Short>
        ensures { Gives (λ x. x) (left self.old) (left self.new) result (big 1 (left self.old)) }
    {
        let front = self.take(1)?;
        Ok(front[0])
    }

    /// The next two bytes as a number, the highest byte first.
    pub fn u16_be(&mut self) -> Result<u16, Short>
        ensures { Gives (λ x. x) (left self.old) (left self.new) result (big 2 (left self.old)) }
    {
        let front = self.take(2)?;
        Ok(BigEndian::read_u16(front))
    }

    /// The next four bytes as a number, the highest byte first.
    pub fn u32_be(&mut self) -> Result<u32, Short>
        ensures { Gives (λ x. x) (left self.old) (left self.new) result (big 4 (left self.old)) }
    {
        let front = self.take(4)?;
        Ok(BigEndian::read_u32(front))
    }

    /// The next two bytes as a number, the lowest byte first.
    pub fn u16_le(&mut self) -> Result<u16, Short>
        ensures { Gives (λ x. x) (left self.old) (left self.new) result (little 2 (left self.old)) }
    {
        let front = self.take(2)?;
        Ok(LittleEndian::read_u16(front))
    }

    /// The next three bytes as a number, the lowest byte first.
    pub fn u24_le(&mut self) -> Result<u32, Short>
        ensures { Gives (λ x. x) (left self.old) (left self.new) result (little 3 (left self.old)) }
    {
        let front = self.take(3)?;
        Ok(LittleEndian::read_u24(front))
    }

    /// The next four bytes as a number, the lowest byte first.
    pub fn u32_le(&mut self) -> Result<u32, Short>
        ensures { Gives (λ x. x) (left self.old) (left self.new) result (little 4 (left self.old)) }
    {
        let front = self.take(4)?;
        Ok(LittleEndian::read_u32(front))
    }

    /// All bytes that are left; the cursor stays where it is.
    pub fn rest(&self) -> &'a [u8]
        ensures { result.now ≡ (left self.now).bytes }
    {
        self.bytes
    }

    /// The byte offset of the next field.
    pub fn at(&self) -> usize
        ensures { result ≡ (left self.now).at }
    {
        self.at
    }
}

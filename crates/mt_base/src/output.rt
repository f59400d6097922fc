//! A place in a buffer where the next field is written.

ghost use Rattle.std.specs.Prelude.{◌≡◌, ◌+◌, ◌<◌, ◌≤◌, ◌^◌, length, ℕ};

use crate::errors::NoRoom;
use crate::place::Place;

/// Writes fields into a buffer, one after the other.
///
/// A write puts the field at the place and moves behind it. Where the field does not fit, it is
/// [`NoRoom`] with the place and the field's length, and nothing is changed.
#[derive(Drop)]
pub struct Out<'a> {
    bytes: &'a mut [u8],
    at: usize,
    ghost within: { at ≤ length bytes.now },
}

impl<'a> Out<'a> {
    ghost use Rattle.std.specs.Prelude.{◌≡◌, ◌<◌, ◌^◌, OnErr, [], replicate};
    ghost use Rattle.byteorder.specs.Endian.{big_bytes, little_bytes};
    ghost use Rattle.mt_base.specs.Writing.{Writes, put};
    ghost use Rattle.mt_base.specs.OutView.{spot};

    /// A place at the buffer's first byte.
    pub fn new(bytes: &'a mut [u8]) -> Out<'a>
        ensures same { result.bytes.ghost_name ≡ bytes.entry.ghost_name }
        ensures start { spot result ≡ record { before = []; after = bytes.entry.now } }
    {
        Out { bytes, at: 0 }
    }

    /// How many bytes were written.
    pub fn at(&self) -> usize
        ensures { result ≡ length (spot self.now).before }
    {
        self.at
    }

    /// Writes these bytes.
    pub fn put(&mut self, bytes: &[u8]) -> Result<(), NoRoom>
        ensures same { self.new.bytes.ghost_name ≡ self.old.bytes.ghost_name }
        ensures written { Writes (spot self.new) result (put bytes.now (spot self.old)) }
        ensures unchanged { OnErr result (spot self.new ≡ spot self.old) }
    {
        if self.bytes.len() - self.at < bytes.len() {
            return Err(NoRoom {
                at: self.at,
                need: bytes.len(),
            });
        }
        let end = self.at + bytes.len();
        self.bytes[self.at..end].copy_from_slice(bytes);
        self.at = end;
        Ok(())
    }

    /// Writes so many zeros, as one field.
    pub fn put_zeros(&mut self, count: usize) -> Result<(), NoRoom>
        ensures same { self.new.bytes.ghost_name ≡ self.old.bytes.ghost_name }
        ensures written { Writes (spot self.new) result (put (replicate count 0) (spot self.old)) }
        ensures unchanged { OnErr result (spot self.new ≡ spot self.old) }
    {
        if self.bytes.len() - self.at < count {
            return Err(NoRoom {
                at: self.at,
                need: count,
            });
        }
        self.bytes[self.at..self.at + count].fill(0);
        self.at += count;
        Ok(())
    }

    /// Writes a byte.
    pub fn put_u8(&mut self, value: u8) -> Result<(), NoRoom>
        ensures same { self.new.bytes.ghost_name ≡ self.old.bytes.ghost_name }
        ensures written { Writes (spot self.new) result (put (big_bytes 1 value) (spot self.old)) }
        ensures unchanged { OnErr result (spot self.new ≡ spot self.old) }
    {
        Place::put_u8(self, value)
    }

    /// Writes a number in two bytes, the highest first.
    pub fn put_u16_be(&mut self, value: u16) -> Result<(), NoRoom>
        ensures same { self.new.bytes.ghost_name ≡ self.old.bytes.ghost_name }
        ensures written { Writes (spot self.new) result (put (big_bytes 2 value) (spot self.old)) }
        ensures unchanged { OnErr result (spot self.new ≡ spot self.old) }
    {
        Place::put_u16_be(self, value)
    }

    /// Writes a number in four bytes, the highest first.
    pub fn put_u32_be(&mut self, value: u32) -> Result<(), NoRoom>
        ensures same { self.new.bytes.ghost_name ≡ self.old.bytes.ghost_name }
        ensures written { Writes (spot self.new) result (put (big_bytes 4 value) (spot self.old)) }
        ensures unchanged { OnErr result (spot self.new ≡ spot self.old) }
    {
        Place::put_u32_be(self, value)
    }

    /// Writes a number in two bytes, the lowest first.
    pub fn put_u16_le(&mut self, value: u16) -> Result<(), NoRoom>
        ensures same { self.new.bytes.ghost_name ≡ self.old.bytes.ghost_name }
        ensures written { Writes (spot self.new) result (put (little_bytes 2 value) (spot self.old)) }
        ensures unchanged { OnErr result (spot self.new ≡ spot self.old) }
    {
        Place::put_u16_le(self, value)
    }

    /// Writes a number below 2^24 in three bytes, the lowest first.
    pub fn put_u24_le(&mut self, value: u32) -> Result<(), NoRoom>
        requires { value < 2 ^ 24 }
        ensures same { self.new.bytes.ghost_name ≡ self.old.bytes.ghost_name }
        ensures written { Writes (spot self.new) result (put (little_bytes 3 value) (spot self.old)) }
        ensures unchanged { OnErr result (spot self.new ≡ spot self.old) }
    {
        Place::put_u24_le(self, value)
    }

    /// Writes a number in four bytes, the lowest first.
    pub fn put_u32_le(&mut self, value: u32) -> Result<(), NoRoom>
        ensures same { self.new.bytes.ghost_name ≡ self.old.bytes.ghost_name }
        ensures written { Writes (spot self.new) result (put (little_bytes 4 value) (spot self.old)) }
        ensures unchanged { OnErr result (spot self.new ≡ spot self.old) }
    {
        Place::put_u32_le(self, value)
    }
}

impl Place for Out<'_> {
    ghost use Rattle.mt_base.specs.Filling.{Written};
    ghost use Rattle.mt_base.specs.OutView.{spot};

    ghost filling = { λ o. Written (spot o) };

    ghost lent = { λ o. o.bytes.ghost_name };

    fn put(&mut self, bytes: &[u8]) -> Result<(), NoRoom> {
        self.put(bytes)
    }

    fn put_zeros(&mut self, count: usize) -> Result<(), NoRoom> {
        self.put_zeros(count)
    }
}

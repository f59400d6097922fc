//! A place where fields are put, be it in a buffer or in room that is only counted.

ghost use Rattle.std.specs.Prelude.{◌≡◌, ◌<◌, ◌^◌, OnErr, ℕ, replicate};
ghost use Rattle.byteorder.specs.Endian.{big_bytes, little_bytes};
ghost use Rattle.mt_base.specs.Filling.{Filling, Fills, fill};

use crate::errors::NoRoom;
use byteorder::{BigEndian, ByteOrder, LittleEndian};

/// Where fields are put one after the other: an [`Out`](crate::Out), which writes them, or a
/// [`Room`](crate::Room), which counts them. A walk over a value's fields that is generic over
/// its place tells first whether all of them fit, and then writes them.
///
/// A put field is behind the place. Where it does not fit, it is [`NoRoom`] with the place and the
/// field's length, and nothing is changed.
pub trait Place {
    ghost filling: { Self → Filling };

    ghost lent: { Self → ℕ };

    /// Puts these bytes, as one field.
    fn put(&mut self, bytes: &[u8]) -> Result<(), NoRoom>
        ensures same { lent self.new ≡ lent self.old }
        ensures filled { Fills (filling self.new) result (fill bytes.now (filling self.old)) }
        ensures unchanged { OnErr result (filling self.new ≡ filling self.old) };

    /// Puts so many zeros, as one field.
    fn put_zeros(&mut self, count: usize) -> Result<(), NoRoom>
        ensures same { lent self.new ≡ lent self.old }
        ensures filled { Fills (filling self.new) result (fill (replicate count 0) (filling self.old)) }
        ensures unchanged { OnErr result (filling self.new ≡ filling self.old) };

    /// Puts a byte.
    fn put_u8(&mut self, value: u8) -> Result<(), NoRoom>
        ensures same { lent self.new ≡ lent self.old }
        ensures filled { Fills (filling self.new) result (fill (big_bytes 1 value) (filling self.old)) }
        ensures unchanged { OnErr result (filling self.new ≡ filling self.old) }
    {
        self.put(&[value])
    }

    /// Puts a number in two bytes, the highest first.
    fn put_u16_be(&mut self, value: u16) -> Result<(), NoRoom>
        ensures same { lent self.new ≡ lent self.old }
        ensures filled { Fills (filling self.new) result (fill (big_bytes 2 value) (filling self.old)) }
        ensures unchanged { OnErr result (filling self.new ≡ filling self.old) }
    {
        let mut field = [0; 2];
        BigEndian::write_u16(&mut field, value);
        self.put(&field)
    }

    /// Puts a number in four bytes, the highest first.
    fn put_u32_be(&mut self, value: u32) -> Result<(), NoRoom>
        ensures same { lent self.new ≡ lent self.old }
        ensures filled { Fills (filling self.new) result (fill (big_bytes 4 value) (filling self.old)) }
        ensures unchanged { OnErr result (filling self.new ≡ filling self.old) }
    {
        let mut field = [0; 4];
        BigEndian::write_u32(&mut field, value);
        self.put(&field)
    }

    /// Puts a number in two bytes, the lowest first.
    fn put_u16_le(&mut self, value: u16) -> Result<(), NoRoom>
        ensures same { lent self.new ≡ lent self.old }
        ensures filled { Fills (filling self.new) result (fill (little_bytes 2 value) (filling self.old)) }
        ensures unchanged { OnErr result (filling self.new ≡ filling self.old) }
    {
        let mut field = [0; 2];
        LittleEndian::write_u16(&mut field, value);
        self.put(&field)
    }

    /// Puts a number below 2^24 in three bytes, the lowest first.
    fn put_u24_le(&mut self, value: u32) -> Result<(), NoRoom>
        requires { value < 2 ^ 24 }
        ensures same { lent self.new ≡ lent self.old }
        ensures filled { Fills (filling self.new) result (fill (little_bytes 3 value) (filling self.old)) }
        ensures unchanged { OnErr result (filling self.new ≡ filling self.old) }
    {
        let mut field = [0; 3];
        LittleEndian::write_u24(&mut field, value);
        self.put(&field)
    }

    /// Puts a number in four bytes, the lowest first.
    fn put_u32_le(&mut self, value: u32) -> Result<(), NoRoom>
        ensures same { lent self.new ≡ lent self.old }
        ensures filled { Fills (filling self.new) result (fill (little_bytes 4 value) (filling self.old)) }
        ensures unchanged { OnErr result (filling self.new ≡ filling self.old) }
    {
        let mut field = [0; 4];
        LittleEndian::write_u32(&mut field, value);
        self.put(&field)
    }
}

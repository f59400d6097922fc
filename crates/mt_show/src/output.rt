//! The text that is shown, written word by word.

ghost use Rattle.std.specs.Prelude.{◌≡◌, ◌<◌, slice_index};
ghost use Rattle.hex.specs.Hex.{lower_digits};

use byteorder::{BigEndian, ByteOrder};
use itoa::Buffer;
use mt_base::NoMemory;
use mt_script::Text;
use std::alloc::Global;

/// The digits of base 16.
const DIGITS: [u8; 16] = *b"0123456789abcdef";

/// The digit of a value.
fn digit(value: u8) -> u8
    requires { value < 16 }
    ensures { result ≡ slice_index lower_digits value }
{
    DIGITS[usize::from(value)]
}

/// A text that is being written.
#[derive(Drop)]
pub(crate) struct Output {
    bytes: Vec<u8>,
}

impl Output {
    ghost use Rattle.std.specs.Prelude.{◌≡◌, ◌++◌, [], ◌∷◌, OnOk};
    ghost use Rattle.std.specs.Fmt.{decimal};
    ghost use Rattle.byteorder.specs.Endian.{big_bytes};
    ghost use Rattle.hex.specs.Hex.{encode_lower};
    ghost use Rattle.mt_script.specs.Spelling.{hex_text};
    ghost use Rattle.mt_show.specs.Words.{number_field, digits_field, wide_field, hex_field, fault_words};
    ghost use Rattle.mt_show.specs.Steps.{Adds, AddsWords};

    /// A text with no bytes.
    pub(crate) fn new(alloc: Global) -> Output
        ensures { result.bytes.items ≡ [] }
    {
        Output {
            bytes: Vec::new(alloc),
        }
    }

    /// The whole text.
    pub(crate) fn into_text(self) -> Text
        ensures { result ≡ self.bytes.items }
    {
        Text::from_vec(self.bytes)
    }

    /// Bytes as they are.
    pub(crate) fn put(&mut self, bytes: &[u8]) -> Result<(), NoMemory>
        ensures { OnOk result (Adds bytes.now self.old.bytes.items self.new.bytes.items) }
    {
        self.bytes.extend_from_slice(bytes)?;
        Ok(())
    }

    /// A number in decimal digits.
    pub(crate) fn put_decimal(&mut self, number: u64) -> Result<(), NoMemory>
        ensures { OnOk result (Adds (decimal number) self.old.bytes.items self.new.bytes.items) }
    {
        let mut buffer = Buffer::new();
        self.put(buffer.format(number).as_bytes())
    }

    /// Bytes as pairs of lower case digits.
    fn put_pairs(&mut self, bytes: &[u8]) -> Result<(), NoMemory>
        ensures { OnOk result (Adds (encode_lower bytes.now) self.old.bytes.items self.new.bytes.items) }
    {
        for byte in bytes {
            self.put(&[digit(*byte / 16), digit(*byte % 16)])?;
        }
        Ok(())
    }

    /// Bytes as pairs of lower case digits, or `-` where there are none.
    fn put_hex(&mut self, bytes: &[u8]) -> Result<(), NoMemory>
        ensures { OnOk result (Adds (hex_text bytes.now) self.old.bytes.items self.new.bytes.items) }
    {
        if bytes.is_empty() {
            self.put(b"-")
        } else {
            self.put_pairs(bytes)
        }
    }

    /// A word behind a blank.
    pub(crate) fn word(&mut self, word: &[u8]) -> Result<(), NoMemory>
        ensures { OnOk result (AddsWords (word.now ∷ []) self.old.bytes.items self.new.bytes.items) }
    {
        self.put(b" ")?;
        self.put(word)?;
        Ok(())
    }

    /// A field with a number.
    pub(crate) fn number(&mut self, name: &[u8], number: u64) -> Result<(), NoMemory>
        ensures { OnOk result (AddsWords (number_field name.now number ∷ []) self.old.bytes.items self.new.bytes.items) }
    {
        self.word(name)?;
        self.put_decimal(number)?;
        Ok(())
    }

    /// A field with a number of two bytes, in four digits.
    pub(crate) fn digits(&mut self, name: &[u8], number: u16) -> Result<(), NoMemory>
        ensures { OnOk result (AddsWords (digits_field name.now number ∷ []) self.old.bytes.items self.new.bytes.items) }
    {
        let mut bytes = [0; 2];
        BigEndian::write_u16(&mut bytes, number);
        self.word(name)?;
        self.put_pairs(&bytes)?;
        Ok(())
    }

    /// A field with a number of four bytes, in eight digits.
    pub(crate) fn wide_digits(&mut self, name: &[u8], number: u32) -> Result<(), NoMemory>
        ensures { OnOk result (AddsWords (wide_field name.now number ∷ []) self.old.bytes.items self.new.bytes.items) }
    {
        let mut bytes = [0; 4];
        BigEndian::write_u32(&mut bytes, number);
        self.word(name)?;
        self.put_pairs(&bytes)?;
        Ok(())
    }

    /// A field with bytes.
    pub(crate) fn hex(&mut self, name: &[u8], bytes: &[u8]) -> Result<(), NoMemory>
        ensures { OnOk result (AddsWords (hex_field name.now bytes.now ∷ []) self.old.bytes.items self.new.bytes.items) }
    {
        self.word(name)?;
        self.put_hex(bytes)?;
        Ok(())
    }

    /// The words of a fault with this name, at this place.
    pub(crate) fn fault(&mut self, name: &str, at: usize) -> Result<(), NoMemory>
        ensures { OnOk result (AddsWords (fault_words name.now at) self.old.bytes.items self.new.bytes.items) }
    {
        self.word(b"refused")?;
        self.word(name.as_bytes())?;
        self.word(b"at")?;
        self.number(b"", at as u64)?;
        Ok(())
    }
}

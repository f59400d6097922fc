//! The lines that tell of the files that came.

ghost use Rattle.std.specs.Prelude.{◌≡◌, ◌++◌, ◌∷◌, [], List, ℕ, IfOk, OnOk, OnErr, codes, flat_map};
ghost use Rattle.std.specs.Fmt.{decimal};
ghost use Rattle.hex.specs.Hex.{encode_lower};
ghost use Rattle.file_transfer.specs.Lines.{kept_line, done_line};

use crate::coming::KeptFile;
use mt_base::NoMemory;
use std::alloc::Global;

/// Lines that are being written.
#[derive(Drop)]
struct Page {
    alloc: Global,
    bytes: Vec<u8>,
}

impl Page {
    /// The line of a file: the mark, `got`, its name, its size and its SHA-256.
    fn got(&mut self, mark: &str, file: &KeptFile) -> Result<(), NoMemory>
        ensures { OnOk result (self.new.bytes.items ≡ self.old.bytes.items ++ kept_line mark.now file.now) }
    {
        self.words(mark.as_bytes())?;
        self.words(b"got ")?;
        self.words(file.name.as_bytes())?;
        self.words(b" ")?;
        self.number(file.size)?;
        self.words(b" ")?;
        self.digits(&file.digest)?;
        self.words(b"\n")?;
        Ok(())
    }

    /// A number in decimal digits.
    fn number(&mut self, number: u64) -> Result<(), NoMemory>
        ensures { OnOk result (self.new.bytes.items ≡ self.old.bytes.items ++ decimal number) }
    {
        let digits = number.to_string(self.alloc)?;
        self.words(digits.as_bytes())
    }

    /// A digest in lower case digits.
    fn digits(&mut self, digest: &[u8; 32]) -> Result<(), NoMemory>
        ensures { OnOk result (self.new.bytes.items ≡ self.old.bytes.items ++ encode_lower digest.now) }
    {
        let digits = hex::encode(self.alloc, digest)?;
        self.words(digits.as_bytes())
    }

    /// Bytes as they are.
    fn words(&mut self, words: &[u8]) -> Result<(), NoMemory>
        ensures { OnOk result (self.new.bytes.items ≡ self.old.bytes.items ++ words.now) }
    {
        self.bytes.extend_from_slice(words)?;
        Ok(())
    }
}

/// A line for each file, in order, and one that says `done`; the mark stands before each.
pub(crate) fn lines(alloc: Global, mark: &str, files: &[KeptFile]) -> Result<Vec<u8>, NoMemory>
    ensures { IfOk result (λ text. text.items ≡ flat_map (kept_line mark.now) files.now ++ done_line mark.now) }
{
    let mut page = Page {
        alloc,
        bytes: Vec::new(alloc),
    };
    for file in files {
        page.got(mark, file)?;
    }
    page.words(mark.as_bytes())?;
    page.words(b"done\n")?;
    Ok(page.bytes)
}

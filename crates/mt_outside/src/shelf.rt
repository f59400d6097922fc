//! The files of a store in memory.

ghost use Rattle.std.specs.Prelude.{◌≡◌, ℕ, ◌<◌, length, IfSome, List, [], None, IsErr, OnOk, OnErr, option_copied};
ghost use Rattle.std.specs.List.{position_from};
ghost use Rattle.mt_outside.specs.Shelf.{is_named};
ghost use Rattle.mt_outside.specs.Files.{file_of, replaced, grown};

use crate::failed::Failed;
use mt_base::NoMemory;
use std::alloc::Global;
use std::marker::Model;

/// A name and the bytes of its file.
#[derive(Drop)]
struct File {
    name: String,
    bytes: Vec<u8>,
}

/// Where the first file of this name stands.
fn place(files: &[File], name: &str) -> Option<usize>
    ensures first { result ≡ position_from (is_named name.now) 0 files.now }
    ensures inside { IfSome result (λ at. at < length files.now) }
{
    for (at, file) in files.iter().enumerate() {
        if file.name.as_str() == name {
            return Some(at);
        }
    }
    None
}

/// Files in memory, by name. Clauses see the names with the bytes, in the order in which they were
/// made.
#[derive(Drop)]
pub(crate) struct Shelf {
    alloc: Global,
    files: Vec<File>,
}

impl Model for Shelf {
    ghost use Rattle.std.specs.Prelude.{ℕ, List, map};
    ghost use Rattle.mt_outside.specs.Shelf.{shown};

    ghost Value = { List (List ℕ × List ℕ) };

    ghost view = { λ s. map shown s.files.items };
}

impl Shelf {
    pub(crate) fn new(alloc: Global) -> Shelf
        ensures { result ≡ [] }
    {
        Shelf {
            alloc,
            files: Vec::new(alloc),
        }
    }

    /// The bytes of the file of this name, where there is one.
    pub(crate) fn content(&self, name: &str) -> Option<&[u8]>
        ensures { option_copied result ≡ file_of self.now name.now }
    {
        match place(self.files.as_slice(), name) {
            Some(at) => Some(self.files[at].bytes.as_slice()),
            None => None,
        }
    }

    /// Makes or replaces a file. Where no memory is found nothing changes.
    pub(crate) fn put(&mut self, name: &str, bytes: &[u8]) -> Result<(), NoMemory>
        ensures put { OnOk result
            (file_of self.new ≡ replaced name.now bytes.now (file_of self.old)) }
        ensures same { OnErr result (self.new ≡ self.old) }
    {
        let Ok(bytes) = Vec::from_slice(self.alloc, bytes) else {
            return Err(NoMemory);
        };
        if let Some(at) = place(self.files.as_slice(), name) {
            self.files[at].bytes = bytes;
            return Ok(());
        }
        let Ok(name) = String::from_str(self.alloc, name) else {
            return Err(NoMemory);
        };
        let Ok(()) = self.files.push(File { name, bytes }) else {
            return Err(NoMemory);
        };
        Ok(())
    }

    /// Writes bytes at the end of a file. Where there is none, or no memory is found, it is
    /// `Failed` and nothing changes.
    pub(crate) fn grow(&mut self, name: &str, bytes: &[u8]) -> Result<(), Failed>
        ensures grown { OnOk result
            (file_of self.new ≡ grown name.now bytes.now (file_of self.old)) }
        ensures same { OnErr result (self.new ≡ self.old) }
        ensures missing { file_of self.old name.now ≡ None → IsErr result }
    {
        let Some(at) = place(self.files.as_slice(), name) else {
            return Err(Failed);
        };
        let Ok(()) = self.files[at].bytes.extend_from_slice(bytes) else {
            return Err(Failed);
        };
        Ok(())
    }
}

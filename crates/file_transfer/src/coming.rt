//! A file that comes, piece by piece, and what is known of one that came.

ghost use Rattle.std.specs.Prelude.{◌≡◌, ◌++◌, [], List, ℕ, string_bytes, IfOk};
ghost use Rattle.file_messages.specs.Files.{File};

use mt_base::NoMemory;
use sha2::{Digest, Sha256};
use std::alloc::Global;

/// What is known of a file that came whole: its name, its size in bytes, which stands at the greatest number of 64 bits,
/// and the SHA-256 of its content.
#[derive(Drop)]
pub struct KeptFile {
    pub name: String,
    pub size: u64,
    pub digest: [u8; 32],
}

/// A file that comes.
#[derive(Drop)]
pub(crate) struct Coming {
    name: String,
    /// Its name in the store.
    path: String,
    size: u64,
    hasher: Sha256,
}

impl Coming {
    ghost use Rattle.file_transfer.specs.Keeping.{IsComing, IsKept, with_bytes};

    /// A file of this name, of which nothing has come. In the store the prefix stands before its name.
    pub(crate) fn new(alloc: Global, prefix: &str, name: &str) -> Result<Coming, NoMemory>
        ensures { IfOk result (λ coming. IsComing prefix.now coming (record { name = name.now; content = [] })) }
    {
        let mut path = String::from_str(alloc, prefix)?;
        path.push_str(name)?;
        Ok(Coming {
            name: String::from_str(alloc, name)?,
            path,
            size: 0,
            hasher: Sha256::new(),
        })
    }

    /// Its name in the store.
    pub(crate) fn path(&self) -> &str
        ensures { result.now ≡ string_bytes (self.now).path }
    {
        self.path.as_str()
    }

    /// These bytes came.
    pub(crate) fn add(&mut self, bytes: &[u8])
        ensures { (prefix : List ℕ) (file : File) → IsComing prefix self.old file → IsComing prefix self.new (with_bytes bytes.now file) }
    {
        self.size = self.size.saturating_add(bytes.len() as u64);
        self.hasher.update(bytes);
    }

    /// It is whole.
    pub(crate) fn finish(self) -> KeptFile
        ensures { (prefix : List ℕ) (file : File) → IsComing prefix self file → IsKept result file }
    {
        let Coming {
            name,
            path: _,
            size,
            hasher,
        } = self;
        KeptFile {
            name,
            size,
            digest: hasher.finalize(),
        }
    }
}

//! A file that an end sends.

use file_messages::sent_name;
use mt_base::NoMemory;
use std::alloc::Global;
use std::marker::Model;

/// A file by its path in the store, with the name under which it is sent: the last part of its path. Clauses see the
/// bytes of both.
#[derive(Drop)]
pub struct OwnFile {
    path: String,
    name: String,
}

impl Model for OwnFile {
    ghost use Rattle.std.specs.Prelude.{string_bytes};
    ghost use Rattle.file_transfer.specs.Own.{Own, IsOwn};

    ghost Value = { Own };

    ghost view = { λ f. record { path = string_bytes f.path; name = string_bytes f.name } };

    ghost invariant = { λ f. IsOwn (string_bytes f.path) (string_bytes f.name) };
}

/// Why there is no [`OwnFile`] of a path.
#[derive(Clone, Copy, Debug, PartialEq, Eq)]
pub enum PathRefusal {
    /// What stands behind its last `/` is no name that a file may be sent under.
    NoName,
    NoMemory,
}

impl OwnFile {
    ghost use Rattle.std.specs.Prelude.{◌≡◌, ℕ, List, IfOk, IsErrOf};
    ghost use Rattle.file_messages.specs.Files.{IsName};
    ghost use Rattle.file_messages.specs.Names.{IsLastPart};
    ghost use Rattle.file_transfer.specs.Own.{IsOwn};
    ghost use Rattle.file_transfer.specs.declared.own_file.PathRefusal.{PathRefusal};

    /// The file of this path.
    pub fn new(alloc: Global, path: &str) -> Result<OwnFile, PathRefusal>
        ensures path { IfOk result (λ file. file.path ≡ path.now) }
        ensures is_own { IfOk result (λ file. IsOwn file.path file.name) }
        ensures no_name { IsErrOf result PathRefusal.NoName → (name : List ℕ) → IsLastPart path.now name → ¬ IsName name }
    {
        let Some(name) = sent_name(path) else {
            return Err(PathRefusal::NoName);
        };
        let Ok(name) = String::from_str(alloc, name) else {
            return Err(PathRefusal::NoMemory);
        };
        let Ok(path) = String::from_str(alloc, path) else {
            return Err(PathRefusal::NoMemory);
        };
        Ok(OwnFile { path, name })
    }

    /// Its path in the store.
    pub fn path(&self) -> &str
        ensures { result.now ≡ (self.now).path }
    {
        self.path.as_str()
    }

    /// The name under which it is sent.
    pub fn name(&self) -> &str
        ensures name { result.now ≡ (self.now).name }
        ensures is_own { IsOwn (self.now).path (self.now).name }
    {
        self.name.as_str()
    }
}

//! A store that keeps its files in memory.

ghost use Rattle.std.specs.Prelude.{◌≡◌, ℕ, ◌+◌, ◌-◌, ◌≤◌, ◌^◌, List, [], ◌∷◌, ◌++◌, is_err, None, Some, min, length, take, not, IsTrue, IsOk, IsErr, IfOk, OnOk, OnErr, option_map, option_copied};
ghost use Rattle.mt_outside.specs.Faults.{Rose};
ghost use Rattle.mt_outside.specs.Told.{added};
ghost use Rattle.mt_outside.specs.Files.{Holds, Lacks, Reads, emptied, replaced, grown, file_of};
ghost use Rattle.mt_outside.specs.Memory.{Stored, fails_at};

use crate::byte_strings::ByteStrings;
use crate::failed::Failed;
use crate::faults::Faults;
use crate::files::FileStore;
use crate::plan::Plan;
use crate::shelf::Shelf;
use mt_base::NoMemory;
use std::alloc::Global;
use std::marker::Model;

/// Files in memory. Clauses see the files with their names, the names that the calls were given,
/// the numbers of the calls that are to fail, the number of the next call, and the faults so far.
#[derive(Drop)]
pub struct MemoryFiles {
    shelf: Shelf,
    names: ByteStrings,
    plan: Plan,
    faults: Faults,
}

impl Model for MemoryFiles {
    ghost Value = { Stored };

    ghost view = { λ s. record {
      files = s.shelf;
      names = s.names.list;
      fails = s.plan.fails.items;
      next = s.plan.next;
      faults = s.faults.count;
    } };
}

impl MemoryFiles {
    /// A store with no files. `fails` holds the numbers, from 0, of the calls of `FileStore` that
    /// are to fail.
    pub fn new(alloc: Global, fails: Vec<u64>) -> MemoryFiles
        ensures { result ≡ record {
          files = [];
          names = [];
          fails = fails.items;
          next = 0;
          faults = 0;
        } }
    {
        MemoryFiles {
            shelf: Shelf::new(alloc),
            names: ByteStrings::new(),
            plan: Plan::new(fails),
            faults: Faults::new(),
        }
    }

    /// Makes or replaces a file. It is no call of `FileStore`. Where no memory is found nothing
    /// changes.
    pub fn put(&mut self, name: &str, bytes: &[u8]) -> Result<(), NoMemory>
        ensures put { OnOk result
            (file_of self.new.files ≡ replaced name.now bytes.now (file_of self.old.files)) }
        ensures same { self.new ≡ record self.old { files = self.new.files } }
        ensures err { OnErr result (self.new ≡ self.old) }
    {
        self.shelf.put(name, bytes)
    }

    /// The bytes of the file of this name, `None` where there is none.
    pub fn content(&self, name: &str) -> Option<&[u8]>
        ensures { option_copied result ≡ file_of self.now.files name.now }
    {
        self.shelf.content(name)
    }

    /// Begins a call of `FileStore`, which may be one that is to fail.
    fn begin(&mut self, name: &str) -> Result<(), Failed>
        ensures same { self.new ≡ record self.old {
          names = self.old.names ++ name.now ∷ [];
          next = min (self.old.next + 1) (2 ^ 64 - 1);
          faults = self.new.faults;
        } }
        ensures answer { is_err result ≡ fails_at self.old.fails self.old.next }
        ensures counts { OnOk result (self.new.faults ≡ self.old.faults) }
        ensures later { self.old.faults ≤ self.new.faults }
        ensures cause { OnErr result (Rose self.old.faults self.new.faults) }
    {
        self.names.add(name.as_bytes());
        if self.plan.is_to_fail() {
            return Err(self.faults.raise());
        }
        Ok(())
    }
}

impl FileStore for MemoryFiles {
    ghost faults = { λ s. s.faults };

    ghost told = { λ s. Some (file_of s.files) };

    ghost named = { λ s. Some s.names };

    fn read(&mut self, name: &str, at: u64, out: &mut [u8]) -> Result<usize, Failed>
        ensures never_falls { self.old.faults ≤ self.new.faults }
        ensures cause { OnErr result (Rose self.old.faults self.new.faults) }
        ensures counts { OnOk result (self.new.faults ≡ self.old.faults) }
        ensures bound { IfOk result (λ n. n ≤ length out.new) }
        ensures bytes { (content : List ℕ) →
            Holds (Some (file_of self.old.files)) name.now content →
            IfOk result (λ n. Reads content at n out.new) }
        ensures missing { Lacks (Some (file_of self.old.files)) name.now → IsErr result }
        ensures same { Some (file_of self.new.files) ≡ Some (file_of self.old.files) }
        ensures name { Some self.new.names ≡ added (Some self.old.names) (name.now ∷ []) }
        ensures planned { IsTrue (fails_at self.old.fails self.old.next) → IsErr result }
        ensures answers { IsTrue (not (fails_at self.old.fails self.old.next)) →
            (content : List ℕ) → Holds (Some (file_of self.old.files)) name.now content → IsOk result }
        ensures files { self.new.files ≡ self.old.files }
        ensures fails { self.new.fails ≡ self.old.fails }
        ensures next { self.new.next ≡ min (self.old.next + 1) (2 ^ 64 - 1) }
    {
        self.begin(name)?;
        let Some(content) = self.shelf.content(name) else {
            return Err(self.faults.raise());
        };
        Ok(copy_front(content, at, out))
    }

    fn create(&mut self, name: &str) -> Result<(), Failed>
        ensures never_falls { self.old.faults ≤ self.new.faults }
        ensures cause { OnErr result (Rose self.old.faults self.new.faults) }
        ensures counts { OnOk result (self.new.faults ≡ self.old.faults) }
        ensures emptied { OnOk result (Some (file_of self.new.files) ≡
            option_map (emptied name.now) (Some (file_of self.old.files))) }
        ensures same { OnErr result
            (Some (file_of self.new.files) ≡ Some (file_of self.old.files)) }
        ensures name { Some self.new.names ≡ added (Some self.old.names) (name.now ∷ []) }
        ensures planned { IsTrue (fails_at self.old.fails self.old.next) → IsErr result }
        ensures fails { self.new.fails ≡ self.old.fails }
        ensures next { self.new.next ≡ min (self.old.next + 1) (2 ^ 64 - 1) }
    {
        self.begin(name)?;
        let Ok(()) = self.shelf.put(name, &[]) else {
            return Err(self.faults.raise());
        };
        Ok(())
    }

    fn append(&mut self, name: &str, bytes: &[u8]) -> Result<(), Failed>
        ensures never_falls { self.old.faults ≤ self.new.faults }
        ensures cause { OnErr result (Rose self.old.faults self.new.faults) }
        ensures counts { OnOk result (self.new.faults ≡ self.old.faults) }
        ensures grown { OnOk result (Some (file_of self.new.files) ≡
            option_map (grown name.now bytes.now) (Some (file_of self.old.files))) }
        ensures prefix { (k : ℕ) × (Some (file_of self.new.files) ≡
            option_map (grown name.now (take k bytes.now)) (Some (file_of self.old.files))) }
        ensures missing { Lacks (Some (file_of self.old.files)) name.now → IsErr result }
        ensures name { Some self.new.names ≡ added (Some self.old.names) (name.now ∷ []) }
        ensures planned { IsTrue (fails_at self.old.fails self.old.next) → IsErr result }
        ensures same { OnErr result (self.new.files ≡ self.old.files) }
        ensures fails { self.new.fails ≡ self.old.fails }
        ensures next { self.new.next ≡ min (self.old.next + 1) (2 ^ 64 - 1) }
    {
        self.begin(name)?;
        let Ok(()) = self.shelf.grow(name, bytes) else {
            return Err(self.faults.raise());
        };
        Ok(())
    }
}

/// Copies as many bytes from place `at` on as there are and fit, and answers how many.
pub(crate) fn copy_front(content: &[u8], at: u64, out: &mut [u8]) -> usize
    ensures count { result ≡ min (length content.now - at) (length out.old) }
    ensures bytes { Reads content.now at result out.new }
{
    let start = (at as usize).min(content.len());
    let rest = &content[start..];
    let count = rest.len().min(out.len());
    out[..count].copy_from_slice(&rest[..count]);
    count
}

//! The machine's files as a store.

ghost use Rattle.std.specs.Prelude.{◌≡◌, ℕ, ◌≤◌, List, None, string_bytes, length, IfOk, OnOk};
ghost use Rattle.mt_outside.specs.Files.{Reads};
ghost use Rattle.mt_outside.specs.Reading.{StandsAt, Reaches};
ghost use Rattle.mt_outside.specs.declared.reading.Reading.{Reading};

use crate::failed::Failed;
use crate::faults::Faults;
use crate::files::FileStore;
use crate::reading::Reading;
use std::alloc::Global;
use std::fs;
use std::fs::OpenOptions;
use std::io::Write;
use std::rt::Files;

/// The runtime's files. It tells nothing of what they hold. The file that was read last stays open,
/// so that one file is read piece by piece in one pass.
#[derive(Drop)]
pub struct RealFiles<'a, R: Files> {
    rt: &'a R,
    alloc: Global,
    reading: Option<Reading<R::File>>,
    faults: Faults,
}

impl<'a, R: Files> RealFiles<'a, R> {
    pub fn new(rt: &'a R, alloc: Global) -> RealFiles<'a, R>
        ensures { ⟦<RealFiles<'a, R> as FileStore>⟧.faults result ≡ 0 }
    {
        RealFiles {
            rt,
            alloc,
            reading: None,
            faults: Faults::new(),
        }
    }

    /// Reads bytes of the file of this name, and keeps it open behind them.
    ///
    /// Where that file is the one that is open and tells its bytes, they are those at the place.
    fn read_open(&mut self, name: &str, at: u64, out: &mut [u8]) -> Result<usize, Failed>
        ensures counts { self.new.faults.count ≡ self.old.faults.count }
        ensures bound { IfOk result (λ n. n ≤ length out.new) }
        ensures bytes { (kept : Reading R.File) (content : List ℕ) →
            self.old.reading ≡ Some kept → string_bytes kept.name ≡ name.now →
            Reaches R.File.remaining R.File.stream_position R.File.stream_bytes kept.file content kept.at at →
            IfOk result (λ n. Reads content at n out.new) }
        ensures stands { (kept : Reading R.File) (content : List ℕ) →
            self.old.reading ≡ Some kept → string_bytes kept.name ≡ name.now →
            Reaches R.File.remaining R.File.stream_position R.File.stream_bytes kept.file content kept.at at →
            OnOk result ((next : Reading R.File) × (self.new.reading ≡ Some next) × (string_bytes next.name ≡ name.now)
            × StandsAt (R.File.remaining next.file) content next.at) }
    {
        let mut reading = self.open(name)?;
        let count = reading.read_at(at, out)?;
        self.reading = Some(reading);
        Ok(count)
    }

    /// The file of this name, for reading; the one that is open where it is that one.
    fn open(&mut self, name: &str) -> Result<Reading<R::File>, Failed>
        ensures counts { self.new.faults.count ≡ self.old.faults.count }
        ensures name { IfOk result (λ reading. string_bytes reading.name ≡ name.now) }
        ensures kept { (kept : Reading R.File) → self.old.reading ≡ Some kept →
            string_bytes kept.name ≡ name.now → result ≡ Ok kept }
    {
        if let Some(reading) = self.reading.take() {
            if reading.name.as_str() == name {
                return Ok(reading);
            }
        }
        let Ok(name) = String::from_str(self.alloc, name) else {
            return Err(Failed);
        };
        let Ok(file) = fs::open(self.rt, name.as_str()) else {
            return Err(Failed);
        };
        Ok(Reading::new(name, file))
    }
}

impl<R: Files> FileStore for RealFiles<'_, R> {
    ghost faults = { λ s. s.faults.count };

    ghost told = { λ _. None };

    ghost named = { λ _. None };

    fn read(&mut self, name: &str, at: u64, out: &mut [u8]) -> Result<usize, Failed> {
        match self.read_open(name, at, out) {
            Ok(count) => Ok(count),
            Err(_) => Err(self.faults.raise()),
        }
    }

    fn create(&mut self, name: &str) -> Result<(), Failed> {
        self.reading = None;
        let Ok(_) = fs::create(self.rt, name) else {
            return Err(self.faults.raise());
        };
        Ok(())
    }

    fn append(&mut self, name: &str, bytes: &[u8]) -> Result<(), Failed> {
        self.reading = None;
        let mut how = OpenOptions::new();
        how.append(true);
        let Ok(mut file) = how.open(self.rt, name) else {
            return Err(self.faults.raise());
        };
        let Ok(()) = file.write_all(bytes) else {
            return Err(self.faults.raise());
        };
        Ok(())
    }
}

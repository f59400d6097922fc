//! A file that is read piece by piece.

ghost use Rattle.std.specs.Prelude.{◌≡◌, ℕ, ◌≤◌, List, length, IfOk, OnOk};
ghost use Rattle.mt_outside.specs.Files.{Reads};
ghost use Rattle.mt_outside.specs.Reading.{StandsAt, Reaches};

use crate::failed::Failed;
use std::io::{Read, Seek, SeekFrom};

/// A file that is being read, and the place that it has reached.
///
/// The clauses speak of files that tell what they still give, by the words of `std`. The machine's
/// files tell nothing.
#[derive(Drop)]
pub(crate) struct Reading<F> {
    pub(crate) name: String,
    pub(crate) file: F,
    at: u64,
}

impl<F: Read + Seek> Reading<F> {
    /// A file that was just opened.
    pub(crate) fn new(name: String, file: F) -> Reading<F>
        ensures name { result.name ≡ name }
        ensures file { result.file ≡ file }
        ensures at { result.at ≡ 0 }
    {
        Reading { name, file, at: 0 }
    }

    /// Reads bytes from place `at` on into the front of `out`, and answers how many.
    pub(crate) fn read_at(&mut self, at: u64, out: &mut [u8]) -> Result<usize, Failed>
        ensures bound { IfOk result (λ n. n ≤ length out.new) }
        ensures name { self.new.name ≡ self.old.name }
        ensures bytes { (content : List ℕ) →
            Reaches F.remaining F.stream_position F.stream_bytes self.old.file content self.old.at at →
            IfOk result (λ n. Reads content at n out.new) }
        ensures stands { (content : List ℕ) →
            Reaches F.remaining F.stream_position F.stream_bytes self.old.file content self.old.at at →
            OnOk result (StandsAt (F.remaining self.new.file) content self.new.at) }
    {
        self.go_to(at)?;
        self.read_on(out)
    }

    /// Moves to a place. Where the file stands there already, nothing is done.
    fn go_to(&mut self, at: u64) -> Result<(), Failed>
        ensures name { self.new.name ≡ self.old.name }
        ensures at { OnOk result (self.new.at ≡ at) }
        ensures stands { (content : List ℕ) →
            Reaches F.remaining F.stream_position F.stream_bytes self.old.file content self.old.at at →
            OnOk result (StandsAt (F.remaining self.new.file) content at) }
    {
        if self.at == at {
            return Ok(());
        }
        let Ok(_) = self.file.seek(SeekFrom::Start(at)) else {
            return Err(Failed);
        };
        self.at = at;
        Ok(())
    }

    /// Reads bytes from the place that it has reached, and moves behind them.
    fn read_on(&mut self, out: &mut [u8]) -> Result<usize, Failed>
        ensures bound { IfOk result (λ n. n ≤ length out.new) }
        ensures name { self.new.name ≡ self.old.name }
        ensures bytes { (content : List ℕ) → StandsAt (F.remaining self.old.file) content self.old.at →
            IfOk result (λ n. Reads content self.old.at n out.new) }
        ensures stands { (content : List ℕ) → StandsAt (F.remaining self.old.file) content self.old.at →
            OnOk result (StandsAt (F.remaining self.new.file) content self.new.at) }
    {
        let Ok(count) = self.file.read(out) else {
            return Err(Failed);
        };
        let Some(at) = self.at.checked_add(count as u64) else {
            return Err(Failed);
        };
        self.at = at;
        Ok(count)
    }
}

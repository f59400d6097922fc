//! The numbers that were seen of late.

ghost use Rattle.std.specs.Prelude.{◌≡◌, ◌+◌, ◌*◌, ◌%◌, ◌<◌, ◌≤◌, ◌^◌, ℕ, List, [], ◌∷◌, length, unwrap_or, IfOk};
ghost use Rattle.mt_windows.specs.BitsView.{is_set};
ghost use Rattle.mt_windows.specs.Noted.{greatest_of, is_seen};
ghost use Rattle.mt_windows.specs.NotedView.{Covers, Notes};

use crate::bits::Bits;
use crate::limits::TELL;
use mt_base::{NoMemory, Width};
use std::alloc::Global;
use std::marker::{Model, PhantomData};

/// Which of the last numbers up to the greatest one were seen.
#[derive(Drop)]
pub struct Seen<W: Width> {
    greatest: Option<u64>,
    recent: Bits,
    width: PhantomData<W>,
}

impl<W: Width> Model for Seen<W> {
    ghost use Rattle.std.specs.Prelude.{◌≡◌, ◌*◌, length};
    ghost use Rattle.mt_windows.specs.declared.limits.TheConstants.{TELL};
    ghost use Rattle.mt_windows.specs.NotedView.{Marks};

    ghost Value = { Marks };

    ghost view = { λ s. record { greatest = s.greatest; recent = s.recent } };

    ghost invariant = { λ s. 64 * length s.recent ≡ TELL };
}

impl<W: Width> Seen<W> {
    /// Nothing was seen yet of numbers that begin at `_first`.
    pub fn new(alloc: Global, _first: u64) -> Result<Seen<W>, NoMemory>
        requires from { 1 ≤ _first }
        requires below { _first < 2 ^ 33 }
        ensures { IfOk result (λ s. Notes s []) }
    {
        let recent = Bits::new(alloc, TELL as usize / 64)?;
        Ok(Seen {
            greatest: None,
            recent,
            width: PhantomData,
        })
    }

    /// Forgets everything; the numbers begin at `_first`.
    pub fn restart(&mut self, _first: u64)
        requires from { 1 ≤ _first }
        requires below { _first < 2 ^ 33 }
        ensures { Notes self.new [] }
    {
        self.greatest = None;
        self.recent.clear_all();
    }

    /// The same memory for numbers that begin at `_first` and have another width. Everything is
    /// forgotten.
    pub fn renewed<V: Width>(self, _first: u64) -> Seen<V>
        requires from { 1 ≤ _first }
        requires below { _first < 2 ^ 33 }
        ensures { Notes result [] }
    {
        let mut recent = self.recent;
        recent.clear_all();
        Seen {
            greatest: None,
            recent,
            width: PhantomData,
        }
    }

    /// Notes that the number was seen.
    pub fn note(&mut self, number: u64)
        ensures { (noted : List ℕ) → Notes self.old noted → Notes self.new (number ∷ noted) }
    {
        let before = self.greatest.unwrap_or(0);
        let greatest = number.max(before);
        advance(&mut self.recent, before, greatest);
        mark(&mut self.recent, greatest, number);
        self.greatest = Some(greatest);
    }

    /// The greatest number that was seen.
    pub fn greatest(&self) -> Option<u64>
        ensures { (noted : List ℕ) → Notes self.now noted → result ≡ greatest_of noted }
    {
        self.greatest
    }

    /// Whether the number was seen, and is among the last 512 up to the greatest one.
    pub fn has(&self, number: u64) -> bool
        ensures { (noted : List ℕ) → Notes self.now noted → result ≡ is_seen TELL noted number }
    {
        let Some(greatest) = self.greatest else {
            return false;
        };
        if number > greatest || greatest - number >= TELL {
            return false;
        }
        self.recent.has((number % TELL) as usize)
    }

    /// The words of bits: of each of the last 512 numbers up to the greatest one, the bit at its
    /// place, which it leaves modulo 512, is set where the number was seen.
    pub fn words(&self) -> &[u64]
        ensures count { length result.now ≡ 8 }
        ensures bits { (noted : List ℕ) → Notes self.now noted → (n : ℕ) → n ≤ unwrap_or (greatest_of noted) 0 → unwrap_or (greatest_of noted) 0 < n + TELL → is_set result.now (n % TELL) ≡ is_seen TELL noted n }
    {
        self.recent.words()
    }
}

/// Moves on to this number: those behind the one before were not seen.
fn advance(recent: &mut Bits, before: u64, greatest: u64)
    requires size { 64 * length recent.old ≡ TELL }
    requires order { before ≤ greatest }
    ensures len { length recent.new ≡ length recent.old }
    ensures covers { (noted : List ℕ) → unwrap_or (greatest_of noted) 0 ≤ before → Covers recent.old before noted → Covers recent.new greatest noted }
{
    if greatest - before >= TELL {
        recent.clear_all();
        return;
    }
    for passed in before..greatest {
        recent.clear(((passed + 1) % TELL) as usize);
    }
}

/// Marks a number up to the greatest one, where it is not too old.
fn mark(recent: &mut Bits, greatest: u64, number: u64)
    requires size { 64 * length recent.old ≡ TELL }
    requires order { number ≤ greatest }
    ensures len { length recent.new ≡ length recent.old }
    ensures covers { (noted : List ℕ) → Covers recent.old greatest noted → Covers recent.new greatest (number ∷ noted) }
{
    if greatest - number < TELL {
        recent.set((number % TELL) as usize);
    }
}

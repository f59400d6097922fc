//! Rows of bits.

ghost use Rattle.std.specs.Prelude.{◌≡◌, ◌<◌, ◌*◌, ◌==◌, ◌||◌, ◌&&◌, not, ℕ, length, replicate, IfOk};
ghost use Rattle.mt_windows.specs.BitsView.{is_set};

use mt_base::NoMemory;
use std::alloc::Global;
use std::marker::Model;

/// Bits in words of 64. Clauses see it as the list of the words.
#[derive(Drop)]
pub struct Bits {
    words: Vec<u64>,
}

impl Model for Bits {
    ghost use Rattle.std.specs.Prelude.{ℕ, List};

    ghost Value = { List ℕ };

    ghost view = { λ b. b.words.items };
}

impl Bits {
    /// So many words, with no bit set.
    pub fn new(alloc: Global, count: usize) -> Result<Bits, NoMemory>
        ensures { IfOk result (λ b. b ≡ replicate count 0) }
    {
        let words = vec![in alloc; 0; count]?;
        Ok(Bits { words })
    }

    /// The words.
    pub fn words(&self) -> &[u64]
        ensures { result.now ≡ self.now }
    {
        self.words.as_slice()
    }

    /// Whether the bit is set.
    pub fn has(&self, place: usize) -> bool
        requires { place < 64 * length self.now }
        ensures { result ≡ is_set self.now place }
    {
        self.words[place / 64] >> (place % 64) & 1 == 1
    }

    /// Sets the bit.
    pub fn set(&mut self, place: usize)
        requires { place < 64 * length self.old }
        ensures len { length self.new ≡ length self.old }
        ensures bits { (k : ℕ) → is_set self.new k ≡ ((k == place) || is_set self.old k) }
    {
        self.words[place / 64] |= 1 << (place % 64);
    }

    /// Clears the bit.
    pub fn clear(&mut self, place: usize)
        requires { place < 64 * length self.old }
        ensures len { length self.new ≡ length self.old }
        ensures bits { (k : ℕ) → is_set self.new k ≡ (not (k == place) && is_set self.old k) }
    {
        self.words[place / 64] &= !(1 << (place % 64));
    }

    /// Clears all bits.
    pub fn clear_all(&mut self)
        ensures { self.new ≡ replicate (length self.old) 0 }
    {
        self.words.fill(0);
    }
}

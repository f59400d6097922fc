//! Pieces of bytes that wait to be given, one after the other.

ghost use Rattle.std.specs.Prelude.{◌≡◌, map, vec_items, drop, option_copied, slice_get};
ghost use Rattle.mt_outside.specs.Memory.{passed};

use std::marker::Model;

/// Pieces that are given in order, whole or in parts. Clauses see those that are left, and of the
/// first of them what is left.
#[derive(Drop)]
pub(crate) struct Waiting {
    all: Vec<Vec<u8>>,
    next: usize,
    at: usize,
}

impl Model for Waiting {
    ghost use Rattle.std.specs.Prelude.{ℕ, List, map, vec_items, drop};
    ghost use Rattle.mt_outside.specs.Memory.{begun};

    ghost Value = { List (List ℕ) };

    ghost view = { λ s. begun s.at (map vec_items (drop s.next s.all.items)) };
}

impl Waiting {
    pub(crate) fn new(all: Vec<Vec<u8>>) -> Waiting
        ensures { result ≡ map vec_items all.items }
    {
        Waiting {
            all,
            next: 0,
            at: 0,
        }
    }

    /// What is left of the first piece, where one is left.
    pub(crate) fn first(&self) -> Option<&[u8]>
        ensures { option_copied result ≡ slice_get self.now 0 }
    {
        let piece = self.all.get(self.next)?;
        let start = self.at.min(piece.len());
        Some(&piece[start..])
    }

    /// So many bytes of the first piece were given. It is gone where none of it is left.
    pub(crate) fn pass(&mut self, count: usize)
        ensures { self.new ≡ passed count self.old }
    {
        let Some(piece) = self.all.get(self.next) else {
            return;
        };
        if piece.len().saturating_sub(self.at) <= count {
            self.next += 1;
            self.at = 0;
        } else {
            self.at += count;
        }
    }
}

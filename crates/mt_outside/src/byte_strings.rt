//! Strings of bytes that the calls of a form in memory were given or gave. Proofs alone read them:
//! they take no memory, and nothing is done for them at run time.

ghost use Rattle.std.specs.Prelude.{◌≡◌, ℕ, List, [], ◌∷◌, ◌++◌};
ghost use Rattle.std.specs.Borrow.{ftrue};

use std::marker::Model;

/// A clause reads the strings, in order, as `list`.
#[derive(Drop)]
pub(crate) struct ByteStrings {
    pub ghost list: { List (List ℕ) },
}

impl Model for ByteStrings {
    ghost also_owns = { λ _. ftrue };
}

impl ByteStrings {
    pub(crate) fn new() -> ByteStrings
        ensures { result.list ≡ [] }
    {
        ByteStrings {}
    }

    /// One more string.
    pub(crate) fn add(&mut self, _bytes: &[u8])
        ensures { self.new.list ≡ self.old.list ++ _bytes.now ∷ [] }
    {}
}

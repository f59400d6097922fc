//! What the calls of a form in memory were given or gave. Proofs alone read it: it takes no memory,
//! and nothing is done for it at run time.

ghost use Rattle.std.specs.Prelude.{◌≡◌, List, [], ◌∷◌, ◌++◌};
ghost use Rattle.std.specs.Borrow.{ftrue};

use std::marker::{Model, PhantomData};

/// A clause reads the values, in order, as `list`.
#[derive(Drop)]
pub(crate) struct Story<A> {
    of: PhantomData<A>,
    pub ghost list: { List A },
}

impl<A> Model for Story<A> {
    ghost also_owns = { λ _. ftrue };
}

impl<A> Story<A> {
    pub(crate) fn new() -> Story<A>
        ensures { result.list ≡ [] }
    {
        Story { of: PhantomData }
    }

    /// The story with one more value at its end.
    pub(crate) fn and(&self, _value: &A) -> Story<A>
        ensures { result.list ≡ self.now.list ++ _value.now ∷ [] }
    {
        Story { of: PhantomData }
    }
}

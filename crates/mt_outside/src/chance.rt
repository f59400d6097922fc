//! A source of bytes that nobody can foresee.

ghost use Rattle.std.specs.Prelude.{◌≡◌, ℕ, ◌≤◌, List, [], ◌∷◌, Option, OnOk, OnErr};
ghost use Rattle.mt_outside.specs.Faults.{Rose};
ghost use Rattle.mt_outside.specs.Told.{added};

use crate::failed::Failed;

/// A source of words of sixteen bytes. That nobody can foresee them is no clause.
///
/// The clauses speak of three meanings: `faults` counts the faults so far, `words` is what the
/// source tells of the words that it gave, in order, where it tells it, and `stays` is what no call
/// changes beside that, as at [`crate::Stream`].
pub trait Chance {
    ghost faults: { Self → ℕ };

    ghost words: { Self → Option (List (List ℕ)) };

    ghost stays: { Self → Self → Type 0 };

    /// Puts a word into `out`.
    fn sixteen(&mut self, out: &mut [u8; 16]) -> Result<(), Failed>
        ensures stays { stays self.old self.new }
        ensures never_falls { faults self.old ≤ faults self.new }
        ensures cause { OnErr result (Rose (faults self.old) (faults self.new)) }
        ensures counts { OnOk result (faults self.new ≡ faults self.old) }
        ensures tells { OnOk result (words self.new ≡ added (words self.old) (out.new ∷ [])) }
        ensures same { OnErr result (words self.new ≡ words self.old) };

    ghost stays_same: { (a : Self) → stays a a };

    ghost stays_on: { (a b c : Self) → stays a b → stays b c → stays a c };
}

//! A clock.

ghost use Rattle.std.specs.Prelude.{◌≡◌, ℕ, ◌<◌, ◌≤◌, ◌^◌, List, [], ◌∷◌, Option, IfOk, OnOk, OnErr};
ghost use Rattle.mt_outside.specs.Faults.{Rose};
ghost use Rattle.mt_outside.specs.Told.{added};

use crate::failed::Failed;

/// The greatest moment that a clock may give.
pub(crate) const LAST_MOMENT: u64 = (1 << 62) - 1;

/// A clock, whose moments count milliseconds.
///
/// The clauses speak of three meanings: `faults` counts the faults so far, `moments` is what the
/// clock tells of the moments that it gave, in order, where it tells it, and `stays` is what no call
/// changes beside that, as at [`crate::Stream`].
pub trait Clock {
    ghost faults: { Self → ℕ };

    ghost moments: { Self → Option (List ℕ) };

    ghost stays: { Self → Self → Type 0 };

    /// The moment, below 2^62. It may be before one that was given.
    fn now(&mut self) -> Result<u64, Failed>
        ensures stays { stays self.old self.new }
        ensures never_falls { faults self.old ≤ faults self.new }
        ensures cause { OnErr result (Rose (faults self.old) (faults self.new)) }
        ensures counts { OnOk result (faults self.new ≡ faults self.old) }
        ensures bound { IfOk result (λ now. now < 2 ^ 62) }
        ensures tells { IfOk result (λ now. moments self.new ≡ added (moments self.old) (now ∷ [])) }
        ensures same { OnErr result (moments self.new ≡ moments self.old) };

    ghost stays_same: { (a : Self) → stays a a };

    ghost stays_on: { (a b c : Self) → stays a b → stays b c → stays a c };
}

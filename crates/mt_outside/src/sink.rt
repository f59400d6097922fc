//! A sink of bytes.

ghost use Rattle.std.specs.Prelude.{◌≡◌, ℕ, ◌<◌, ◌≤◌, List, Option, length, take, IfOk, OnOk, OnErr};
ghost use Rattle.mt_outside.specs.Faults.{Rose};
ghost use Rattle.mt_outside.specs.Told.{added};

use crate::failed::Failed;

/// Bytes are written to it, and none comes back.
///
/// The clauses speak of two meanings: `faults` counts the faults so far, and `written` is what the
/// sink tells of the bytes that it took, in order, where it tells it.
pub trait Sink {
    ghost faults: { Self → ℕ };

    ghost written: { Self → Option (List ℕ) };

    /// Writes the front of `bytes`, and answers how many it took: at least one where there is one.
    /// Where it fails it took none.
    fn write(&mut self, bytes: &[u8]) -> Result<usize, Failed>
        ensures never_falls { faults self.old ≤ faults self.new }
        ensures cause { OnErr result (Rose (faults self.old) (faults self.new)) }
        ensures counts { OnOk result (faults self.new ≡ faults self.old) }
        ensures bound { IfOk result (λ n. n ≤ length bytes.now) }
        ensures some { IfOk result (λ n. 0 < length bytes.now → 0 < n) }
        ensures took { IfOk result (λ n.
            written self.new ≡ added (written self.old) (take n bytes.now)) }
        ensures same { OnErr result (written self.new ≡ written self.old) };
}

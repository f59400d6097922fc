//! A store of files.

ghost use Rattle.std.specs.Prelude.{◌≡◌, ℕ, ◌≤◌, List, [], ◌∷◌, Option, length, take, IfOk, IsErr, OnOk, OnErr};
ghost use Rattle.std.specs.Option.{option_map};
ghost use Rattle.mt_outside.specs.Faults.{Rose};
ghost use Rattle.mt_outside.specs.Told.{added};
ghost use Rattle.mt_outside.specs.Files.{Contents, Holds, Lacks, Reads, emptied, grown};

use crate::failed::Failed;

/// Files by name, read and written piece by piece.
///
/// The clauses speak of three meanings: `faults` counts the faults so far, `told` is what the store
/// tells of its files and `named` of the names that its calls were given, in order. A store that
/// tells nothing keeps telling nothing, and owes nothing more by the clauses on what is told.
pub trait FileStore {
    ghost faults: { Self → ℕ };

    ghost told: { Self → Option Contents };

    ghost named: { Self → Option (List (List ℕ)) };

    /// Reads bytes of the file from place `at` on into the front of `out`, and answers how many.
    /// It gives 0 at or past the end, and else at least one where `out` isn't empty. What stands in
    /// `out` behind them is free. A name without a file is `Failed`. No file changes.
    fn read(&mut self, name: &str, at: u64, out: &mut [u8]) -> Result<usize, Failed>
        ensures never_falls { faults self.old ≤ faults self.new }
        ensures cause { OnErr result (Rose (faults self.old) (faults self.new)) }
        ensures counts { OnOk result (faults self.new ≡ faults self.old) }
        ensures bound { IfOk result (λ n. n ≤ length out.new) }
        ensures bytes { (content : List ℕ) → Holds (told self.old) name.now content →
            IfOk result (λ n. Reads content at n out.new) }
        ensures missing { Lacks (told self.old) name.now → IsErr result }
        ensures same { told self.new ≡ told self.old }
        ensures name { named self.new ≡ added (named self.old) (name.now ∷ []) };

    /// Makes an empty file in place of what was there. Where it fails no file changes.
    fn create(&mut self, name: &str) -> Result<(), Failed>
        ensures never_falls { faults self.old ≤ faults self.new }
        ensures cause { OnErr result (Rose (faults self.old) (faults self.new)) }
        ensures counts { OnOk result (faults self.new ≡ faults self.old) }
        ensures emptied { OnOk result
            (told self.new ≡ option_map (emptied name.now) (told self.old)) }
        ensures same { OnErr result (told self.new ≡ told self.old) }
        ensures name { named self.new ≡ added (named self.old) (name.now ∷ []) };

    /// Writes bytes at the end of the file. Where it fails, a prefix of them may have been written.
    /// A name without a file is `Failed`. No other file changes.
    fn append(&mut self, name: &str, bytes: &[u8]) -> Result<(), Failed>
        ensures never_falls { faults self.old ≤ faults self.new }
        ensures cause { OnErr result (Rose (faults self.old) (faults self.new)) }
        ensures counts { OnOk result (faults self.new ≡ faults self.old) }
        ensures grown { OnOk result
            (told self.new ≡ option_map (grown name.now bytes.now) (told self.old)) }
        ensures prefix { (k : ℕ) ×
            (told self.new ≡ option_map (grown name.now (take k bytes.now)) (told self.old)) }
        ensures missing { Lacks (told self.old) name.now → IsErr result }
        ensures name { named self.new ≡ added (named self.old) (name.now ∷ []) };
}

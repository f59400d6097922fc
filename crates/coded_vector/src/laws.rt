//! Laws of the coded vector: what is written spells the flags, piece by piece as the rule says,
//! and which flag tells of which number.

ghost use Rattle.std.specs.Prelude.{◌≡◌, ◌+◌, ◌*◌, ◌/◌, ◌<◌, ◌≤◌, ◌⊎◌, ◌∷◌, ◌++◌, ℕ, Bool, List, None, Some, length};
ghost use Rattle.coded_vector.specs.CodedBytes.{flags_of};
ghost use Rattle.coded_vector.specs.Numbers.{flag_told};
ghost use Rattle.coded_vector.specs.Written.{HoldPieces, coded_of};

/// Each byte that is written holds what the rule says comes next, and no other list of bytes does
/// so.
pub fn chosen_pieces()
    ensures held { (flags : List Bool) → HoldPieces (coded_of flags) flags }
    ensures only { (cs : List ℕ) (flags : List Bool) → HoldPieces cs flags → cs ≡ coded_of flags }
{}

/// What is written for flags spells just these flags, in no more bytes than flags, and about one
/// byte for seven flags: of n flags at most a seventh of n + 36.
pub fn written_spells()
    ensures spells { (flags : List Bool) → flags_of (coded_of flags) ≡ flags }
    ensures few { (flags : List Bool) → length (coded_of flags) ≤ length flags }
    ensures short { (flags : List Bool) → length (coded_of flags) ≤ (length flags + 36) / 7 }
{}

/// A byte has at most 63 flags.
pub fn few_flags()
    ensures { (cs : List ℕ) → length (flags_of cs) ≤ 63 * length cs }
{}

/// A flag tells of the number that lies as far above the base as there are flags before it. No
/// flag tells of a number below the base, or further above it than there are flags.
pub fn numbers_told()
    ensures told { (before after : List Bool) (flag : Bool) (base number : ℕ) →
        base + length before ≡ number →
        flag_told (before ++ flag ∷ after) base number ≡ Some flag }
    ensures untold { (flags : List Bool) (base number : ℕ) →
        (number < base) ⊎ (base + length flags ≤ number) → flag_told flags base number ≡ None }
{}
